//! The mark that a store's file has.
ghost use Rattle.std.specs.Prelude.{◌≡◌, ◌≤◌, ◌^◌, IfNone, IfSome};
ghost use Rattle.sms_store_files.specs.Marking.{mark_of, number_of};

/// What a store's file says of the runs that had it open.
#[derive(Clone, Copy, PartialEq, Eq)]
pub enum Mark {
    /// Nothing.
    Unmarked,
    /// The last run closed it. It has this step.
    Closed(u32),
    /// A run has it open, or ended without closing it. It has this step.
    Open(u32),
}

/// The mark of this number.
pub fn mark_of(number: u32) -> Mark
    ensures { result ≡ mark_of number }
{
    if number < 2 {
        Mark::Unmarked
    } else if number % 2 == 0 {
        Mark::Closed((number - 2) / 2)
    } else {
        Mark::Open((number - 2) / 2)
    }
}

/// The number of the mark, unless its step is too great for one.
pub fn number_of(mark: Mark) -> Option<u32>
    ensures found { IfSome result (λ number. number ≡ number_of mark) }
    ensures none { IfNone result (2 ^ 32 ≤ number_of mark) }
{
    match mark {
        Mark::Unmarked => Some(0),
        Mark::Closed(step) => step.checked_mul(2)?.checked_add(2),
        Mark::Open(step) => step.checked_mul(2)?.checked_add(3),
    }
}
