//! What a count of refused calls is good for.
ghost use Rattle.std.specs.Prelude.{◌≢◌, ◌<◌, ◌^◌, ℕ};
ghost use Rattle.sms_rows.specs.keep.Refusing.{one_more};

/// A keep that refused one more call has another count than before. So a step in which one call was refused is none in
/// which none was.
pub fn one_more_is_another()
    ensures { (n : ℕ) → n < 2 ^ 64 → one_more n ≢ n }
{}
