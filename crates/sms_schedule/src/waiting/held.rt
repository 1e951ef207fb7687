//! Which references are held by what waits.
ghost use Rattle.std.specs.Prelude.{◌≡◌, ◌≢◌, ℕ, List, [], ◌++◌, slice_get, true, Some};
ghost use Rattle.sms_centre_rows.specs.waiting.References.{AreHeld};
ghost use Rattle.sms_centre_rows.specs.declared.waiting.queued_part.QueuedPart.{QueuedPart as QueuedOf};

use sms_centre_rows::waiting::QueuedPart;

/// No reference is held.
pub(crate) fn none_held() -> [bool; 256]
    ensures { AreHeld result [] }
{
    [false; 256]
}

fn hold(held: &mut [bool; 256], reference: u8)
    ensures this { slice_get held.new reference ≡ Some true }
    ensures others { (r : ℕ) → r ≢ reference → slice_get held.new r ≡ slice_get held.old r }
{
    held[usize::from(reference)] = true;
}

/// For each reference whether something that waits holds it, where these wait behind the others. So a reference is found in one walk
/// through what waits, also where the handset holds nearly all of them.
pub(crate) fn held_with(held: [bool; 256], waiting: &[QueuedPart]) -> [bool; 256]
    ensures { (others : List QueuedOf) → AreHeld held others → AreHeld result (others ++ waiting.now) }
{
    let mut held = held;
    for queued in waiting {
        hold(&mut held, queued.reference);
    }
    held
}
