//! Laws of what is offered next, over its definition alone.
ghost use Rattle.std.specs.Prelude.{◌≡◌, ◌↔◌, ◌<◌, ℕ, List, Some, None};
ghost use Rattle.sms_base.specs.Among.{Among};
ghost use Rattle.sms_rows.specs.table.Table.{Rises};
ghost use Rattle.sms_centre_rows.specs.declared.waiting.queued_part.QueuedPart.{QueuedPart};
ghost use Rattle.sms_centre_rows.specs.waiting.Keys.{queued_key};
ghost use Rattle.sms_centre_rows.specs.waiting.Waiting.{next};
ghost use Rattle.sms_schedule.specs.Precedence.{IsNext};

/// Where each message and number waits once, what is next is due, and nothing else that is due precedes it. Nothing else
/// that waits is so.
pub fn next_is_the_first_due()
    ensures { (now : ℕ) (waiting : List QueuedPart) (l : QueuedPart) → Rises queued_key waiting → (next now waiting ≡ Some l) ↔ IsNext now waiting l }
{}

/// Nothing is next only where nothing is due.
pub fn nothing_next_is_nothing_due()
    ensures { (now : ℕ) (waiting : List QueuedPart) (l : QueuedPart) → next now waiting ≡ None → Among l waiting → now < l.due }
{}

/// What is next hangs on what waits, and not on its order or on how often it stands there.
pub fn same_rows_have_the_same_next()
    ensures { (now : ℕ) (waiting others : List QueuedPart) → Rises queued_key waiting
        → ((l : QueuedPart) → Among l waiting ↔ Among l others) → next now waiting ≡ next now others }
{}
