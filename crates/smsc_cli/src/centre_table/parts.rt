//! How far a message is, by its parts.
ghost use Rattle.std.specs.Prelude.{◌≡◌};
ghost use Rattle.smsc_cli.specs.centre_table.Progressing.{attempts_in as attempts_of, due_in as due_of, sooner, with_part};

use sms_base::Moment;
use sms_centre_rows::messages::PartRow;

/// How often the part failed that failed most often.
pub fn attempts_in(parts: &[PartRow]) -> u8
    ensures { result ≡ attempts_of parts.now }
{
    let mut most = 0;
    for part in parts {
        most = most.max(part.progress.attempts);
    }
    most
}

fn sooner(first: Option<Moment>, due: Moment) -> Moment
    ensures { result ≡ sooner first due }
{
    match first {
        Some(first) if first.seconds() <= due.seconds() => first,
        _ => due,
    }
}

fn with_part(first: Option<Moment>, part: &PartRow) -> Option<Moment>
    ensures { result ≡ with_part first part.now }
{
    if part.progress.is_done {
        first
    } else {
        Some(sooner(first, part.progress.due))
    }
}

/// When the first of the parts that wait is offered next.
pub fn due_in(parts: &[PartRow]) -> Option<Moment>
    ensures { result ≡ due_of parts.now }
{
    let mut first = None;
    for part in parts {
        first = with_part(first, part);
    }
    first
}
