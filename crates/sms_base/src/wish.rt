//! At which ends an originator wants a report.

/// At which ends of a message its originator wants a report.
#[derive(Clone, Copy, PartialEq, Eq)]
pub enum Wish {
    Nothing,
    Always,
    OnFailure,
}
