//! Who may have the link of a number.
use sms_base::{Listed, Octets};
use std::fmt;

/// The secret of a number.
#[derive(Drop)]
pub struct LinkSecret {
    /// The digits in ASCII.
    pub number: Octets,
    /// What a link gives behind them.
    pub secret: Octets,
}

// It is not shown.
impl fmt::Debug for LinkSecret {
    fn fmt<W: fmt::Write>(&self, f: &mut fmt::Formatter<W>) -> fmt::Result {
        f.debug_struct("LinkSecret")
            .field("number", &self.number)
            .finish_non_exhaustive()
    }
}

/// Who may have the link of a number. All links of a server share one, in an `Arc`.
#[derive(Drop)]
pub enum LinkAccess {
    /// Whoever names it.
    Anyone,
    /// Who gives its secret. Of equal numbers the first counts.
    Secrets(Listed<LinkSecret>),
}
