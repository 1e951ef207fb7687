//! How far a link is.

/// How far a link is.
#[derive(Clone, Copy, PartialEq, Eq)]
pub(crate) enum Stage {
    /// No handset is named.
    Unnamed,
    /// The handset is named to the keeper.
    Named,
    /// The keeper said that it has another link.
    Taken,
    /// The handset is named again a little later.
    Later,
    /// The link is up.
    Up,
}
