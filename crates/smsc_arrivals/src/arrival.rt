//! A connection that came, and its side.
use std::net::SocketAddr;

/// Who is at the other end.
#[derive(Clone, Copy, PartialEq, Eq)]
pub enum PeerKind {
    /// An application, by SMPP.
    Application,
    /// A handset, by a link.
    Handset,
}

/// A connection that came: its stream, what it is for, and the address of its other side.
#[derive(Drop)]
pub struct Arrival<S> {
    pub stream: S,
    pub side: PeerKind,
    pub peer: SocketAddr,
}
