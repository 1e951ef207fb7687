//! Hosts of a capture.

// A host of the network 10.0.0.0/8.
#[derive(Clone, Copy, PartialEq, Eq)]
pub(crate) struct Host {
    // The second octet of its address.
    pub(crate) network: u8,
    // The other two.
    pub(crate) number: u16,
}
