//! Who submitted a message.
use crate::octets::Octets;

/// Who submitted a message.
#[derive(Drop)]
pub enum Originator {
    /// An application, by the name of its account.
    Application { account: Octets },
    /// The handset of the source, with its TP-MR.
    Handset { message_reference: u8 },
}
