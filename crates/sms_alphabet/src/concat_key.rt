//! What ties the parts of a long message together.

/// The number that the parts of one long message share, in the width of its element.
#[derive(Clone, Copy, Debug, PartialEq, Eq)]
pub enum ConcatReference {
    /// Of an element with an 8-bit reference (3GPP TS 23.040 9.2.3.24.1).
    EightBit(u8),
    /// Of an element with a 16-bit reference (3GPP TS 23.040 9.2.3.24.8).
    SixteenBit(u16),
}

/// The place of a part in a long message.
#[derive(Clone, Copy, Debug, PartialEq, Eq)]
pub struct ConcatKey {
    /// The reference of the message.
    pub reference: ConcatReference,
    /// How many parts the message has.
    pub total: u8,
    /// Which of them this part is, from 1 on.
    pub number: u8,
}
