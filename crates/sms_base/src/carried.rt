use crate::holder::Holder;

/// What a unit of the relay layer is to the transfer that it belongs to.
#[derive(Clone, Copy, PartialEq, Eq)]
pub enum Kind {
    /// RP-DATA or RP-SMMA.
    Data,
    /// RP-ACK.
    Ack,
    /// RP-ERROR.
    Error,
}

/// What a frame carries.
#[derive(Clone, Copy, PartialEq, Eq)]
pub struct Carried {
    pub kind: Kind,
    /// The reference of the unit.
    pub reference: u8,
    /// For whom the frame was made; an answer has the tag of the frame that it answers.
    pub tag: Holder,
}
