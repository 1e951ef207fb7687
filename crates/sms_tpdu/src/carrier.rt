/// The relay layer's message that carries a TPDU (3GPP TS 24.011 7.3).
#[derive(Clone, Copy, PartialEq, Eq)]
pub enum Carrier {
    /// RP-DATA.
    InData,
    /// RP-ACK.
    InAck,
    /// RP-ERROR.
    InError,
}
