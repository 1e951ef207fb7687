//! The octets that a server sends by itself: to a connection that is refused or given up, or to a session.

/// There is no room for an application: generic_nack with ESME_RBINDFAIL (SMPP v3.4 4.3 and 5.1.3).
pub const NO_ROOM: [u8; 16] = [
    0x00, 0x00, 0x00, 0x10, 0x80, 0x00, 0x00, 0x00, 0x00, 0x00, 0x00, 0x0D, 0x00, 0x00, 0x00, 0x00,
];

/// There is no room for a link: CP-ERROR with the cause "congestion", behind its length (3GPP TS 24.011 7.2.3 and
/// 8.1.4.2).
pub const CONGESTION: [u8; 5] = [0x00, 0x03, 0x09, 0x10, 0x16];

/// What a link brought is no frame, or names no handset: CP-ERROR with the cause "protocol error, unspecified".
pub const PROTOCOL_ERROR: [u8; 5] = [0x00, 0x03, 0x09, 0x10, 0x6F];

/// Whether the other side is there: enquire_link with the last sequence number (SMPP v3.4 4.11.1).
pub const ENQUIRE_LINK: [u8; 16] = [
    0x00, 0x00, 0x00, 0x10, 0x00, 0x00, 0x00, 0x15, 0x00, 0x00, 0x00, 0x00, 0x7F, 0xFF, 0xFF, 0xFF,
];
