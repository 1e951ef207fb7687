use crate::message_id::MessageId;

/// For whom a frame was made or a reference given.
#[derive(Clone, Copy, PartialEq, Eq)]
pub enum Holder {
    /// A part of a message, by its number, 1 to 20.
    Part(MessageId, u8),
    /// The status report of a message.
    Report(MessageId),
    /// An entry of a handset's outbox, by its number.
    Entry(u32),
    /// A handset's notice that it has memory again (RP-SMMA), by its number.
    Memory(u32),
}
