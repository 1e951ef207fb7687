//! What a handset counts.

/// The numbers that are given next, and the memory flag.
#[derive(Clone, Copy, PartialEq, Eq)]
pub struct Counters {
    /// Of the next entry, in inbox or outbox: 1 to 4294967295, which is given to none.
    pub entry: u32,
    /// TP-MR, if no unfinished entry holds it.
    pub message_reference: u8,
    /// The reference of an RP-DATA or RP-SMMA, if nothing unfinished holds it.
    pub reference: u8,
    /// Of the next text that is split.
    pub concat_reference: u16,
    /// Of the next RP-SMMA, 0 to 4294967295, which is given to none.
    pub notice: u32,
    /// A message was refused for want of a slot, and no slot has become free since.
    pub is_memory_full: bool,
}
