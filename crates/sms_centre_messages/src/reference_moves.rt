//! Laws: what an event changes of messages and parts is a move of claims, over all events of the centre's definition.
//!
//! The memory of claims (`sms_centre_messages::references`) takes in only these moves. A message is new, behind all
//! others, or a pending one has ended. A part is new with its message, or its progress has changed. Every event of a
//! sound centre changes nothing else of messages and parts. This module has laws and no code.

pub mod laws;
