//! What a handset does with a frame (3GPP TS 23.040 9.2 and 10, 3GPP TS 24.011 6).
//!
//! A message is stored before it is acknowledged. One that was received already is acknowledged once more, and one for which
//! no slot is free is refused. A part of a long message joins its group, or is only marked where its group was discarded. A
//! status report is noted at the entry that it is about. What can't be read is rejected. Each call makes of the draft what
//! the stage of the definition makes of it (`sms_handset_draft`), and says what becomes of the open groups.
//!
//! | Module | What it has |
//! |---|---|
//! | `frames` | what the link passes up with a frame |
//! | `receiving` | a unit that the centre sends, and what it carries |
#![tactic(auto)]

mod frames;
mod receiving;

pub use frames::frame_received;
