//! A run of a script, drawn as a ladder and written as a capture file.
//!
//! Both look on while a script is played, and know no centre. Each event costs as much as it adds. The formats of a
//! picture and of a capture file are in `sms_trace_files`.
//!
//! - `drawing`: the rows of a ladder, and their notes
//! - `sessions`: the sessions of applications, PDU by PDU
//! - `watching`: who looks on while a script is played: a ladder, a capture
#![tactic(auto)]

pub mod drawing;
pub mod sessions;
pub mod watching;
