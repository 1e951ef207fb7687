//! What a run is written as besides its report: a ladder of text, a picture, and a capture file.
//!
//! They are formats over octets, and know neither script nor centre. `specs/` defines each of them; a writer appends
//! exactly what the definition gives. `sms_trace` fills them in while a script is played.
//!
//! - `capture`: a capture file of a centre's links and sessions
//! - `ladder`: a run as a ladder of text
//! - `picture`: a run as an SVG document
#![tactic(auto)]

pub mod capture;
pub mod ladder;
pub mod picture;
