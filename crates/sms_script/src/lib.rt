//! Scripts for the simulator, and the report of what a script led to.
//!
//! A script is lines of words, with a single space between each two. Its head is `start S`, `centre D`,
//! `account NAME PASSWORD D` (any number) and `handset D SLOTS` (any number), in this order. Then events follow, numbered from 1:
//! `submit`, `urgent`, `query`, `cancel`, `write`, `delete`, `discard`, `deliver`, `tick`, `restart`, `stopped before`
//! and `stopped after`.
//!
//! `read_script` answers a script exactly where the grammar has one for the whole text. Otherwise it answers the number
//! of the first bad line, whatever memory there is. Want of memory is reported of good scripts alone. Each text is one
//! script at most. Texts and numbers of the head are kept as they were written, for the player to judge.
//!
//! - `act`: acts, each behind its keyword
//! - `cutting`: texts cut into lines, and lines into words
//! - `event`: the events of a script
//! - `fault`: why a text is no script
//! - `fields`: the fields of a line
//! - `front`: the text of a script, read as far as it is wanted
//! - `hexadecimal`: octets and texts in hexadecimal digits
//! - `keyword`: the first words of lines
//! - `laws`: laws of scripts
//! - `line`: a line of a script
//! - `names`: digits that octets spell
//! - `number`: numbers in decimal digits
//! - `owner`: the lines of a handset's owner
//! - `play_fault`: why a script is not played to its end
//! - `progress`: how far a script is read
//! - `report`: what a script led to, and its text
//! - `requests`: requests of applications as PDUs
//! - `script`: whole scripts
//! - `setup`: the head of a script
//! - `text`: texts in hexadecimal digits
#![tactic(auto)]

mod act;
pub mod cutting;
mod event;
mod fault;
pub mod fields;
mod front;
mod hexadecimal;
mod keyword;
pub mod laws;
mod line;
pub mod names;
mod number;
pub mod owner;
mod play_fault;
mod progress;
pub mod report;
pub mod requests;
mod script;
mod setup;
mod text;

pub use event::{Act, EventSide, StopPoint, Submission, WorldEvent};
pub use fault::{LineFault, ScriptFault};
pub use front::read_front;
pub use hexadecimal::HexView;
pub use play_fault::PlayFault;
pub use script::{Script, read_script};
pub use setup::{AccountSetup, HandsetSetup, Setup};
pub use text::TextView;
