//! The two files of a store: FILE, and its log FILE-wal.
//!
//! What a start may rest on, and how a run sees that somebody took a file away. It opens nothing: a program reads the files,
//! and asks here what they mean.
//!
//! - `beginning`: a log whose database is missing
//! - `frames`: the frames of a log behind its last whole commit
//! - `judging`: what a log says
//! - `marking`: the mark that a store's file has
//! - `reading`: the two files, read under their lock
//! - `verdicts`: whether a run may start over a store
//! - `watching`: whether the files of a run are those that it opened
//! - `writing`: the mark, and the log written back
#![tactic(auto)]

mod beginning;
mod frames;
mod judging;
mod marking;
mod reading;
mod verdicts;
mod watching;
mod writing;

pub use beginning::is_log_alone;
pub use judging::{LogFinding, LogJudgement, judge};
pub use marking::{Mark, mark_of, number_of};
pub use reading::{FilesFault, FilesFinding, finding_of, lengths_of, mark_at, octets_of};
pub use verdicts::{StartVerdict, verdict_of};
pub use watching::{FileNumber, FilesLook, OpenedFiles, are_still, opened_of};
pub use writing::{drop_log, write_back, write_mark};
