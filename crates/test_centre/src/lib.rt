//! Tests of the crates below the centre core, over their public calls.
//!
//! - `groups`: what the events of a group changed
//! - `indexes`: what a centre keeps in memory beside its rows
//! - `intake`: submissions and refusals
//! - `receipts`: receipts and status reports
//! - `rows`: how the rows of a test are judged
//! - `schedules`: schedules beside a plain search
//! - `submissions`: submissions of applications: the refusals in order, and what is accepted
//! - `world`: scripts and reports
#![tactic(auto)]

#[cfg(test)]
mod groups;
pub mod indexes;
#[cfg(test)]
mod intake;
#[cfg(test)]
mod receipts;
#[cfg(test)]
mod rows;
#[cfg(test)]
mod schedules;
#[cfg(test)]
mod submissions;
pub mod world;
