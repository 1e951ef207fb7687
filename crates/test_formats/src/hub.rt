//! Tests of `sms_hub` on real threads, over its public calls.
//!
//! `counter` has a small machine, which adds up the jobs and answers each with the sum so far.
//! `specs/hub/Counting.antt` says what its steps give, so each run is proved to be one history of it. The tests see
//! that runs end, that a job is taken or handed back, and that seats continue while the keeper is held.

#[cfg(test)]
mod clocks;
#[cfg(test)]
mod counter;
#[cfg(test)]
mod gates;
#[cfg(test)]
mod outs;
pub mod reply;
#[cfg(test)]
mod runs;
#[cfg(test)]
mod seats;
#[cfg(test)]
mod terms;
#[cfg(test)]
mod told;
