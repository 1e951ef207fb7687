//! The queues of all handsets, between events and within one.
//!
//! `DeliveryQueuesDraft` share `DeliveryQueues` as an event begins, and copy those that the event touches. Each contract is over
//! the centre's definition. Whatever handsets, references, links, frames and waiting parts they represent before a call
//! (`specs/queues/Shown.antt`), they represent the definition's after it. `settle` gives what is committed and sent,
//! with the memory to put it in. `DeliveryQueues::adopt` puts it in and takes none; the next event then begins with the
//! changed rows (`laws`). `forget_links` is for a centre that starts again: everything stays but the links.
//!
//! Offers, timers and recovery may concern several handsets (`Concern`, `ConcernedHandset`). An index finds those whose link is up,
//! awaited or has a timer that runs. At a moment at which nothing was left to offer, only the queues that the event
//! touched are looked at.

mod concern;
mod delivery_queues;
mod draft;
mod keyed;
pub mod laws;
mod moves;
mod placed_queue;
mod plan;
mod questions;
mod recover;
mod reserve;
mod shared_queues;
mod watching;
mod without_links;

pub use concern::{Concern, ConcernedHandset};
pub use delivery_queues::DeliveryQueues;
pub use draft::DeliveryQueuesDraft;
pub use plan::{DeliveryQueuesOutcome, DeliveryQueuesPlan};
