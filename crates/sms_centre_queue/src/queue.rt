//! The queue of one handset: its link, its references, and what waits for it.
//!
//! A `DeliveryQueue` has the link with its transfer under way, the references that were given there and when, and what waits.
//! Its calls are the functions over plain lists in `sms_centre_rows/specs/waiting/DeliveryQueues.antt`. A call that finds no
//! memory leaves it in no stated state: plan on a copy, and install it when all is done.

mod delivery_queue;
mod earlier_references;
mod given_references;
mod link_figures;
mod shared_rows;

pub use delivery_queue::DeliveryQueue;
pub use link_figures::LinkFigures;
