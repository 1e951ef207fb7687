//! Per handset: the next delivery, the free references, and the link, as the centre keeps them in memory.
//!
//! Whatever rows, links and waiting parts of the definition the queues represent before a call, they represent the
//! definition's move of them after it. Each question is answered as the definition answers it. An event works on a
//! copy, which shares what it does not touch; putting its plan in takes no memory. An event costs what it touches, not
//! what waits elsewhere.
//!
//! - `queue`: the queue of one handset
//! - `queues`: the queues of all handsets, between events and within one
#![tactic(auto)]

pub mod queue;
pub mod queues;
