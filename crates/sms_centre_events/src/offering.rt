//! What follows every event of the centre: receipts are sent, and then parts are offered.
//!
//! Each handset whose link is ready is offered its next due part, one in a transaction. Handsets are in the order in
//! which they first got a reference. The TPDU is the one that the event made, or else it is read from the store. It
//! says whether more waits for the handset (TP-MMS, 3GPP TS 23.040 9.2.3.2). Whatever draft of the definition the
//! centre represents before, it represents the definition's after. Where the store refuses a read that the definition
//! asks for, the call says so, and the event is given up.
//!
//! - `following`: receipts, then offers
//! - `laws`: laws of what follows an event
//! - `offers`: the offer to one handset
//! - `reading`: the TPDU of what waits
//! - `units`: the unit of an offered TPDU, and its transaction

mod following;
pub mod laws;
mod offers;
mod reading;
mod units;

pub use following::follow;
