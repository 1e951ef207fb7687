//! What waits at a service centre for one handset, and the link to it: the rows and the definitions.
//!
//! A handset has its link (3GPP TS 24.011 5.3) with the transfer under way, and the given references (8.2.3) with their
//! moments. It also has the parts and status reports that it still gets. Each of these is under a reference that no
//! other of them holds: so at most 256 wait. `specs/waiting/DeliveryQueues.antt` has them together, over plain lists. The laws
//! say that a change of one handset's is the centre's definition over all handsets, and leaves the others unchanged.
//! `sms_centre_queue::queue` keeps them in memory. `Revision`, `Progress` and the rows of handsets and references are
//! what the stores keep of them.

mod handset;
mod handset_link;
pub mod laws;
mod progress;
mod queued_part;
mod reference;
mod revision;

pub use handset::HandsetRow;
pub use handset_link::{HandsetLink, Sent};
pub use progress::Progress;
pub use queued_part::QueuedPart;
pub use reference::ReferenceRow;
pub use revision::{Revision, only_remove};
