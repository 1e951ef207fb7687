//! The centre as the machine of a hub.
//!
//! `CentreMachine` has a centre and the keep of a group. An event is planned, its replies are made, it is adopted, and what it
//! changes is held. Once the group's events have happened, what they changed passes the gate and is committed at once, and only then
//! their replies leave: what leaves was committed. The replies, and the centre after them, are exactly the definition's. An
//! event that finds no memory leaves the centre unchanged. Without memory a submit_sm is still refused as its octets
//! refuse it, and every other request fails with ESME_RSYSERR. A group whose commit was refused, or a read in it, leaves the rows
//! from before it in the store, or a closed store: then the centre starts again with the rows, and each request of the
//! group has failed.
//!
//! `Service` is what a hub's keeper runs: it asks the centre for a seat's job, or lets time pass, and gives each seat
//! its replies. Its steps are one history of the centre's definition (`specs/Serving.antt`). Behind its `Cutoff` it begins
//! no event: each fails as for want of memory. It has errands, which no seat asks: an order that its owner left at the
//! `OrderDesk`, and messages to forget, each of which its archive has before it goes. The answer to an order goes back to
//! the desk, once its group is committed. So does an account that comes: it is the last of the centre's from then on. A store
//! has no accounts. They are handed in as a service starts, and each centre that starts again gets them. `SeatMap` keeps which
//! handset's link and which session is at which seat, so that frames and receipts find their seats. `serve_with` owns a
//! service, lends it and gives the keep back, so that no crate above proves how a centre is dropped.
//!
//! - `asking`: what a job asks of the centre
//! - `causes`: by which causes handsets refused what was delivered
//! - `cutoff`: whether it is too late to begin anything
//! - `ends`: the ends of messages
//! - `errands`: what a service does that no seat asks
//! - `seat_map`: which handset and which session is at which seat
//! - `laws`: laws of the service's steps
//! - `lending`: a service that is lent
//! - `link_board`: the links at the seats, as the keeper saw them last
//! - `machine`: a centre and the keep of a group
//! - `made`: what came of a stimulus
//! - `new_account`: an account that comes
//! - `number`: the numbers of handsets
//! - `order_desk`: where an order of the owner waits, and its outcome
//! - `refused`: of which message a handset refuses a part, and by which cause
//! - `restarting`: a centre that starts again
//! - `seat_table`: rows of the seats of a hub
//! - `seated_centre`: a centre over its store, with who sits where
//! - `served`: what a service represents
//! - `service`: the service and its steps
//! - `bound_session`: handsets and sessions, as a centre that starts again wants them
//! - `short`: what is answered where there was no memory for a request
//! - `shown_links`: how the links at the seats are
//! - `start_error`: why a centre does not start
//! - `step_error`: why a step was not made
//! - `stimuli`: what a job or tick asks, and what it gives
//! - `replies`: which seats get which replies of a plan
#![tactic(auto)]

mod asking;
mod bound_session;
mod causes;
mod cutoff;
mod ends;
mod errands;
pub mod laws;
mod lending;
mod link_board;
mod machine;
mod made;
mod new_account;
mod number;
mod order_desk;
mod refused;
mod replies;
mod restarting;
mod seat_map;
mod seat_table;
mod seated_centre;
mod served;
mod service;
mod short;
mod shown_links;
mod start_error;
mod step_error;
mod stimuli;

pub use asking::{SeatRequest, job_asks};
pub use bound_session::{handsets_of, sessions_of};
pub use cutoff::Cutoff;
pub use errands::{Errands, Forgetting};
pub use lending::serve_with;
pub use link_board::{CauseCount, LinkBoard, MOST_REFUSED};
pub use machine::CentreMachine;
pub use new_account::NewAccount;
pub use order_desk::{OrderDesk, OrderOutcome};
pub use refused::RefusedPart;
pub use replies::{Requester, failed, reply_outs, taken};
pub use seat_map::{BoundSession, LinkSeat, SeatMap};
pub use served::Served;
pub use service::Service;
pub use sms_centre::{Archive, ForgetError, NoArchive, NotArchived, Order, Setup};
pub use sms_centre_spec::bodies::CentreStore;
pub use sms_intake::{AllowedSource, CentreAccount};
pub use start_error::StartError;
pub use step_error::StepError;
