//! The centre core (3GPP TS 23.040 3 and 9.2, 3GPP TS 24.011 6, SMPP v3.4 4).
//!
//! `Centre` is a machine over rows, which it judges when it starts. An event is a request of an application, a frame of
//! a handset, a link that is up or down, or a tick. `plan` takes an event and gives what it leads to; nothing has
//! changed yet. Its caller commits the changes and calls `adopt`, which can't fail and gives what leaves: frames to
//! handsets, the answer to an application, receipts. The plan is exactly that of the definition (`sms_centre_spec`). A
//! sound centre is sound after each event, and starts again from the rows that were committed. `with_centre` owns a
//! centre and lends it, so that no crate above proves how one is dropped.
//!
//! - `acting`: what an event does by itself
//! - `adopting`: a plan, put in
//! - `archiving`: archives of what a centre forgets
//! - `barring`: the bars that stand for what a centre forgets
//! - `centre`: the centre and its calls
//! - `finishing`: what follows an event, and its plan
//! - `forget_error`: why a centre forgot nothing
//! - `forgetting`: which messages a centre may forget, and the plan of it
//! - `laws`: laws of the centre's events
//! - `lending`: a centre that is lent
//! - `plan`: a plan, as callers see it
//! - `plans`: what an event leads to, ready made
//! - `refusing`: why a request is refused, whatever memory there is
//! - `state`: the centre between events
#![tactic(auto)]

mod acting;
mod adopting;
mod archiving;
mod barring;
mod centre;
mod finishing;
mod forget_error;
mod forgetting;
pub mod laws;
mod lending;
mod plan;
pub mod plans;
mod refusing;
pub mod state;

pub use crate::plans::Outputs;
pub use crate::state::{RecoverError, first_rows};
pub use archiving::{Archive, NoArchive, NotArchived};
pub use centre::Centre;
pub use forget_error::ForgetError;
pub use lending::with_centre;
pub use plan::Plan;
pub use sms_centre_queue::queue::LinkFigures;
pub use sms_centre_reports::sessions::ReceiptSession;
pub use sms_centre_spec::{CentreAnswer, CentreEvent, Changes, Order, PlanError, Rows, Setup};
pub use sms_rows::keep::BodyKeep as Bodies;
