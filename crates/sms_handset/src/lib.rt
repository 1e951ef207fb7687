//! The handset core (3GPP TS 23.040 9.2 and 10, 3GPP TS 24.011 6): frames, ticks and the acts of its owner.
//!
//! `Handset` is a machine over rows, which it judges when it starts. `plan` takes an event and gives the changes of the
//! rows; nothing has changed yet. Its caller commits them and calls `adopt`, which can't fail and gives the frames. The
//! plan is exactly that of the definition, and each refusal is the definition's. A sound handset is sound after each
//! event, and starts again from the rows that were committed.
//!
//! - `receiving`: frames and ticks, and what follows every event
//! - `deleting`: deleting and discarding
//! - `event`: the events of a handset
//! - `handset`: the handset and its calls
//! - `laws`: laws of a handset's events
//! - `machine`: a handset over its store
//! - `plan`: a plan, ready made
//! - `recover_error`: why rows are refused
//! - `refusal`: why an act of the owner is refused
//! - `sound_rows`: whether a handset can start on rows
//! - `text_view`: a borrowed text
//! - `writing`: a text as SUBMITs in the outbox
#![tactic(auto)]

mod deleting;
mod event;
mod handset;
pub mod laws;
pub mod machine;
mod plan;
mod receiving;
mod recover_error;
mod refusal;
mod sound_rows;
mod text_view;
mod writing;

pub use event::HandsetEvent;
pub use handset::Handset;
pub use plan::Plan;
pub use recover_error::RecoverError;
pub use refusal::{PlanError, Refusal};
pub use sms_handset_draft::{Changes, Counters, NoMemory, Rows, Setup};
pub use sms_handset_rows::inbox::{DiscardedGroup, Entry, Group, LastAccepted, Message};
pub use sms_handset_rows::outbox::{EntryState, Notice, OutEntry, SubmitTpdu, TransferEnd};
pub use text_view::TextView;
