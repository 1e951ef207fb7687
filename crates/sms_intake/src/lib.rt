//! Submissions, and why they are refused, as far as that needs no rows.
//!
//! `from_submit` answers the submission of a handset's SUBMIT (3GPP TS 23.040 9.2.2.2), or the first refusal by
//! `specs/HandsetIntake.antt`. `from_pdu` answers that of an application's submit_sm (SMPP v3.4 4.4.1), or the first
//! refusal by `specs/SmppIntake.antt`. All is judged over borrowed octets, so want of memory is reported only of what
//! is accepted. A submission has its content: one that the centre splits where it must, or one part.
//!
//! - `allowed_source`: the sources that an account may give
//! - `content_form`: how octets spell a content
//! - `content_view`: the content of a submit_sm, before any memory is taken
//! - `deliver`: the DELIVER of a part
//! - `handset_intake`: a SUBMIT from a handset
//! - `header_form`: the header in front of a content
//! - `laws`: laws of submissions
//! - `part_bodies`: what the parts of a submission carry
//! - `refusal`: why a SUBMIT is refused
//! - `smpp_address`: the addresses of a submit_sm
//! - `smpp_front`: what is judged of a submit_sm before its text
//! - `smpp_intake`: a submit_sm from an application
//! - `smpp_times`: times and wishes of a submit_sm
//! - `submission`: what is submitted
//! - `submit_report`: the answer of a handset's SUBMIT
//! - `text_view`: the text of a submit_sm, before any memory is taken
#![tactic(auto)]

mod allowed_source;
mod content_form;
mod content_view;
mod deliver;
mod handset_intake;
mod header_form;
pub mod laws;
mod part_bodies;
mod refusal;
mod smpp_address;
mod smpp_front;
mod smpp_intake;
mod smpp_times;
mod submission;
mod submit_report;
mod text_view;

pub use allowed_source::AllowedSource;
pub use content_view::{content_of, latin_text};
pub use deliver::deliver_octets;
pub use handset_intake::from_submit;
pub use part_bodies::bodies_under;
pub use refusal::{SmppError, SubmitError, SubmitRefusal};
pub use smpp_address::{address_in, source_in};
pub use smpp_front::{Front, front_of};
pub use smpp_intake::{from_pdu, refusal_of};
pub use smpp_times::{due_of, limit_of, wish_of};
pub use submission::{CentreAccount, SinglePart, Submission, Text};
pub use submit_report::{accepting_report, refusing_report};
