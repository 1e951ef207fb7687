//! Whether rows are sound, and an address can be written: each condition by a test of its own.
//!
//! A test visits one list and looks up in the others, so all of it takes time linear in the rows up to a logarithm. The
//! definitions in `specs/` compare each row with each other one for numbers of handsets, reports of a message, references that wait
//! and split references. There the test puts the keys into a set. Each test's contract is a test over plain lists. That
//! such a test holds exactly where the definition's condition does is a law: of an address in `laws`, of rows in
//! `sms_centre_spec::conditions::laws`.
//!
//! | Module | What it tests |
//! |---|---|
//! | `addresses`, `differ` | that an address can be written; that numbers differ |
//! | `message_rows`, `splits` | messages, parts and priorities; split references |
//! | `allocation_rows`, `waiting_rows` | handsets and references; what waits for a handset |
//! | `report_rows` | receipts and status reports |
//! | `laws` | that an address passes exactly where it can be written |

mod addresses;
mod allocation_rows;
mod differ;
pub mod laws;
mod message_rows;
mod report_rows;
mod splits;
mod waiting_rows;

pub use addresses::is_address;
pub use allocation_rows::{are_given, are_mentioned, have_numbers_apart};
pub use message_rows::{are_messages, are_parts, are_priorities, is_handset, is_same_address};
pub use report_rows::{are_once, are_reports};
pub use splits::are_split_apart;
pub use waiting_rows::{
    are_parts_given, are_reports_given, have_references_apart, places_of, status_reference,
};
