//! The status page of a run: its figures, and how a client asks for them and is answered.
//!
//! A `StatusView` holds the figures at one moment, and `response_to` writes it for a client: as a page, in Prometheus'
//! format, or in JSON. Each of them escapes a name from outside, so that no reader takes it for anything else (`laws`).
//!
//! - `access`: the line of a message at its end
//! - `archive`: the line of a message that is forgotten
//! - `chart`: a figure over the last ten minutes, as a line
//! - `commits`: how long commits take
//! - `figures`: the figures of a run
//! - `groups`: how large the groups are that a run commits at once
//! - `json`: the figures in JSON
//! - `laws`: laws of what is said of names
//! - `metrics`: the figures in Prometheus' text format
//! - `numbers`: numbers and moments in text
//! - `page`: the page
//! - `pieces`: pieces of a text, one behind another
//! - `quantiles`: quantiles in text
//! - `quoting`: text between quotation marks
//! - `requests`: requests for a page
//! - `responses`: responses
//! - `series`: the last ten minutes
//! - `words`: words of a line of the log
#![tactic(auto)]

mod access;
mod archive;
mod chart;
mod commits;
mod figures;
mod groups;
mod json;
pub mod laws;
mod metrics;
mod numbers;
mod page;
mod pieces;
mod quantiles;
mod quoting;
mod requests;
mod responses;
mod series;
mod words;

pub use access::{AccessLine, access_line};
pub use archive::{ArchiveLine, archive_line};
pub use commits::{CommitFigures, PLACES, Quantile, place_of};
pub use figures::{
    AccountLine, LastCause, LinkLine, MessageCounts, MessageFigures, PendingMessage, RefusedBinds,
    RefusedDeliveries, RefusedSubmits, Sample, SessionKind, SessionLine, StatusView, StoreFigures,
    StuckLine,
};
pub use groups::GroupFigures;
pub use requests::{Resource, Wanted, wanted_of};
pub use responses::response_to;
pub use series::Series;
