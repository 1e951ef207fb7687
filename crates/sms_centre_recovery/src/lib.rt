//! What a centre stores, and what it starts with: the commit of an event, whether it can start with rows, and its memory.
//!
//! An event's changes are committed before anything of it leaves. A stop inside the commit leaves the rows from before or after.
//! Rows with which a centre can start are distinguished from others exactly, whoever wrote them. Of such rows the queues
//! get what waits for each handset and its link, and the centre its moment. Both are the definition's after a restart.
//!
//! | Module | What it has |
//! |---|---|
//! | `committing` | the commit of what an event changed |
//! | `soundness` | the rows as tables, and whether a centre can start with them |
//! | `starting` | what waits for each handset, its links, and the moment |
#![tactic(auto)]

mod committing;
pub mod soundness;
pub mod starting;

pub use committing::commit;
