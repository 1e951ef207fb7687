//! Laws of what sessions of applications wait for, over all events of the centre's definition.
//!
//! The calls of `BindingsDraft` and `OpenReportsDraft` say what becomes of reports and of sessions, each by itself. Here it
//! is shown that the definition makes exactly this of a draft. It is also shown that what those calls ask for holds at
//! the beginning of every event. Each receipt that was sent and not answered is open, of a message of its session's
//! account, and was sent in that session alone. This module has laws and no code.

pub mod laws;
