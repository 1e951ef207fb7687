//! How a transfer to a handset ends (3GPP TS 24.011 8.2.5.4), and what becomes of what it was for.
//!
//! An answer, a timer or the loss of the link ends a transfer. The part or status report that it carried is then done, waits for
//! another attempt, or is given up. The message is delivered once all its parts are done. An end that concerns a part or report
//! which waits no more changes nothing. Whatever draft of the centre's definition the centre represents before a call, it represents
//! the definition's after it.
//!
//! | Module | What it has |
//! |---|---|
//! | `endings` | what an ending means, and what becomes of the part, the report, the message and the link |
#![tactic(auto)]

mod endings;

pub use endings::conclude;
