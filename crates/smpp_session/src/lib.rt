//! A session of an application with the centre (SMPP v3.4 2.2, 4).
//!
//! The session takes octets in pieces of any size, and gives actions: octets to send, and requests to pass up. They are
//! those of the session table over the joined stream, however it was cut. Each PDU is treated at its last octet, by the
//! state that the session then has. A refused call leaves the session unchanged, and a closed session gives nothing.
//! The call that ended it says whether an account was bound until then. At most ten deliver_sm wait for their answers,
//! under different numbers. Behind an unbind of either side no request is taken in. Each that was taken is answered before
//! the session ends, and the unbind_resp follows the last answer. A bind of an account that is full is refused.
//!
//! - `accepting`: the answer to a bind that is accepted
//! - `account`: who may bind, and which accounts are full
//! - `action`: what a session wants done
//! - `answer`: what the owner answers to the requests that were passed up
//! - `calling`: a list of calls
//! - `conversation`: what a session remembers beside its accounts and untreated octets
//! - `fault`: why a call is refused
//! - `front`: what the untreated octets begin with
//! - `laws`: laws of sessions
//! - `numbers`: sequence numbers that wait for their answers
//! - `password`: passwords, as they are or as what was made of them
//! - `patience`: how long an endpoint is waited for (7.2)
//! - `session`: the session and its calls
//! - `table`: what becomes of a command by the state (2.2, 2.3)
//! - `turn`: what a session is and gives, PDU by PDU
#![tactic(auto)]

mod accepting;
mod account;
mod action;
mod answer;
mod calling;
mod conversation;
mod fault;
mod front;
pub mod laws;
mod numbers;
mod password;
pub mod patience;
mod session;
mod table;
mod turn;

pub use account::{Account, Accounts, FullAccounts};
pub use action::{Action, Actions, BindKind, Fed};
pub use answer::{Answer, Request};
pub use calling::{Call, run};
pub use conversation::SessionState;
pub use fault::DeliverFault;
pub use password::{Password, digest_of};
pub use session::{Outgoing, Session};
