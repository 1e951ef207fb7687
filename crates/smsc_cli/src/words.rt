//! The words of the programs.
//!
//! `handset_words` reads the words of `handset`, `misbehaviour_words` what they ask it to do wrong, `server_words` those of
//! `smscd`, and `sim_words` those of a relay run of `smsim`. Each value is the one that clap's matches have for its option,
//! and spells what it is said to spell; all else is bad words. `why_no_server_words` and the like say of bad words which one
//! is wrong, and what was wanted. `about_of` knows `--help` and `--version` of all three. `add_lines` reads accounts from a
//! file, so that no password has to be among the words. `add_secret_lines` and
//! `secret_in` read the secrets of links.

mod about;
mod account;
mod account_tables;
mod accounts;
mod address;
mod detail;
mod explaining;
mod fault;
mod handset;
mod look;
mod misbehaviour;
mod number;
mod option;
mod refused;
mod secrets;
mod server;
mod several;
mod sim;

pub use about::{About, VERSION, about_of};
pub use account::{AccountWords, account_of};
pub use account_tables::{
    PasswordWords, SourceWords, TableAccount, TableFault, add_tables, source_of,
};
pub use accounts::{FileFault, add_lines};
pub use address::own_address;
pub use detail::LogDetail;
pub use fault::WordsFault;
pub use handset::{HandsetWords, handset_words};
pub use misbehaviour::{Misbehaviour, Refusal, misbehaviour_words};
pub use refused::{why_no_handset_words, why_no_server_words, why_no_sim_words};
pub use secrets::{SecretWords, add_secret_lines, secret_in};
pub use server::{OrderWord, ServerRun, ServerWords, server_words};
pub use sim::{SimWords, sim_words};
