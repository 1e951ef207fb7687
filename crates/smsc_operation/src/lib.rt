//! What the operator of a centre sees of it and keeps of it: its log, its archive, its store's files, and why a run ended early.
//!
//! `open_store` judges the two files of a store and opens the database in them; `leave_after` leaves them whole. `LoadedKeep` reads a store once as a
//! run starts. `Log` writes a run's lines in a thread of its own, `Access` a line for each message that ends, `RunArchive` a line for each that a run
//! forgets. A look, a copy, and what is stuck change nothing. What a keep has that was read, and which lines an archive keeps, has clauses. Else few of
//! what is written and read here have any: tests run by hand try it (docs/WRONG-BODIES.md). The crate stands on the centre and the store, and on no
//! server. So it is proved beside the server.
//!
//! - `access`: the access log
//! - `account_file`: the accounts that a file spells
//! - `account_names`: the names of a run's accounts
//! - `archive`: the file to which a run writes what it forgets
//! - `copied_log`: the log of a copy, which somebody may have written meanwhile
//! - `feed`: what the threads of a run give to the thread of its status page
//! - `gone`: how many messages a run has forgotten
//! - `ledger`: a file of lines that grows at its end
//! - `lines`: the lines of the log
//! - `link_secrets`: the secrets of links, from their file
//! - `loaded_keep`: a store that is read once as a run starts
//! - `logged_archive`: the archive of a run, of which the log says how many messages went
//! - `logging`: the log, which a thread of its own writes
//! - `looking`: a look at a store, which changes nothing
//! - `moments`: moments of this machine's clock, and their text
//! - `opening`: how a run opens its store, and why it can't
//! - `password`: what is written of a password
//! - `preparing`: how both files are made ready before a run, and left after it
//! - `readiness`: the lines to the manager of services, that the server listens and that it begins to end
//! - `run_fault`: why a run ended early
//! - `saving`: a copy of a store
//! - `store_files`: the two files of a store as the system has them
//! - `stuck`: what waits in a store, by handset
//! - `summary`: what a store holds as a run starts
#![tactic(auto)]

pub mod access;
pub mod account_file;
pub mod account_names;
pub mod archive;
mod copied_log;
pub mod feed;
pub mod gone;
pub mod ledger;
pub mod lines;
pub mod link_secrets;
pub mod loaded_keep;
pub mod logged_archive;
pub mod logging;
pub mod looking;
pub mod moments;
pub mod opening;
pub mod password;
pub mod preparing;
pub mod readiness;
pub mod run_fault;
pub mod saving;
pub mod store_files;
mod stuck;
pub mod summary;
