//! Law: no request of a script is answered ESME_RSYSERR.
//!
//! The centre answers so a request of an application that it can't assign to any account (SMPP v3.4 5.1.3). By
//! `sms_play`'s definition no script leads there. Its requests name accounts of its head, and no check of a submit_sm,
//! a query_sm or a cancel_sm answers so. This module has a law and no code.

pub mod laws;
