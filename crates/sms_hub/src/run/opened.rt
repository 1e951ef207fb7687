//! A hub with the threads of its sessions.
use super::threads::SessionThread;
use sms_keeper::Keeper;
use std::alloc::Global;
use std::sync::Arc;
use std::sync::atomic::AtomicBool;

/// A keeper with the threads of its sessions, which give up once `over` is set.
pub struct Opened<J, O> {
    pub keeper: Keeper<J, O>,
    pub over: Arc<AtomicBool, Global>,
    pub threads: Vec<SessionThread<J, O>>,
}
