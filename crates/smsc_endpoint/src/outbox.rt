//! What waits to be sent and to be put.
ghost use Rattle.std.specs.Prelude.{◌≡◌, OnOk};
ghost use Rattle.smsc_endpoint.specs.Outbox.{nothing_waits, with_octets, without_octets, closed, with_job, with_next, next_of};
ghost use Rattle.smsc_endpoint.specs.Outbox.{requests_among, is_request_first, is_any};

use bytes::{Buf, BytesMut};
use sms_centre_spec::jobs::Job;
use std::alloc::{AllocError, Global};
use std::collections::VecDeque;
use std::marker::Model;

/// Octets to send and jobs to put, each in their order. Contracts see how many jobs have an answer by the jobs.
#[derive(Drop)]
pub(crate) struct Outbox {
    octets: BytesMut,
    jobs: VecDeque<Job>,
    // How many of the jobs have an answer.
    requests: usize,
    // No octets are taken any more.
    is_closed: bool,
}

impl Model for Outbox {
    ghost use Rattle.std.specs.Prelude.{◌≡◌};
    ghost use Rattle.smsc_endpoint.specs.Outbox.{OutboxView, requests_among};

    ghost Value = { OutboxView };

    ghost view = { λ o. record { octets = o.octets.items; jobs = o.jobs.items; is_closed = o.is_closed } };

    ghost invariant = { λ o. o.requests ≡ requests_among o.jobs.items };
}

impl Outbox {
    pub(crate) fn new(alloc: Global) -> Outbox
        ensures { result ≡ nothing_waits }
    {
        Outbox {
            octets: BytesMut::new(alloc),
            jobs: VecDeque::new(alloc),
            requests: 0,
            is_closed: false,
        }
    }

    pub(crate) fn send(&mut self, octets: &[u8]) -> Result<(), AllocError>
        ensures { OnOk result (self.new ≡ with_octets octets.now self.old) }
    {
        if self.is_closed {
            return Ok(());
        }
        self.octets.extend_from_slice(octets)
    }

    pub(crate) fn put(&mut self, job: Job) -> Result<(), AllocError>
        ensures { OnOk result (self.new ≡ with_job job self.old) }
    {
        let is_request = job.is_request();
        self.jobs.push_back(job)?;
        if is_request {
            self.requests = self.requests.saturating_add(1);
        }
        Ok(())
    }

    pub(crate) fn octets(&self) -> &[u8]
        ensures { result.now ≡ self.now.octets }
    {
        self.octets.as_slice()
    }

    pub(crate) fn sent(&mut self, count: usize)
        ensures { self.new ≡ without_octets count self.old }
    {
        if count <= self.octets.len() {
            self.octets.advance(count);
        }
    }

    /// No octets are sent any more.
    pub(crate) fn close(&mut self)
        ensures { self.new ≡ closed self.old }
    {
        let len = self.octets.len();
        self.octets.advance(len);
        self.is_closed = true;
    }

    // Whether the next job has an answer.
    pub(crate) fn is_request_next(&self) -> bool
        ensures { result ≡ is_request_first self.now.jobs }
    {
        match self.jobs.front() {
            Some(job) => job.is_request(),
            None => false,
        }
    }

    pub(crate) fn next_job(&mut self) -> Option<Job>
        ensures { (result, self.new) ≡ next_of self.old }
    {
        let job = self.jobs.pop_front()?;
        if job.is_request() {
            self.requests = self.requests.saturating_sub(1);
        }
        Some(job)
    }

    // How many jobs have an answer.
    pub(crate) fn requests(&self) -> usize
        ensures { result ≡ requests_among self.now.jobs }
    {
        self.requests
    }

    // The job is the next again.
    pub(crate) fn put_back(&mut self, job: Job) -> Result<(), AllocError>
        ensures { OnOk result (self.new ≡ with_next job self.old) }
    {
        let is_request = job.is_request();
        self.jobs.push_front(job)?;
        if is_request {
            self.requests = self.requests.saturating_add(1);
        }
        Ok(())
    }

    pub(crate) fn has_jobs(&self) -> bool
        ensures { result ≡ is_any self.now.jobs }
    {
        !self.jobs.is_empty()
    }
}
