//! The last ten minutes, a second each.
ghost use Rattle.std.specs.Prelude.{◌≡◌, IfOk};
ghost use Rattle.smsc_status.specs.Series.{after_second, commits_a_second as commits_a_second_of, commits_in, counted_as, no_seconds, since as since_count};

use crate::figures::{MessageCounts, Sample};
use circular_buffer::HeapCircularBuffer;
use std::alloc::{AllocError, Global};
use std::marker::Model;

/// So many seconds are kept.
pub const SECONDS: usize = 600;

/// What was counted so far, and what happened in each of the last seconds. Contracts see both.
#[derive(Drop)]
pub struct Series {
    samples: HeapCircularBuffer<Sample>,
    // What was counted when the last second ended.
    last: Sample,
}

impl Model for Series {
    ghost use Rattle.std.specs.Prelude.{◌≡◌};
    ghost use Rattle.smsc_status.specs.Series.{SecondsOf};

    ghost Value = { SecondsOf };

    ghost view = { λ s. record { samples = s.samples.items; last = s.last } };

    ghost invariant = { λ s. s.samples.capacity ≡ 600 };
}

// What is counted now.
fn counted(counts: &MessageCounts, commits: u64) -> Sample
    ensures { result ≡ counted_as counts.now commits }
{
    Sample {
        submissions: counts.accepted,
        deliveries: counts.delivered,
        commits,
    }
}

// What happened between two counts.
fn since(last: &Sample, now: &Sample) -> Sample
    ensures { result ≡ since_count last.now now.now }
{
    Sample {
        submissions: now.submissions.saturating_sub(last.submissions),
        deliveries: now.deliveries.saturating_sub(last.deliveries),
        commits: now.commits.saturating_sub(last.commits),
    }
}

impl Series {
    /// Nothing has happened. It has all of its memory from now on.
    pub fn new(alloc: Global) -> Result<Series, AllocError>
        ensures { IfOk result (λ series. series ≡ no_seconds) }
    {
        let samples = HeapCircularBuffer::with_capacity(alloc, SECONDS)?;
        Ok(Series {
            samples,
            last: Sample {
                submissions: 0,
                deliveries: 0,
                commits: 0,
            },
        })
    }

    /// A second has ended, and so much is counted now. The last 600 seconds are kept.
    pub fn end_second(&mut self, counts: &MessageCounts, commits: u64)
        ensures { self.new ≡ after_second counts.now commits self.old }
    {
        let now = counted(counts, commits);
        let sample = since(&self.last, &now);
        self.last = now;
        let _ = self.samples.push_back(sample);
    }

    /// The seconds, the oldest first, in memory of their own.
    pub fn samples(&self, alloc: Global) -> Result<Vec<Sample>, AllocError>
        ensures { IfOk result (λ samples. samples.items ≡ self.now.samples) }
    {
        self.samples.to_vec(alloc)
    }
}

// How many commits there were within all of these seconds.
#[tactic(auto, using(crate::proofs::Counts::one_more_commit))]
fn commits_within(samples: &[Sample]) -> u64
    ensures { result ≡ commits_in samples.now }
{
    let mut commits = 0u64;
    for sample in samples {
        commits = commits.saturating_add(sample.commits);
    }
    commits
}

/// How many commits a second there were in the last seconds, ten at most.
pub(crate) fn commits_a_second(samples: &[Sample]) -> u64
    ensures { result ≡ commits_a_second_of samples.now }
{
    let last = &samples[samples.len().saturating_sub(10)..];
    commits_within(last) / (last.len() as u64).max(1)
}
