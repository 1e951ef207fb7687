//! What a recorder is told.
use crate::examples::LEAP_DAY;
use crate::hub::reply::Reply;
use sms_hub::{Fate, Item, Recorder, Stimulus};
use std::alloc::Global;

/// An item of the history.
#[derive(Clone, Copy, PartialEq, Eq)]
pub enum Event {
    /// A tick so many seconds after the leap day's moment.
    Tick(u64),
    Job,
    Errand,
}

/// What it was told: the items in order, what became of the jobs, and how large the groups were.
#[derive(Drop)]
pub struct Told {
    pub events: Vec<Event>,
    pub jobs: usize,
    /// What the items gave, counted.
    pub outs: usize,
    /// The jobs that were refused, added up, and how many they were.
    pub missing: u64,
    pub refused: usize,
    pub groups: Vec<usize>,
    pub reopened: usize,
    /// How often the machine could not be opened again.
    pub failed: usize,
}

impl Told {
    /// Nothing yet.
    pub fn new(alloc: Global) -> Told {
        Told {
            events: Vec::new(alloc),
            jobs: 0,
            outs: 0,
            missing: 0,
            refused: 0,
            groups: Vec::new(alloc),
            reopened: 0,
            failed: 0,
        }
    }

    // Without memory an event is missing, which the tests see.
    fn note(&mut self, event: Event) {
        let _noted = self.events.push(event);
    }

    fn note_job(&mut self, job: u32, fate: Fate) {
        self.jobs = self.jobs.wrapping_add(1);
        self.note(Event::Job);
        if let Fate::Refused = fate {
            self.missing = self.missing.wrapping_add(u64::from(job));
            self.refused = self.refused.wrapping_add(1);
        }
    }
}

impl Recorder<u32, Reply> for Told {
    ghost use Rattle.std.specs.Prelude.{⊤};

    ghost has = { λ told items. ⊤ };

    fn record(&mut self, item: &Item<u32, Reply>) {
        self.outs = self.outs.wrapping_add(item.outs.len());
        match &item.stimulus {
            Stimulus::Job(_, job) => self.note_job(*job, item.fate),
            Stimulus::Tick(moment) => {
                self.note(Event::Tick(moment.seconds().saturating_sub(LEAP_DAY)));
            }
            Stimulus::Own(_) => self.note(Event::Errand),
        }
    }

    fn end_group(&mut self, count: usize) {
        let _noted = self.groups.push(count);
    }

    fn reopened(&mut self) {
        self.reopened = self.reopened.wrapping_add(1);
    }

    fn failed(&mut self) {
        self.failed = self.failed.wrapping_add(1);
    }
}
