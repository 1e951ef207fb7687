//! A machine that adds up the jobs.
ghost use Rattle.std.specs.Prelude.{◌≡◌, ◌==◌, if◌then◌else◌, [], ◌∷◌};

use crate::hub::reply::Reply;
use sms_base::{MessageId, Moment};
use sms_hub::{Broken, Clock, Errand, Fate, Gate, Machine, Out, Outs, Step, Stimulus, Unsettled};

/// Adds up the jobs and answers each but 0 with the sum so far. Refuses one job, or the commit of the group that has it, by
/// its place from 1, and forgets its sum then.
#[derive(Drop)]
pub struct Counter {
    pub sum: u64,
    /// What its store holds.
    pub kept: u64,
    pub jobs: u64,
    /// The place of the job that it refuses, or 0.
    pub refuses: u64,
    /// The place of the job with whose group it refuses the commit, or 0.
    pub refuses_commit: u64,
    /// Whether its store can be read again.
    pub opens: bool,
    pub opened: u64,
    pub broken: bool,
    /// So many errands it has still.
    pub errands: u64,
}

impl Counter {
    pub fn new(refuses: u64, opens: bool) -> Counter {
        Counter {
            sum: 0,
            kept: 0,
            jobs: 0,
            refuses,
            refuses_commit: 0,
            opens,
            opened: 0,
            broken: false,
            errands: 0,
        }
    }
}

impl Counter {
    ghost use Rattle.std.specs.Prelude.{◌≡◌, ◌+◌, ◌%◌, ◌^◌};
    ghost use Rattle.sms_keeper.specs.declared.machine.Fate.TheVariants.{Refused};
    ghost use Rattle.sms_keeper.specs.declared.machine.Stimulus.TheVariants.{Job};
    ghost use Rattle.sms_keeper.specs.Fates.{MatchFate};
    ghost use Rattle.test_formats.specs.hub.Counting.{sum_after, sums_given};

    // Adds a job up, or refuses it. Its store holds what it held.
    fn add(&mut self, seat: usize, job: u32) -> Step<Reply>
        ensures outs { result.outs ≡ sums_given self.old.sum (Job seat job) result.fate }
        ensures if_refused { result.if_refused ≡ sums_given self.old.kept (Job seat job) Refused }
        ensures after { MatchFate result.fate (self.new.sum ≡ sum_after self.old.sum (Job seat job) result.fate) (Unit {0}) }
        ensures kept { self.new.kept ≡ self.old.kept }
    {
        self.jobs = self.jobs.wrapping_add(1);
        if self.jobs == self.refuses {
            self.sum = 1000;
            return Step {
                fate: Fate::Refused,
                outs: answer(seat, Reply::Failed),
                if_refused: answer(seat, Reply::Failed),
            };
        }
        self.sum = self.sum.wrapping_add(u64::from(job));
        Step {
            fate: Fate::Done,
            outs: told(seat, job, self.sum),
            if_refused: answer(seat, Reply::Failed),
        }
    }
}

fn answer(seat: usize, reply: Reply) -> Outs<Reply>
    ensures { result ≡ record { seat = seat; out = reply } ∷ [] }
{
    Outs::one(Out { seat, out: reply })
}

fn told(seat: usize, job: u32, sum: u64) -> Outs<Reply>
    ensures { result ≡ (if job == 0 then [] else record { seat = seat; out = Reply.Sum sum } ∷ []) }
{
    if job == 0 {
        Outs::none()
    } else {
        answer(seat, Reply::Sum(sum))
    }
}

impl Machine<u32, Reply> for Counter {
    ghost use Rattle.std.specs.Prelude.{◌≡◌, true, ⊤};
    ghost use Rattle.test_formats.specs.hub.Counting.{sum_after, sums_given};

    type State = u64;

    ghost stands = { λ m s r. (m.sum ≡ s) × (m.kept ≡ r) };

    ghost resumes = { λ m s. m.kept ≡ s };

    ghost fails_as = { λ m s. m.kept ≡ s };

    ghost is_honest = { λ m. ⊤ };

    ghost is_broken = { λ m. m.broken ≡ true };

    ghost refuses = { λ before after. ⊤ };

    ghost gives = { sums_given };

    ghost after = { sum_after };

    fn errand(&self, _now: Moment) -> Option<Errand> {
        if self.errands == 0 {
            return None;
        }
        Some(Errand::Retry(MessageId::new(1)?))
    }

    fn step(&mut self, stimulus: &Stimulus<u32>) -> Step<Reply> {
        match stimulus {
            Stimulus::Tick(_) => Step {
                fate: Fate::Done,
                outs: Outs::none(),
                if_refused: Outs::none(),
            },
            Stimulus::Own(_) => {
                self.errands = self.errands.saturating_sub(1);
                Step {
                    fate: Fate::Done,
                    outs: Outs::none(),
                    if_refused: Outs::none(),
                }
            }
            Stimulus::Job(seat, job) => self.add(*seat, *job),
        }
    }

    fn settle<G: Gate>(&mut self, gate: &G) -> Result<(), Unsettled> {
        gate.pass();
        if self.refuses_commit != 0 && self.refuses_commit <= self.jobs {
            self.refuses_commit = 0;
            self.sum = 1000;
            return Err(Unsettled);
        }
        self.kept = self.sum;
        Ok(())
    }

    fn reopen(&mut self) -> Result<(), Broken> {
        if !self.opens {
            self.broken = true;
            return Err(Broken);
        }
        self.sum = self.kept;
        self.opened = self.opened.wrapping_add(1);
        self.broken = false;
        Ok(())
    }

    fn refuse(&mut self, stimulus: &Stimulus<u32>) -> Outs<Reply> {
        match stimulus {
            Stimulus::Job(seat, _) => answer(*seat, Reply::Failed),
            Stimulus::Tick(_) | Stimulus::Own(_) => Outs::none(),
        }
    }
}

/// A clock that always shows one moment.
#[derive(Clone, Copy)]
pub struct Still(pub Moment);

impl Clock for Still {
    ghost use Rattle.std.specs.Prelude.{◌≡◌};

    ghost reads = { λ c m. m ≡ c.0 };

    fn now(&self) -> Moment {
        self.0
    }
}

/// A gate that is open.
#[derive(Clone, Copy)]
pub struct Open;

impl Gate for Open {
    fn pass(&self) {}
}
