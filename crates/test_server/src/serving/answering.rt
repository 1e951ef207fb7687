//! A machine that counts what seats ask, answers each request, and sends a frame for each link that is up and for each
//! frame. It may refuse, from one of its groups on.
use smpp_pdu::CommandStatus;
use sms_base::{Moment, Octets};
use sms_centre_spec::CentreAnswer;
use sms_centre_spec::jobs::{Job, Reply};
use sms_keeper::{Broken, Errand, Fate, Gate, Machine, Out, Outs, Step, Stimulus, Unsettled};
use sms_receipt::Final;
use std::alloc::Global;

/// The frame that a link is sent: CP-DATA with an RP-DATA of `hello`. Its octets are not looked at.
pub(crate) const FRAME: &[u8] =
    b"\x09\x01\x24\x01\x00\x07\x91\x44\x77\x00\x09\x00\x00\x00\x18\x24\x0C\x91\x44\x77\x00\x09\x10\x00\x00\x00\x42\x20\x92\x32\x95\x85\x00\x05\xE8\x32\x9B\xFD\x06";

/// What was asked at a seat, by kind.
#[derive(Drop)]
pub(crate) struct Tally {
    pub(crate) bound: u32,
    pub(crate) unbound: u32,
    pub(crate) submitted: u32,
    pub(crate) up: u32,
    pub(crate) down: u32,
}

/// The counter promises nothing of what it gives: tests look at its counts.
#[derive(Drop)]
pub(crate) struct Counter {
    alloc: Global,
    /// Each session that is bound is given this receipt.
    pub(crate) receipt: Option<Final>,
    /// How many groups it commits. It refuses the next one, and can't be opened again then.
    pub(crate) commits: u32,
    /// So many times it says that somebody is at a seat still, when the loop asks behind the jobs of an endpoint.
    pub(crate) stays: u32,
    pub(crate) first: Tally,
    pub(crate) second: Tally,
}

impl Tally {
    fn new() -> Tally {
        Tally {
            bound: 0,
            unbound: 0,
            submitted: 0,
            up: 0,
            down: 0,
        }
    }

    fn count(&mut self, job: &Job) {
        match job {
            Job::Bound { .. } => self.bound = self.bound.saturating_add(1),
            Job::Unbound => self.unbound = self.unbound.saturating_add(1),
            Job::Submit { .. } => self.submitted = self.submitted.saturating_add(1),
            Job::LinkUp { .. } => self.up = self.up.saturating_add(1),
            Job::LinkDown => self.down = self.down.saturating_add(1),
            _ => (),
        }
    }
}

fn answer(seat: usize, status: CommandStatus) -> Outs<Reply> {
    Outs::one(Out {
        seat,
        out: Reply::Answer(CentreAnswer::Refused(status)),
    })
}

fn gives(outs: Outs<Reply>, if_refused: Outs<Reply>) -> Step<Reply> {
    Step {
        fate: Fate::Done,
        outs,
        if_refused,
    }
}

// What becomes of a job that is refused. The loop's own request is told that nobody is at the seat: who leaves has left then, too.
fn refused(seat: usize, job: &Job) -> Outs<Reply> {
    match job {
        Job::Query { .. } => answer(seat, CommandStatus::ESME_RINVMSGID),
        job if job.is_request() => answer(seat, CommandStatus::ESME_RSYSERR),
        _ => Outs::none(),
    }
}

// A frame. Without memory none goes.
fn framed(alloc: Global, seat: usize) -> Outs<Reply> {
    match Octets::copy_of(alloc, FRAME) {
        Ok(octets) => Outs::one(Out {
            seat,
            out: Reply::Frame(octets),
        }),
        Err(_) => Outs::none(),
    }
}

fn told(seat: usize, end: &Option<Final>) -> Outs<Reply> {
    match end {
        Some(end) => Outs::one(Out {
            seat,
            out: Reply::Receipt(*end),
        }),
        None => Outs::none(),
    }
}

// What becomes of a job.
fn done(alloc: Global, seat: usize, job: &Job, end: Option<Final>) -> Outs<Reply> {
    match job {
        Job::Bound { .. } => told(seat, &end),
        Job::LinkUp { .. } | Job::Frame { .. } => framed(alloc, seat),
        job if job.is_request() => answer(seat, CommandStatus::ESME_RSYSERR),
        _ => Outs::none(),
    }
}

impl Counter {
    pub(crate) fn new(alloc: Global) -> Counter {
        Counter {
            alloc,
            receipt: None,
            commits: u32::MAX,
            stays: 0,
            first: Tally::new(),
            second: Tally::new(),
        }
    }

    // The loop asks so behind the jobs of an endpoint.
    fn says_who_stays(&mut self, seat: usize) -> Outs<Reply> {
        match self.stays.checked_sub(1) {
            Some(stays) => {
                self.stays = stays;
                answer(seat, CommandStatus::ESME_RSYSERR)
            }
            None => answer(seat, CommandStatus::ESME_RINVMSGID),
        }
    }

    fn does(&mut self, seat: usize, job: &Job) -> Outs<Reply> {
        match job {
            Job::Query { .. } => self.says_who_stays(seat),
            job => done(self.alloc, seat, job, self.receipt),
        }
    }

    fn count(&mut self, seat: usize, job: &Job) {
        match seat {
            0 => self.first.count(job),
            _ => self.second.count(job),
        }
    }
}

impl Machine<Job, Reply> for Counter {
    ghost use Rattle.std.specs.Prelude.{⊤, []};

    type State = ();

    ghost stands = { λ m s r. ⊤ };

    ghost resumes = { λ m s. ⊤ };

    ghost fails_as = { λ m s. ⊤ };

    ghost is_honest = { λ m. ⊥ };

    ghost is_broken = { λ m. ⊤ };

    ghost refuses = { λ before after. ⊤ };

    ghost gives = { λ s stimulus fate. [] };

    ghost after = { λ s stimulus fate. s };

    fn errand(&self, _now: Moment) -> Option<Errand> {
        None
    }

    fn step(&mut self, stimulus: &Stimulus<Job>) -> Step<Reply> {
        match stimulus {
            Stimulus::Tick(_) | Stimulus::Own(_) => gives(Outs::none(), Outs::none()),
            Stimulus::Job(seat, job) => {
                self.count(*seat, job);
                gives(self.does(*seat, job), refused(*seat, job))
            }
        }
    }

    fn settle<G: Gate>(&mut self, gate: &G) -> Result<(), Unsettled> {
        gate.pass();
        let Some(commits) = self.commits.checked_sub(1) else {
            return Err(Unsettled);
        };
        self.commits = commits;
        Ok(())
    }

    fn reopen(&mut self) -> Result<(), Broken> {
        Err(Broken)
    }

    fn refuse(&mut self, stimulus: &Stimulus<Job>) -> Outs<Reply> {
        match stimulus {
            Stimulus::Tick(_) | Stimulus::Own(_) => Outs::none(),
            Stimulus::Job(seat, job) => {
                self.count(*seat, job);
                refused(*seat, job)
            }
        }
    }
}
