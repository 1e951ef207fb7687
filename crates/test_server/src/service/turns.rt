//! A service, what happens to it, and its replies.
use crate::clock_and_gate::Open;
use crate::rows::turn_holds;
use crate::service::asks::{Request, job, ticks};
use crate::service::centre::{account, accounts, keep};
use crate::service::store::{Limits, Store};
use crate::service::telling::{To, is_item};
use sms_centre_spec::jobs::{Job, Reply};
use sms_keeper::{Errand, Fate, Machine, Step, Stimulus};
use smsc_service::{Cutoff, Forgetting, NoArchive, OrderDesk, Service, serve_with};
use std::alloc::Global;
use std::cell::Cell;
use std::sync::Arc;
use std::test::Fail;

/// What the seat asks, what befalls it, and who is told what, in order.
#[derive(Clone, Copy)]
pub(crate) struct Asked(
    pub(crate) usize,
    pub(crate) Request,
    pub(crate) Fate,
    pub(crate) &'static [To],
);

/// A turn of a course.
#[derive(Clone, Copy)]
pub(crate) enum Turn {
    /// What the seat asks in a group of its own, what befalls it, and who is told what, in order.
    Job(usize, Request, Fate, &'static [To]),
    /// What seats ask in one group.
    Group(&'static [Asked]),
    /// The account app2 comes, and seats ask this in the same group.
    Comes(&'static [Asked]),
    /// The clock shows so many seconds after the start: what befalls that, and who is told what.
    Tick(u32, Fate, &'static [To]),
    /// The store takes so many commits more.
    Commits(u32),
    /// The store gives so many bodies more.
    Bodies(u32),
    /// The service starts again with the rows of its store.
    Reopens,
    /// From now on it is too late to begin anything.
    IsTooLate,
}

/// A course: its name, and its turns.
pub(crate) type Course = (&'static str, &'static [Turn]);

fn meets(
    service: &mut Service<Store<'_>, NoArchive>,
    stimulus: Option<Stimulus<Job>>,
    fate: Fate,
    told: &[To],
) -> bool {
    let Some(stimulus) = stimulus else {
        return false;
    };
    let step = service.step(&stimulus);
    let is_committed = step.fate != Fate::Refused && service.settle(&Open).is_ok();
    is_item(&step, is_committed, fate, told)
}

fn asks(alloc: Global, seat: usize, asked: &Request) -> Option<Stimulus<Job>> {
    Some(Stimulus::Job(seat, job(alloc, asked)?))
}

// The steps of a group, in order.
fn steps_of(
    alloc: Global,
    service: &mut Service<Store<'_>, NoArchive>,
    group: &[Asked],
) -> Option<Vec<Step<Reply>>> {
    let mut steps = Vec::new(alloc);
    for Asked(seat, asked, _, _) in group {
        let stimulus = asks(alloc, *seat, asked)?;
        steps.push(service.step(&stimulus)).ok()?;
    }
    Some(steps)
}

// The account app2 comes, and nobody hears of it.
fn comes(alloc: Global, service: &mut Service<Store<'_>, NoArchive>) -> bool {
    let Some(other) = account(alloc, "app2", "447700900002") else {
        return false;
    };
    let step = service.step(&Stimulus::Own(Errand::Enrol(other)));
    step.fate == Fate::Done && step.outs.is_empty() && step.if_refused.is_empty()
}

// Whether each item of the group is as told, once it is committed or refused.
fn are_met(
    service: &mut Service<Store<'_>, NoArchive>,
    steps: &[Step<Reply>],
    group: &[Asked],
) -> bool {
    let is_refused = steps.iter().any(|step| step.fate == Fate::Refused);
    let is_committed = !is_refused && service.settle(&Open).is_ok();
    for (step, Asked(_, _, fate, told)) in steps.iter().zip(group.iter()) {
        if !is_item(step, is_committed, *fate, told) {
            return false;
        }
    }
    true
}

fn meets_all(alloc: Global, service: &mut Service<Store<'_>, NoArchive>, group: &[Asked]) -> bool {
    match steps_of(alloc, service, group) {
        Some(steps) => are_met(service, steps.as_slice(), group),
        None => false,
    }
}

fn sets(limit: &Cell<u32>, count: u32) -> bool {
    limit.set(count);
    true
}

fn passes(cutoff: &Cutoff) -> bool {
    cutoff.pass();
    true
}

fn take_turn(
    alloc: Global,
    service: &mut Service<Store<'_>, NoArchive>,
    limits: &Limits,
    cutoff: &Cutoff,
    turn: &Turn,
) -> bool {
    match turn {
        Turn::Job(seat, asked, fate, told) => {
            meets(service, asks(alloc, *seat, asked), *fate, told)
        }
        Turn::Group(group) => meets_all(alloc, service, group),
        Turn::Comes(group) => comes(alloc, service) && meets_all(alloc, service, group),
        Turn::Tick(seconds, fate, told) => meets(service, ticks(*seconds), *fate, told),
        Turn::Commits(count) => sets(&limits.commits, *count),
        Turn::Bodies(count) => sets(&limits.bodies, *count),
        Turn::Reopens => service.reopen().is_ok(),
        Turn::IsTooLate => passes(cutoff),
    }
}

fn go(
    alloc: Global,
    service: &mut Service<Store<'_>, NoArchive>,
    limits: &Limits,
    cutoff: &Cutoff,
    course: &Course,
) -> Result<(), Fail> {
    let (name, turns) = course;
    for (at, turn) in turns.iter().enumerate() {
        turn_holds(take_turn(alloc, service, limits, cutoff, turn), name, at)?;
    }
    Ok(())
}

/// Each turn of the course is as told, over a store of a centre that has no message yet.
pub(crate) fn plays(alloc: Global, course: &Course) -> Result<(), Fail> {
    let limits = Limits::none();
    let all = accounts(alloc)?;
    let store = Store::new(keep(alloc)?, &limits);
    let Ok(cutoff) = Arc::new(alloc, Cutoff::new()) else {
        return Err(Fail::new("a cutoff"));
    };
    let Ok(desk) = Arc::new(alloc, OrderDesk::new()) else {
        return Err(Fail::new("a desk"));
    };
    let forgetting = Forgetting {
        keep: None,
        archive: NoArchive,
    };
    let served = serve_with(
        alloc,
        store,
        all,
        None,
        &cutoff,
        &desk,
        forgetting,
        |service| go(alloc, service, &limits, &cutoff, course),
    );
    match served {
        Ok((went, store, _)) => {
            drop(store);
            went
        }
        Err(_) => Err(Fail::new("the service starts")),
    }
}
