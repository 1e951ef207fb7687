//! A run of up to 32 sessions.
ghost use Rattle.std.specs.Prelude.{◌≡◌, ◌++◌, ◌∷◌, ◌≤◌, ℕ, List, [], ⊤, true, length, IfOk, IfErr, IfSome, OnOk};
ghost use Rattle.sms_hub.specs.Faults.{IsTooMany, MatchFault};
ghost use Rattle.sms_keeper.specs.declared.machine.Item.{Item};
ghost use Rattle.sms_keeper.specs.Groups.{Between};
ghost use Rattle.sms_keeper.specs.History.{answers_in, each_seat, for_seat, jobs_of, work};
ghost use Rattle.sms_seats.specs.Jobs.{of, has_end};
ghost use Rattle.sms_keeper.specs.Keeping.{given_by, ran_by, seats_of, IsClosed};
ghost use Rattle.sms_hub.specs.Running.{AreAt, IsOpened, SessionsRan, jobs_for, lists_of};
ghost use Rattle.sms_seats.specs.Seats.{number_of};
ghost use Rattle.sms_keeper.specs.Seating.{IsAll, IsSeatOf, IsUnchanged};

use super::opened::Opened;
use super::threads::{SessionThread, settle, start};
use crate::hub_fault::HubFault;
use crate::terms::run_terms;
use sms_keeper::{Clock, Gate, Keeper, Machine, Recorder};
use std::alloc::{AllocError, Global};
use std::sync::atomic::{AtomicBool, Ordering};
use std::sync::{Arc, Wait};
use std::thread::Threads;

// Tells the sessions that the keeper has ended, and waits for their threads.
fn give_up<J: Drop, O: Drop, R: Threads>(
    rt: &R,
    over: &AtomicBool,
    threads: Vec<SessionThread<J, O>>,
) {
    over.store(true, Ordering::SeqCst);
    for thread in threads {
        thread.join(rt);
    }
}

// Makes one more seat, and starts its session.
fn open_session<
    J: Drop + Send + 'static,
    O: Drop + Send + 'static,
    R: Threads + Wait + Copy + Send + 'static,
>(rt: R, alloc: Global, opened: &mut Opened<J, O>, jobs: Vec<J>) -> Result<(), HubFault>
    ensures opened { OnOk result (IsOpened opened.old → IsOpened opened.new) }
    ensures jobs { OnOk result (jobs_for opened.new.threads.items ≡ jobs_for opened.old.threads.items ++ jobs.items ∷ []) }
    ensures fault { IfErr result (λ fault. MatchFault fault ⊤ ⊤ ⊥ ⊥) }
{
    opened.threads.reserve(1)?;
    let over = Arc::try_clone(&opened.over)?;
    let seat = opened.keeper.add_seat(alloc)?;
    let thread = start(rt, alloc, over, seat, jobs)?;
    opened.threads.push_reserved(thread);
    Ok(())
}

// A hub with no session.
fn open_hub<J: Drop, O: Drop>(alloc: Global, slots: usize) -> Result<Opened<J, O>, AllocError>
    requires { 1 ≤ slots }
    ensures opened { IfOk result (λ r. IsOpened r) }
    ensures threads { IfOk result (λ r. r.threads.items ≡ []) }
{
    let keeper = Keeper::open(alloc, slots)?;
    let over = Arc::new(alloc, AtomicBool::new(false))?;
    Ok(Opened {
        keeper,
        over,
        threads: Vec::new(alloc),
    })
}

// Opens a hub and starts all sessions.
fn open_sessions<
    J: Drop + Send + 'static,
    O: Drop + Send + 'static,
    R: Threads + Wait + Copy + Send + 'static,
>(rt: R, alloc: Global, slots: usize, lists: Vec<Vec<J>>) -> Result<Opened<J, O>, HubFault>
    requires { 1 ≤ slots }
    ensures opened { IfOk result (λ r. IsOpened r) }
    ensures jobs { IfOk result (λ r. jobs_for r.threads.items ≡ lists_of lists.items) }
    ensures fault { IfErr result (λ fault. MatchFault fault ⊤ ⊤ ⊥ ⊥) }
{
    let mut opened = open_hub(alloc, slots)?;
    let mut fault = None;
    for jobs in lists {
        if fault.is_none() {
            if let Err(why) = open_session(rt, alloc, &mut opened, jobs) {
                fault = Some(why);
            }
        }
    }
    match fault {
        None => Ok(opened),
        Some(fault) => {
            let Opened {
                keeper: _,
                over,
                threads,
            } = opened;
            give_up(&rt, &over, threads);
            Err(fault)
        }
    }
}

// Waits for a session and puts its answers behind the others. False where memory ran out, or not all was put.
fn settle_next<J: Drop, O: Drop, R: Threads + Wait>(
    rt: &R,
    alloc: Global,
    keeper: &mut Keeper<J, O>,
    thread: SessionThread<J, O>,
    all: &mut Vec<Vec<O>>,
) -> bool
    requires { IsSeatOf keeper.old thread.promise.seat.value }
    ensures keeper { IsUnchanged keeper.old keeper.new }
    ensures answers { result ≡ true → lists_of all.new.items ≡ lists_of all.old.items ++ given_by keeper.old (number_of thread.promise.seat.value) ∷ [] }
    ensures jobs { result ≡ true → has_end (of (number_of thread.promise.seat.value) (ran_by keeper.old)) ≡ true
        → for_seat (number_of thread.promise.seat.value) (work (ran_by keeper.old)) ≡ thread.promise.jobs.value.items }
{
    let room = all.reserve(1).is_ok();
    match settle(rt, alloc, keeper, thread) {
        Some(answers) if room => {
            all.push_reserved(answers);
            true
        }
        _ => false,
    }
}

// Waits for all sessions and takes their seats back. None where memory ran out, or not all was put.
fn settle_all<J: Drop, O: Drop, R: Threads + Wait>(
    rt: &R,
    alloc: Global,
    keeper: &mut Keeper<J, O>,
    threads: Vec<SessionThread<J, O>>,
) -> Option<Vec<Vec<O>>>
    requires seats { AreAt keeper.old 0 threads.items }
    requires closed { IsClosed keeper.old }
    requires count { length threads.items ≡ seats_of keeper.old }
    ensures answers { IfSome result (λ all. lists_of all.items ≡ each_seat (length threads.items) (given_by keeper.old)) }
    ensures jobs { IfSome result (λ all. each_seat (length threads.items) (λ n. for_seat n (work (ran_by keeper.old))) ≡ jobs_for threads.items) }
{
    let mut all = Vec::new(alloc);
    let mut whole = true;
    for thread in threads {
        if !settle_next(rt, alloc, keeper, thread, &mut all) {
            whole = false;
        }
    }
    if whole { Some(all) } else { None }
}

// Puts together what the threads did.
fn conclude<J: Drop, O: Drop, R: Threads + Wait>(
    rt: &R,
    alloc: Global,
    keeper: Keeper<J, O>,
    threads: Vec<SessionThread<J, O>>,
) -> Result<Vec<Vec<O>>, HubFault>
    requires seats { AreAt keeper 0 threads.items }
    requires closed { IsClosed keeper }
    requires count { length threads.items ≡ seats_of keeper }
    // Whatever the keeper did.
    ensures jobs { IfOk result (λ answers. (items : List (Item J O)) → IsAll keeper items
        → each_seat (length threads.items) (λ n. jobs_of n items) ≡ jobs_for threads.items) }
    ensures others { IfOk result (λ answers. (items : List (Item J O)) → IsAll keeper items → (n : ℕ) → length threads.items ≤ n → jobs_of n items ≡ []) }
    ensures answers { IfOk result (λ answers. (items : List (Item J O)) → IsAll keeper items
        → lists_of answers.items ≡ each_seat (length threads.items) (λ n. answers_in n items)) }
    ensures fault { IfErr result (λ fault. MatchFault fault ⊥ ⊤ ⊥ ⊥) }
{
    let mut keeper = keeper;
    keeper.know_others();
    match settle_all(rt, alloc, &mut keeper, threads) {
        Some(answers) => Ok(answers),
        None => Err(HubFault::NoMemory),
    }
}

// Runs the keeper, tells the sessions that it has ended, and puts together what they did.
fn run_opened<
    J: Drop,
    O: Drop,
    R: Threads + Wait,
    M: Machine<J, O>,
    G: Gate,
    C: Clock,
    B: Recorder<J, O>,
>(
    rt: &R,
    alloc: Global,
    opened: Opened<J, O>,
    machine: &mut M,
    gate: &G,
    clock: &C,
    recorder: &mut B,
) -> Result<Vec<Vec<O>>, HubFault>
    requires { IsOpened opened }
    ensures ran { IfOk result (λ answers. SessionsRan (C.reads clock.now) M.gives M.after (M.is_honest machine.new)
        (Between (M.stands machine.old)) (Between (M.stands machine.new)) (B.has recorder.old) (B.has recorder.new)
        (jobs_for opened.threads.items) (lists_of answers.items)) }
    ensures before { M.is_honest machine.new → M.is_honest machine.old }
    ensures fault { IfErr result (λ fault. MatchFault fault ⊥ ⊤ (M.is_broken machine.new) ⊥) }
{
    let Opened {
        mut keeper,
        over,
        threads,
    } = opened;
    match run_terms(rt, alloc, &mut keeper, machine, gate, clock, recorder) {
        Ok(()) => {
            over.store(true, Ordering::SeqCst);
            let answers = conclude(rt, alloc, keeper, threads)?;
            Ok(answers)
        }
        Err(fault) => {
            give_up(rt, &over, threads);
            Err(fault)
        }
    }
}

/// Runs 1 to 32 lists of jobs, each by a session in a thread of its own, and the keeper in this one. Where it gives an
/// answer, all lists were run, each in its order and each job once, in one history of the machine, of which the recorder
/// was told. The answers of each session are its outs in the history. It gives none where the number of lists, which is
/// judged first, a thread, memory or the machine failed.
pub fn many_sessions<
    J: Drop + Send + 'static,
    O: Drop + Send + 'static,
    R: Threads + Wait + Copy + Send + 'static,
    M: Machine<J, O>,
    G: Gate,
    C: Clock,
    B: Recorder<J, O>,
>(
    rt: R,
    alloc: Global,
    slots: usize,
    machine: &mut M,
    gate: &G,
    clock: &C,
    recorder: &mut B,
    lists: Vec<Vec<J>>,
) -> Result<Vec<Vec<O>>, HubFault>
    requires { (1 ≤ slots) × (slots ≤ 1024) }
    ensures ran { IfOk result (λ answers. SessionsRan (C.reads clock.now) M.gives M.after (M.is_honest machine.new)
        (Between (M.stands machine.old)) (Between (M.stands machine.new)) (B.has recorder.old) (B.has recorder.new)
        (lists_of lists.items) (lists_of answers.items)) }
    ensures before { M.is_honest machine.new → M.is_honest machine.old }

    // Too many lists are told first; that the machine failed, only where it could not be opened again.
    ensures many { IsTooMany (length lists.items) → result ≡ Err HubFault.TooManySessions }
    ensures fault { IfErr result (λ fault. MatchFault fault ⊤ ⊤ (M.is_broken machine.new) (IsTooMany (length lists.items))) }
{
    if lists.is_empty() || lists.len() > 32 {
        return Err(HubFault::TooManySessions);
    }
    let opened = open_sessions(rt, alloc, slots, lists)?;
    let answers = run_opened(&rt, alloc, opened, machine, gate, clock, recorder)?;
    Ok(answers)
}
