//! Terms, one after the other.
ghost use Rattle.std.specs.Prelude.{◌≡◌, true, IfOk, IfErr};
ghost use Rattle.sms_hub.specs.Faults.{MatchFault};
ghost use Rattle.sms_hub.specs.Lasting.{Ran};
ghost use Rattle.sms_keeper.specs.Groups.{Between};
ghost use Rattle.sms_keeper.specs.Keeping.{IsClosed};

use crate::hub_fault::HubFault;
use sms_keeper::{Clock, End, Gate, Keeper, Machine, Recorder};
use std::alloc::Global;
use std::sync::Wait;

// Runs a term, after which the machine can go on. Says whether all seats have closed.
fn run_term<J: Drop, O: Drop, R: Wait, M: Machine<J, O>, G: Gate, C: Clock, B: Recorder<J, O>>(
    rt: &R,
    alloc: Global,
    keeper: &mut Keeper<J, O>,
    machine: &mut M,
    gate: &G,
    clock: &C,
    recorder: &mut B,
) -> Result<bool, HubFault>
    ensures ran { IfOk result (λ _. Ran (C.reads clock.now) M.gives M.after (M.is_honest machine.new)
        (Between (M.stands machine.old)) (Between (M.stands machine.new)) (B.has recorder.old) (B.has recorder.new) keeper.old keeper.new) }
    // Also where it could not be opened again.
    ensures failed { IfErr result (λ _. Ran (C.reads clock.now) M.gives M.after (M.is_honest machine.new)
        (Between (M.stands machine.old)) (M.fails_as machine.new) (B.has recorder.old) (B.has recorder.new) keeper.old keeper.new) }
    ensures before { M.is_honest machine.new → M.is_honest machine.old }
    ensures closed { IfOk result (λ closed. closed ≡ true → IsClosed keeper.new) }
    ensures fault { IfErr result (λ fault. MatchFault fault ⊥ ⊥ (M.is_broken machine.new) ⊥) }
{
    let end = keeper.run(rt, alloc, machine, gate, clock, recorder);
    match end {
        End::AllClosed => Ok(true),
        End::Refused => match machine.reopen() {
            Ok(()) => {
                recorder.reopened();
                Ok(false)
            }
            Err(_) => Err(HubFault::MachineFailed),
        },
    }
}

// Runs terms until all seats have closed, or the machine could not be opened again.
fn run_while_open<
    J: Drop,
    O: Drop,
    R: Wait,
    M: Machine<J, O>,
    G: Gate,
    C: Clock,
    B: Recorder<J, O>,
>(
    rt: &R,
    alloc: Global,
    keeper: &mut Keeper<J, O>,
    machine: &mut M,
    gate: &G,
    clock: &C,
    recorder: &mut B,
) -> Result<(), HubFault>
    ensures ran { IfOk result (λ _. Ran (C.reads clock.now) M.gives M.after (M.is_honest machine.new)
        (Between (M.stands machine.old)) (Between (M.stands machine.new)) (B.has recorder.old) (B.has recorder.new) keeper.old keeper.new) }
    ensures failed { IfErr result (λ _. Ran (C.reads clock.now) M.gives M.after (M.is_honest machine.new)
        (Between (M.stands machine.old)) (M.fails_as machine.new) (B.has recorder.old) (B.has recorder.new) keeper.old keeper.new) }
    ensures before { M.is_honest machine.new → M.is_honest machine.old }
    ensures closed { IfOk result (λ _. IsClosed keeper.new) }
    ensures fault { IfErr result (λ fault. MatchFault fault ⊥ ⊥ (M.is_broken machine.new) ⊥) }
{
    for _ in rt.forever() {
        let closed = run_term(rt, alloc, keeper, machine, gate, clock, recorder)?;
        if closed {
            return Ok(());
        }
    }
    unreachable!()
}

/// Runs terms until all seats have closed. After a group that was refused the machine is opened again. Where that fails, each job
/// is refused from then on, also until all seats have closed: none of them is left without its answer. The recorder is told of all
/// this. A long run takes no more memory than a group.
///
/// # Errors
/// `MachineFailed` where the machine could not be opened again.
pub fn run_terms<J: Drop, O: Drop, R: Wait, M: Machine<J, O>, G: Gate, C: Clock, B: Recorder<J, O>>(
    rt: &R,
    alloc: Global,
    keeper: &mut Keeper<J, O>,
    machine: &mut M,
    gate: &G,
    clock: &C,
    recorder: &mut B,
) -> Result<(), HubFault>
    // What was run is one history of the machine.
    ensures ran { IfOk result (λ _. Ran (C.reads clock.now) M.gives M.after (M.is_honest machine.new)
        (Between (M.stands machine.old)) (Between (M.stands machine.new)) (B.has recorder.old) (B.has recorder.new) keeper.old keeper.new) }
    // Also where it could not be opened again, and refused each item from then on.
    ensures failed { IfErr result (λ _. Ran (C.reads clock.now) M.gives M.after (M.is_honest machine.new)
        (Between (M.stands machine.old)) (M.fails_as machine.new) (B.has recorder.old) (B.has recorder.new) keeper.old keeper.new) }
    ensures before { M.is_honest machine.new → M.is_honest machine.old }
    ensures closed { IsClosed keeper.new }
    ensures fault { IfErr result (λ fault. MatchFault fault ⊥ ⊥ (M.is_broken machine.new) ⊥) }
{
    match run_while_open(rt, alloc, keeper, machine, gate, clock, recorder) {
        Ok(()) => Ok(()),
        Err(fault) => {
            recorder.failed();
            keeper.refuse(rt, machine, clock, recorder);
            Err(fault)
        }
    }
}
