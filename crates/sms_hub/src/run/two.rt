//! A run of two sessions.
ghost use Rattle.std.specs.Prelude.{◌≡◌, ◌≤◌, ◌∷◌, [], ⊤, length, IfOk, IfErr};
ghost use Rattle.sms_hub.specs.Faults.{MatchFault};
ghost use Rattle.sms_hub.specs.Running.{SessionsRan, lists_of};
ghost use Rattle.sms_keeper.specs.Groups.{Between};

use super::many::many_sessions;
use crate::hub_fault::HubFault;
use sms_keeper::{Clock, Gate, Machine, Recorder};
use std::alloc::{AllocError, Global};
use std::sync::Wait;
use std::thread::Threads;

fn pair<J: Drop>(alloc: Global, a: Vec<J>, b: Vec<J>) -> Result<Vec<Vec<J>>, AllocError>
    ensures { IfOk result (λ v. v.items ≡ a ∷ b ∷ []) }
{
    let mut lists = Vec::new(alloc);
    lists.reserve(2)?;
    lists.push_reserved(a);
    lists.push_reserved(b);
    Ok(lists)
}

fn apart<O: Drop>(all: Vec<Vec<O>>) -> (Vec<O>, Vec<O>)
    requires { length all.items ≡ 2 }
    ensures { lists_of all.items ≡ result.0.items ∷ result.1.items ∷ [] }
{
    let mut all = all;
    match (all.pop(), all.pop()) {
        (Some(b), Some(a)) => (a, b),
        _ => unreachable!(),
    }
}

/// Runs two lists of jobs, each by a session in a thread of its own, and the keeper in this one. Where it gives an
/// answer, both lists were run, each in its order and each job once, in one history of the machine, of which the recorder
/// was told. The answers of each session are its outs in the history. It gives none where a thread, memory or the
/// machine failed.
pub fn two_sessions<
    J: Drop + Send + 'static,
    O: Drop + Send + 'static,
    R: Threads + Wait + Copy + Send + 'static,
    M: Machine<J, O>,
    G: Gate,
    C: Clock,
    B: Recorder<J, O>,
>(
    rt: R,
    alloc: Global,
    slots: usize,
    machine: &mut M,
    gate: &G,
    clock: &C,
    recorder: &mut B,
    jobs_a: Vec<J>,
    jobs_b: Vec<J>,
) -> Result<(Vec<O>, Vec<O>), HubFault>
    requires { (1 ≤ slots) × (slots ≤ 1024) }
    ensures ran { IfOk result (λ r. SessionsRan (C.reads clock.now) M.gives M.after (M.is_honest machine.new)
        (Between (M.stands machine.old)) (Between (M.stands machine.new)) (B.has recorder.old) (B.has recorder.new)
        (jobs_a.items ∷ jobs_b.items ∷ []) (r.0.items ∷ r.1.items ∷ [])) }
    ensures before { M.is_honest machine.new → M.is_honest machine.old }

    // That the machine failed is told only where it could not be opened again.
    ensures fault { IfErr result (λ fault. MatchFault fault ⊤ ⊤ (M.is_broken machine.new) ⊥) }
{
    let lists = pair(alloc, jobs_a, jobs_b)?;
    let answers = many_sessions(rt, alloc, slots, machine, gate, clock, recorder, lists)?;
    Ok(apart(answers))
}
