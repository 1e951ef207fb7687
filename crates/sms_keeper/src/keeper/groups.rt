//! A group: it is asked, settled, and only then answered.
ghost use Rattle.std.specs.Prelude.{◌≡◌, ◌≢◌, true, [], List, ◌++◌};
ghost use Rattle.sms_keeper.specs.declared.machine.Fate.TheVariants.{Refused};
ghost use Rattle.sms_keeper.specs.declared.keeper.End.TheVariants.{AllClosed};
ghost use Rattle.sms_keeper.specs.Groups.{Between, IsGroup, IsTerm, MatchSettled, StandsBy};
ghost use Rattle.sms_keeper.specs.Keeping.{IsClosed};

use super::asking::Gathered;
use super::giving::release;
use super::{End, Keeper};
use crate::machine::{Clock, Fate, Gate, Machine, Recorder};
use std::alloc::Global;
use std::sync::Wait;
use std::time::Duration;

// What a group did. Where nothing was asked, its fate is Done.
#[derive(Drop)]
struct Group {
    is_empty: bool,
    fate: Fate,
}

// Commits the group, unless a step of it was refused. Says whether it is committed.
fn settle<J: Drop, O: Drop, M: Machine<J, O>, G: Gate>(
    machine: &mut M,
    gate: &G,
    fate: Fate,
) -> bool
    ensures settled { M.is_honest machine.new → (s r : M.State) → StandsBy fate (M.stands machine.old) (M.resumes machine.old) s r
        → MatchSettled result (M.stands machine.new s s) (M.resumes machine.new r) }
    ensures went { result ≡ true → fate ≢ Refused }
    ensures before { M.is_honest machine.new → M.is_honest machine.old }
{
    if let Fate::Refused = fate {
        return false;
    }
    machine.settle(gate).is_ok()
}

impl<J: Drop, O: Drop> Keeper<J, O> {
    // Runs a group: what waits, at most 64 items. Where nothing waits, the machine settles nothing.
    fn run_group<R: Wait, M: Machine<J, O>, G: Gate, C: Clock, B: Recorder<J, O>>(
        &mut self,
        rt: &R,
        alloc: Global,
        machine: &mut M,
        gate: &G,
        clock: &C,
        recorder: &mut B,
    ) -> Group
        ensures group { IsGroup (C.reads clock.now) M.gives M.after (M.is_honest machine.new)
            (Between (M.stands machine.old)) (Between (M.stands machine.new)) (M.resumes machine.new)
            (B.has recorder.old) (B.has recorder.new) self.old self.new result.fate }
        ensures before { M.is_honest machine.new → M.is_honest machine.old }
    {
        let Gathered { held, fate } = self.gather(rt, alloc, machine, clock);
        if held.as_slice().is_empty() {
            return Group {
                is_empty: true,
                fate: Fate::Done,
            };
        }
        if settle(machine, gate, fate) {
            release(rt, &mut self.queues, recorder, held, true);
            return Group {
                is_empty: false,
                fate: Fate::Done,
            };
        }
        release(rt, &mut self.queues, recorder, held, false);
        Group {
            is_empty: false,
            fate: Fate::Refused,
        }
    }

    /// Runs a term: the jobs of the seats in the order in which they are popped, in groups of what waits, at most 64 items
    /// each. A tick precedes a job where the clock shows a later moment than the last one. No out of a group leaves before
    /// the machine has committed the whole group. It waits where there is nothing to do, and where a seat takes no answers.
    pub fn run<R: Wait, M: Machine<J, O>, G: Gate, C: Clock, B: Recorder<J, O>>(
        &mut self,
        rt: &R,
        alloc: Global,
        machine: &mut M,
        gate: &G,
        clock: &C,
        recorder: &mut B,
    ) -> End
        // Each job was run as it was popped, and each seat was given its outs: one history, which leads to what the machine
        // is, or once a group was refused is to be.
        ensures term { IsTerm (C.reads clock.now) M.gives M.after (M.is_honest machine.new)
            (Between (M.stands machine.old)) (Between (M.stands machine.new)) (M.resumes machine.new)
            (B.has recorder.old) (B.has recorder.new) self.old self.new result }
        ensures before { M.is_honest machine.new → M.is_honest machine.old }
        ensures closed { result ≡ AllClosed → IsClosed self.new }
    {
        for _ in rt.forever() {
            if self.queues.all_closed() {
                return End::AllClosed;
            }
            let group = self.run_group(rt, alloc, machine, gate, clock, recorder);
            if let Fate::Refused = group.fate {
                return End::Refused;
            }
            if group.is_empty {
                self.queues.wait(rt, Duration::from_millis(20));
            }
        }
        unreachable!()
    }
}
