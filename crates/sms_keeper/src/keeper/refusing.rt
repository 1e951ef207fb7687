//! How the keeper refuses what comes, once its machine can't be opened again.
ghost use Rattle.std.specs.Prelude.{◌≡◌, [], List, ◌∷◌, ◌++◌};
ghost use Rattle.sms_seats.specs.Queues.{ran_by, IsSameQueues};
ghost use Rattle.sms_keeper.specs.declared.machine.Fate.TheVariants.{Refused};
ghost use Rattle.sms_keeper.specs.declared.machine.Item.{Item};
ghost use Rattle.sms_keeper.specs.Groups.{IsRefusing};
ghost use Rattle.sms_keeper.specs.Keeping.{Gave, IsClosed};

use super::Keeper;
use super::giving::give_item;
use crate::machine::{Clock, Fate, Item, Machine, Recorder, Stimulus};
use sms_seats::{Letter, SeatQueues};
use std::sync::Wait;
use std::time::Duration;

// Refuses an item: tells of it, and gives what the machine gives then.
fn refuse_item<J: Drop, O: Drop, R: Wait, M: Machine<J, O>, B: Recorder<J, O>>(
    rt: &R,
    queues: &mut SeatQueues<J, O>,
    machine: &mut M,
    recorder: &mut B,
    stimulus: Stimulus<J>,
)
    ensures same { IsSameQueues queues.old queues.new }
    ensures ran { ran_by queues.new ≡ ran_by queues.old }
    ensures item { (e : Item J O) × (e.stimulus ≡ stimulus) × (e.fate ≡ Refused) × Gave queues.old queues.new e.outs
        × ((told : List (Item J O)) → B.has recorder.old told → B.has recorder.new (told ++ e ∷ []))
        × (M.is_honest machine.new → (r : M.State) → M.fails_as machine.old r
        → (e.outs ≡ M.gives r stimulus Refused) × M.fails_as machine.new (M.after r stimulus Refused)) }
    ensures before { M.is_honest machine.new → M.is_honest machine.old }
    ensures broken { M.is_broken machine.old → M.is_broken machine.new }
{
    let outs = machine.refuse(&stimulus);
    let item = Item {
        stimulus,
        fate: Fate::Refused,
        outs,
    };
    give_item(rt, queues, recorder, item);
}

impl<J: Drop, O: Drop> Keeper<J, O> {
    // Refuses a tick where the clock shows a later moment than the last one, and otherwise the next job. Says whether anything was there.
    fn refuse_next<R: Wait, M: Machine<J, O>, C: Clock, B: Recorder<J, O>>(
        &mut self,
        rt: &R,
        machine: &mut M,
        clock: &C,
        recorder: &mut B,
    ) -> bool
        ensures refused { IsRefusing (C.reads clock.now) M.gives M.after (M.is_honest machine.new) (M.fails_as machine.old) (M.fails_as machine.new)
            (B.has recorder.old) (B.has recorder.new) self.old self.new }
        ensures before { M.is_honest machine.new → M.is_honest machine.old }
        ensures broken { M.is_broken machine.old → M.is_broken machine.new }
    {
        let now = clock.now();
        if self.is_due(now) {
            self.last = Some(now);
            refuse_item(rt, &mut self.queues, machine, recorder, Stimulus::Tick(now));
            return true;
        }
        match self.queues.pop(rt) {
            Some(letter) => {
                let Letter { seat, job } = letter;
                match job {
                    Some(job) => {
                        let stimulus = Stimulus::Job(seat, job);
                        refuse_item(rt, &mut self.queues, machine, recorder, stimulus);
                        true
                    }
                    None => true,
                }
            }
            None => false,
        }
    }

    /// Refuses the jobs of the seats in the order in which they are popped, each by itself, until all seats have closed. A tick
    /// precedes a job where the clock shows a later moment than the last one. It waits where there is nothing to do, and where a
    /// seat takes no answers.
    pub fn refuse<R: Wait, M: Machine<J, O>, C: Clock, B: Recorder<J, O>>(
        &mut self,
        rt: &R,
        machine: &mut M,
        clock: &C,
        recorder: &mut B,
    )
        // Each job was refused as it was popped, and each seat was given what the machine gives then.
        ensures refused { IsRefusing (C.reads clock.now) M.gives M.after (M.is_honest machine.new) (M.fails_as machine.old) (M.fails_as machine.new)
            (B.has recorder.old) (B.has recorder.new) self.old self.new }
        ensures closed { IsClosed self.new }
        ensures before { M.is_honest machine.new → M.is_honest machine.old }
        ensures broken { M.is_broken machine.old → M.is_broken machine.new }
    {
        for _ in rt.forever() {
            if self.queues.all_closed() {
                return;
            }
            if !self.refuse_next(rt, machine, clock, recorder) {
                self.queues.wait(rt, Duration::from_millis(20));
            }
        }
        unreachable!()
    }
}
