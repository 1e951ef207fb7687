//! How the keeper gives what it holds, once the group is settled.
ghost use Rattle.std.specs.Prelude.{◌≡◌, List, [], ◌∷◌, ◌++◌};
ghost use Rattle.sms_seats.specs.Queues.{ran_by, IsSameQueues};
ghost use Rattle.sms_keeper.specs.declared.machine.Item.{Item};
ghost use Rattle.sms_keeper.specs.Groups.{as_item, as_items};
ghost use Rattle.sms_keeper.specs.Keeping.{Gave, GaveAll};

use super::HeldItem;
use crate::machine::{Fate, Item, Recorder, Step};
use crate::outs::{Held, Out, Outs};
use sms_seats::SeatQueues;
use std::sync::Wait;

// Gives an answer to its seat, if there is one.
fn give_one<J: Drop, O: Drop, R: Wait>(rt: &R, queues: &mut SeatQueues<J, O>, out: Out<O>)
    ensures same { IsSameQueues queues.old queues.new }
    ensures ran { ran_by queues.new ≡ ran_by queues.old }
    ensures given { Gave queues.old queues.new (out ∷ []) }
{
    let Out { seat, out } = out;
    queues.give(rt, seat, out);
}

// Gives each answer to its seat.
fn give_all<J: Drop, O: Drop, R: Wait>(rt: &R, queues: &mut SeatQueues<J, O>, outs: Vec<Out<O>>)
    ensures same { IsSameQueues queues.old queues.new }
    ensures ran { ran_by queues.new ≡ ran_by queues.old }
    ensures given { Gave queues.old queues.new outs.items }
{
    for out in outs {
        give_one(rt, queues, out);
    }
}

// Gives the outs of an item to their seats.
fn give_outs<J: Drop, O: Drop, R: Wait>(rt: &R, queues: &mut SeatQueues<J, O>, outs: Outs<O>)
    ensures same { IsSameQueues queues.old queues.new }
    ensures ran { ran_by queues.new ≡ ran_by queues.old }
    ensures given { Gave queues.old queues.new outs }
{
    match outs.into_held() {
        Held::Nothing => {}
        Held::One(out) => give_one(rt, queues, out),
        Held::Many(outs) => give_all(rt, queues, outs),
    }
}

impl<J: Drop, O: Drop> HeldItem<J, O> {
    // What becomes of it, as its group was committed or not.
    fn into_item(self, is_committed: bool) -> Item<J, O>
        ensures { result ≡ as_item is_committed self }
    {
        let HeldItem { stimulus, step } = self;
        let Step {
            fate,
            outs,
            if_refused,
        } = step;
        if is_committed {
            Item {
                stimulus,
                fate,
                outs,
            }
        } else {
            Item {
                stimulus,
                fate: Fate::Refused,
                outs: if_refused,
            }
        }
    }
}

/// Tells of an item, and gives its outs.
pub(super) fn give_item<J: Drop, O: Drop, R: Wait, B: Recorder<J, O>>(
    rt: &R,
    queues: &mut SeatQueues<J, O>,
    recorder: &mut B,
    item: Item<J, O>,
)
    ensures same { IsSameQueues queues.old queues.new }
    ensures ran { ran_by queues.new ≡ ran_by queues.old }
    ensures given { Gave queues.old queues.new item.outs }
    ensures told { (told : List (Item J O)) → B.has recorder.old told → B.has recorder.new (told ++ item ∷ []) }
{
    recorder.record(&item);
    let Item {
        stimulus: _,
        fate: _,
        outs,
    } = item;
    give_outs(rt, queues, outs);
}

/// Gives what the held items give, in order, as their group was committed or not.
pub(super) fn release<J: Drop, O: Drop, R: Wait, B: Recorder<J, O>>(
    rt: &R,
    queues: &mut SeatQueues<J, O>,
    recorder: &mut B,
    held: Vec<HeldItem<J, O>>,
    is_committed: bool,
)
    ensures same { IsSameQueues queues.old queues.new }
    ensures ran { ran_by queues.new ≡ ran_by queues.old }
    ensures given { GaveAll queues.old queues.new (as_items is_committed held.items) }
    ensures told { (told : List (Item J O)) → B.has recorder.old told → B.has recorder.new (told ++ as_items is_committed held.items) }
{
    let count = held.len();
    for item in held {
        give_item(rt, queues, recorder, item.into_item(is_committed));
    }
    recorder.end_group(count);
}
