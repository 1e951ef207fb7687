//! What the keeper runs, a group of items at a time, and who is told of it.
ghost use Rattle.std.specs.Prelude.{◌≡◌, ℕ, List, [], ◌∷◌, ◌++◌, MatchResult, OnOk, OnErr};
ghost use Rattle.sms_keeper.specs.declared.machine.Stimulus.{Stimulus};
ghost use Rattle.sms_keeper.specs.declared.machine.Fate.{Fate};
ghost use Rattle.sms_keeper.specs.declared.machine.Fate.TheVariants.{Refused};
ghost use Rattle.sms_keeper.specs.declared.machine.Item.{Item};
ghost use Rattle.sms_keeper.specs.declared.outs.Out.{Out};
ghost use Rattle.sms_keeper.specs.Fates.{MatchFate};

use crate::outs::Outs;
use sms_base::{MessageId, Moment};
use sms_intake::CentreAccount;

/// What the machine is to do that no seat asks.
#[derive(Drop)]
pub enum Errand {
    /// The machine looks at so many messages, from that number on, and forgets those that may go and ended before that moment.
    Forget {
        before: Moment,
        from: u64,
        most: u16,
    },
    /// The machine's owner orders that what waits of the message is due now.
    Retry(MessageId),
    /// The machine's owner orders that the message is deleted.
    Delete(MessageId),
    /// The account comes: it is the last of the machine's accounts from now on.
    Enrol(CentreAccount),
}

/// What the machine is asked.
#[derive(Drop)]
pub enum Stimulus<J> {
    /// A job, and before it the number of the seat that put it.
    Job(usize, J),
    /// The moment that the clock shows.
    Tick(Moment),
    /// An errand, which no seat put.
    Own(Errand),
}

/// The result of an item.
#[derive(Clone, Copy, PartialEq, Eq)]
pub enum Fate {
    /// What it changed is committed.
    Done,
    /// There was no memory to plan it: nothing was changed.
    NoMemory,
    /// The store refused the commit of its group, or the read of a body in it: the machine has to be opened again.
    Refused,
}

/// An item of the history.
#[derive(Drop)]
pub struct Item<J, O> {
    pub stimulus: Stimulus<J>,
    pub fate: Fate,
    pub outs: Outs<O>,
}

/// What a step gives once its group is committed, and what it gives if its group is refused.
#[derive(Drop)]
pub struct Step<O> {
    pub fate: Fate,
    pub outs: Outs<O>,
    pub if_refused: Outs<O>,
}

/// The store refused the commit of a group.
#[derive(Drop)]
pub struct Unsettled;

/// The rows of the machine could not be read.
#[derive(Drop)]
pub struct Broken;

/// What a group passes once, between its last plan and its commit. The product's returns at once.
pub trait Gate {
    fn pass(&self);
}

/// What shows moments.
pub trait Clock {
    /// The moments that it may show.
    ghost reads: { Self → ℕ → Type 0 };

    fn now(&self) -> Moment
        ensures { reads self.now result };
}

/// Who is told what a keeper did.
pub trait Recorder<J, O> {
    /// The items that it may have been told of. Of one that keeps nothing they may be any.
    ghost has: { Self → List (Item J O) → Type 0 };

    /// The group of this item is settled, and its outs are about to be given.
    fn record(&mut self, item: &Item<J, O>)
        ensures { (told : List (Item J O)) → has self.old told → has self.new (told ++ item.now ∷ []) };

    /// A group of so many items was given its outs.
    fn end_group(&mut self, count: usize)
        ensures { (told : List (Item J O)) → has self.old told → has self.new told };

    /// The machine was opened again after a group that its store refused.
    fn reopened(&mut self)
        ensures { (told : List (Item J O)) → has self.old told → has self.new told };

    /// The machine could not be opened again. From now on each item is refused.
    fn failed(&mut self)
        ensures { (told : List (Item J O)) → has self.old told → has self.new told };
}

/// A recorder that keeps nothing.
#[derive(Drop)]
pub struct NoRecord;

impl<J, O> Recorder<J, O> for NoRecord {
    ghost use Rattle.std.specs.Prelude.{⊤};

    ghost has = { λ recorder told. ⊤ };

    fn record(&mut self, _item: &Item<J, O>) {}

    fn end_group(&mut self, _count: usize) {}

    fn reopened(&mut self) {}

    fn failed(&mut self) {}
}

/// What the keeper runs. Its definition, by `gives` and `after`, says what each stimulus puts out and leads to.
///
/// Its laws hold as long as it is honest: its store returns what was written.
pub trait Machine<J, O> {
    /// What a machine represents. No value of it is made.
    type State;

    /// In the middle of a group it is the first, and if the group is refused it starts again as the second. Between two
    /// groups both are one.
    ghost stands: { Self → Self.State → Self.State → Type 0 };

    /// What it represents once it is opened again.
    ghost resumes: { Self → Self.State → Type 0 };

    /// What it represents once it could not be opened again: it refuses each item as that.
    ghost fails_as: { Self → Self.State → Type 0 };

    /// So far its store has returned what was written.
    ghost is_honest: { Self → Type 0 };

    /// The machine's rows could not be read when it was last to be opened again.
    ghost is_broken: { Self → Type 0 };

    /// Between these two states its store refused a call.
    ghost refuses: { Self → Self → Type 0 };

    ghost gives: { Self.State → Stimulus J → Fate → List (Out O) };

    ghost after: { Self.State → Stimulus J → Fate → Self.State };

    /// What it is to do at that moment that no seat asks, if anything. The keeper asks it of the machine at once.
    fn errand(&self, now: Moment) -> Option<Errand>;

    /// Plans and adopts. Nothing is committed yet, and nothing may leave. After a step that was refused its whole group is.
    fn step(&mut self, stimulus: &Stimulus<J>) -> Step<O>
        ensures before { is_honest self.new → is_honest self.old }
        ensures gives { is_honest self.new → (s r : Self.State) → stands self.old s r
            → (result.outs ≡ gives s stimulus.now result.fate) × (result.if_refused ≡ gives r stimulus.now Refused)
            × MatchFate result.fate
            (stands self.new (after s stimulus.now result.fate) (after r stimulus.now Refused))
            (resumes self.new (after r stimulus.now Refused)) }
        ensures refused { is_honest self.new → (s r : Self.State) → stands self.old s r → result.fate ≡ Refused → refuses self.old self.new };

    /// Passes the gate, and commits what all steps of the group changed, or nothing.
    fn settle<G: Gate>(&mut self, gate: &G) -> Result<(), Unsettled>
        ensures before { is_honest self.new → is_honest self.old }
        ensures settled { is_honest self.new → (s r : Self.State) → stands self.old s r
            → MatchResult result (λ done. stands self.new s s) (λ refused. resumes self.new r) }
        ensures refused { OnErr result (refuses self.old self.new) };

    /// Recovers the machine from its rows, after a group that was refused.
    fn reopen(&mut self) -> Result<(), Broken>
        ensures ok { is_honest self.new → (s : Self.State) → resumes self.old s → OnOk result (stands self.new s s) }
        ensures fails { is_honest self.new → (s : Self.State) → resumes self.old s → OnErr result (fails_as self.new s) }
        ensures before { is_honest self.new → is_honest self.old }
        ensures opened { OnOk result (is_broken self.new → ⊥) }
        ensures err { OnErr result (is_broken self.new) };

    /// Refuses an item, once it could not be opened again. Its store is asked nothing.
    fn refuse(&mut self, stimulus: &Stimulus<J>) -> Outs<O>
        ensures gives { is_honest self.new → (r : Self.State) → fails_as self.old r
            → (result ≡ gives r stimulus.now Refused) × fails_as self.new (after r stimulus.now Refused) }
        ensures before { is_honest self.new → is_honest self.old }
        ensures broken { is_broken self.old → is_broken self.new };
}
