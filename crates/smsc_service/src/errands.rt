//! What a service does that no seat asks.
ghost use Rattle.std.specs.Prelude.{◌≡◌, IfSome, None, length};
ghost use Rattle.sms_centre.specs.state.CentreState.{Represents};
ghost use Rattle.sms_centre_spec.specs.Draft.{Core};
ghost use Rattle.smsc_service.specs.Outcomes.{told_of_account};
ghost use Rattle.smsc_service.specs.Sparing.{Behind, Rests, Spares, archive_of, asked_at, due_of, is_due as is_due_of, keep_of, rest_of};

use crate::order_desk::{OrderDesk, OrderOutcome, outcome_of};
use sms_base::{MessageId, Moment};
use sms_centre::{Archive, Centre, CentreAnswer};
use sms_centre_spec::jobs::Job;
use sms_keeper::{Errand, Fate, Stimulus};
use std::sync::Arc;

// A call looks at so many messages.
const MOST: u16 = 200;

// Where many of the oldest messages stay, a call passes once through all that the centre has in memory, so many of them in less than a tenth
// of a second. For each so many it rests a second more, so that it takes a tenth of the time at most.
const PASSED_A_SECOND: u64 = 2_500_000;

// So many seconds lie at least between two walks through the messages, and behind a call that was not done.
const REST: u64 = 10;

/// What a service forgets as it runs: messages that ended so many seconds ago, each of which goes to the archive first.
#[derive(Drop)]
pub struct Forgetting<A: Archive + Drop> {
    /// Nothing is forgotten where this is none.
    pub keep: Option<u64>,
    /// Where each message goes first.
    pub archive: A,
}

/// What a service does that no seat asks: the orders of its owner, and what it forgets.
#[derive(Drop)]
pub struct Errands<A: Archive + Drop> {
    desk: Arc<OrderDesk>,
    // What came of the order that the group has, if it is committed.
    told: Option<OrderOutcome>,
    pub(crate) keep: Option<u64>,
    pub(crate) archive: A,
    // The number from which the next call looks.
    from: u64,
    // The moment from which on it may look. Where there is none it may look at once.
    pub(crate) due: Option<Moment>,
}

// Whether the message of that number was submitted before that moment. Those behind it were submitted later.
fn is_older(centre: &Centre, number: u64, before: Moment) -> bool {
    let Some(id) = MessageId::new(number) else {
        return false;
    };
    match centre.message(id) {
        Ok(Some(message)) => message.submitted.seconds() < before.seconds(),
        _ => false,
    }
}

/// Where a walk goes on behind the call that the stimulus asks, or 0 where it ends there.
pub(crate) fn walks_to(centre: &Centre, stimulus: &Stimulus<Job>) -> u64 {
    match stimulus {
        Stimulus::Own(Errand::Forget { before, from, most }) => {
            let next = centre.next_from(*from, *most);
            if is_older(centre, next, *before) {
                next
            } else {
                0
            }
        }
        _ => 0,
    }
}

/// How many seconds a walk rests behind a call: one at least, of which a million messages a day need no more.
pub(crate) fn rest_behind(centre: &Centre) -> u64
    ensures { (c : Core) → Represents c centre.now → result ≡ rest_of (length c.rows.messages) }
{
    1 + centre.message_count() as u64 / PASSED_A_SECOND
}

// What came of an account that was to come.
fn account_outcome(fate: Fate) -> OrderOutcome
    ensures { result ≡ told_of_account fate }
{
    match fate {
        Fate::Done => OrderOutcome::Enrolled,
        Fate::NoMemory | Fate::Refused => OrderOutcome::Failed,
    }
}

impl<A: Archive + Drop> Errands<A> {
    /// The errands of an owner who orders at that desk. What is to be forgotten may be at once.
    pub fn new(desk: Arc<OrderDesk>, forgetting: Forgetting<A>) -> Errands<A>
        ensures keep { keep_of result ≡ forgetting.keep }
        ensures archive { archive_of result ≡ forgetting.archive }
        ensures due { due_of result ≡ None }
    {
        let Forgetting { keep, archive } = forgetting;
        Errands {
            desk,
            told: None,
            keep,
            archive,
            from: 1,
            due: None,
        }
    }

    // Whether it may look at that moment.
    fn is_due(&self, now: Moment) -> bool
        ensures { result ≡ is_due_of self.now.due now }
    {
        match self.due {
            Some(due) => due.seconds() <= now.seconds(),
            None => true,
        }
    }

    // What it is to forget at that moment.
    fn forgets(&self, now: Moment) -> Option<Errand>
        ensures { IfSome result (Spares self.now.keep self.now.due now) }
    {
        let keep = self.keep?;
        if !self.is_due(now) {
            return None;
        }
        let before = Moment::from_seconds(now.seconds().saturating_sub(keep)).ok()?;
        Some(Errand::Forget {
            before,
            from: self.from,
            most: MOST,
        })
    }

    /// The next one, if there is one at that moment.
    #[tactic(auto, using(crate::proofs::Spared::spares))]
    pub(crate) fn next(&self, now: Moment) -> Option<Errand>
        ensures { IfSome result (Spares self.now.keep self.now.due now) }
    {
        match self.desk.waiting() {
            Some(order) => Some(order),
            None => self.forgets(now),
        }
    }

    // The walk goes on from that number after that many seconds. From 0 it begins anew after a longer rest, and so it does where the call
    // was not done.
    fn walk_on(&mut self, before: Moment, next: u64, rest: u64, fate: Fate)
        ensures keep { self.new.keep ≡ self.old.keep }
        ensures archive { self.new.archive ≡ self.old.archive }
        ensures rests { Rests (asked_at self.old.keep before) rest self.new.due }
    {
        let asked = before.plus(self.keep.unwrap_or(0));
        if matches!(fate, Fate::Done) && next != 0 {
            self.from = next;
            self.due = Some(asked.plus(rest));
        } else {
            self.from = 1;
            self.due = Some(asked.plus(rest.max(REST)));
        }
    }

    // The order was asked of the centre; so its owner is told, if it is committed.
    fn take_order(&mut self, outcome: OrderOutcome)
        ensures keep { self.new.keep ≡ self.old.keep }
        ensures archive { self.new.archive ≡ self.old.archive }
        ensures due { self.new.due ≡ self.old.due }
    {
        self.desk.take();
        self.told = Some(outcome);
    }

    /// The stimulus was asked of the centre, with that fate and answer. Behind it a walk goes on from that number, after so many seconds
    /// at least.
    pub(crate) fn note(
        &mut self,
        stimulus: &Stimulus<Job>,
        fate: Fate,
        answer: Option<CentreAnswer>,
        next: u64,
        rest: u64,
    )
        ensures keep { self.new.keep ≡ self.old.keep }
        ensures archive { self.new.archive ≡ self.old.archive }
        ensures pace { Behind stimulus.now (λ before. Rests (asked_at self.old.keep before) rest self.new.due) (self.new.due ≡ self.old.due) }
    {
        match stimulus {
            Stimulus::Own(Errand::Forget { before, .. }) => self.walk_on(*before, next, rest, fate),
            Stimulus::Own(Errand::Enrol(_)) => self.take_order(account_outcome(fate)),
            Stimulus::Own(Errand::Retry(_) | Errand::Delete(_)) => self.take_order(outcome_of(
                answer,
            )),
            _ => {}
        }
    }

    /// The group is committed, or refused: whoever ordered something is told what came of it.
    pub(crate) fn tell(&mut self, is_committed: bool)
        ensures keep { self.new.keep ≡ self.old.keep }
        ensures archive { self.new.archive ≡ self.old.archive }
        ensures due { self.new.due ≡ self.old.due }
    {
        if let Some(outcome) = self.told {
            self.told = None;
            self.desk.tell(if is_committed {
                outcome
            } else {
                OrderOutcome::Failed
            });
        }
    }

    /// Ends the errands, and gives the archive.
    pub(crate) fn into_archive(self) -> A
        ensures { result ≡ self.archive }
    {
        let Errands { desk, archive, .. } = self;
        drop(desk);
        archive
    }
}
