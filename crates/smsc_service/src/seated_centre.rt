//! A centre over its store, with who sits where.
ghost use Rattle.std.specs.Prelude.{◌≡◌, ℕ, true, None};
ghost use Rattle.sms_centre.specs.plans.EventOutcome.{IsOutcome};
ghost use Rattle.sms_centre.specs.Archiving.{AreArchived, Stays};
ghost use Rattle.sms_centre.specs.Planning.{FitsTheCentre};
ghost use Rattle.sms_centre_group.specs.Grouping.{store_of};
ghost use Rattle.sms_centre_spec.specs.CentreEvent.{happened};
ghost use Rattle.sms_centre_spec.specs.forgetting.Forget.{forget, going_now};
ghost use Rattle.sms_centre_spec.specs.SoundCore.{IsEvent};
ghost use Rattle.sms_centre_spec.specs.declared.event.CentreEvent.{CentreEvent as CentreEventOf};
ghost use Rattle.sms_centre_spec.specs.declared.rows.Rows.{Rows as RowsOf};
ghost use Rattle.smsc_service.specs.declared.asking.SeatRequest.TheVariants.{Enrol, Event, Forget};
ghost use Rattle.smsc_service.specs.Asking.{IfForget, UnlessEvent, answer_of};
ghost use Rattle.smsc_service.specs.Seats.{seats_in};
ghost use Rattle.sms_keeper.specs.declared.machine.Fate.TheVariants.{Done, NoMemory, Refused};
ghost use Rattle.smsc_service.specs.Serving.{GivesUp, Serving};
ghost use Rattle.smsc_service.specs.Replies.{failed_by, replies_to};
ghost use Rattle.smsc_service.specs.InSeated.{IfMade, IsHonest, MakingOutcome, RefusedRead, StepOutcome, held_by};

use crate::asking::SeatRequest;
use crate::machine::CentreMachine;
use crate::made::Made;
use crate::new_account::NewAccount;
use crate::seat_map::SeatMap;
use crate::short::answered;
use crate::step_error::StepError;
use crate::stimuli::{follow, planned_outs, turned_away, unasked, unmade};
use sms_base::Moment;
use sms_centre::{Archive, CentreEvent, Plan};
use sms_centre_spec::bodies::CentreStore;
use sms_centre_spec::jobs::{Job, Reply};
use sms_keeper::{Fate, Out, Outs, Stimulus};
use std::alloc::Global;

/// A centre over its store in the middle of a group, with who sits where.
#[derive(Drop)]
pub struct SeatedCentre<K: CentreStore + Drop> {
    pub(crate) alloc: Global,
    pub(crate) machine: CentreMachine<K>,
    pub(crate) seat_map: SeatMap,
}

// Nothing was planned.
fn give_up(error: StepError, stimulus: &Stimulus<Job>) -> Made
    ensures outs { result.outs ≡ failed_by stimulus.now }
    ensures fate { GivesUp error result.fate }
{
    match error {
        StepError::NoMemory => unmade(Fate::NoMemory, stimulus),
        StepError::NoBody | StepError::Store(_) => unmade(Fate::Refused, stimulus),
    }
}

impl<K: CentreStore + Drop> SeatedCentre<K> {
    /// Drops the centre and who sits where, and gives the store of the rows.
    pub(crate) fn into_keep(self) -> K
        ensures { result ≡ store_of self.machine.keep }
    {
        let SeatedCentre {
            machine,
            seat_map,
            ..
        } = self;
        drop(seat_map);
        machine.into_keep()
    }

    // The plan is adopted and its changes are held. The outs may leave once the group is committed.
    fn hold(&mut self, stimulus: &Stimulus<Job>, planned: Plan, outs: Vec<Out<Reply>>) -> Made
        requires { FitsTheCentre self.old.machine.centre planned }
        ensures before { IsHonest K.state self.new → IsHonest K.state self.old }
        ensures refused { result.fate ≡ Refused → RefusedRead self.old self.new }
        ensures gives { (event : CentreEventOf) (s : Serving) (base : RowsOf) → IsEvent event → IsOutcome (happened event s.core) planned.plan
            → outs.items ≡ replies_to s.seats stimulus.now (happened event s.core)
            → MakingOutcome K.state base self.old self.new (Event event) s stimulus.now result.fate result.outs }
        ensures told { result.fate ≡ Done → result.told ≡ planned.plan.outputs.answer }
    {
        let told = planned.outputs().answer;
        match self.machine.hold(planned) {
            Ok(_outputs) => {
                follow(&mut self.seat_map, stimulus);
                Made {
                    fate: Fate::Done,
                    outs: Outs::from_vec(outs),
                    told,
                }
            }
            Err(_) => {
                drop(outs);
                unmade(Fate::NoMemory, stimulus)
            }
        }
    }

    // The replies to the seats are made, and then the plan is adopted.
    fn reply_and_hold(&mut self, stimulus: &Stimulus<Job>, planned: Plan) -> Made
        requires { FitsTheCentre self.old.machine.centre planned }
        ensures before { IsHonest K.state self.new → IsHonest K.state self.old }
        ensures refused { result.fate ≡ Refused → RefusedRead self.old self.new }
        ensures gives { (event : CentreEventOf) (s : Serving) (base : RowsOf) → IsEvent event → IsOutcome (happened event s.core) planned.plan
            → MakingOutcome K.state base self.old self.new (Event event) s stimulus.now result.fate result.outs }
        ensures told { result.fate ≡ Done → result.told ≡ planned.plan.outputs.answer }
    {
        match planned_outs(
            self.alloc,
            &self.seat_map,
            stimulus,
            &self.machine.centre,
            &planned,
        ) {
            Ok(outs) => self.hold(stimulus, planned, outs),
            Err(_) => {
                drop(planned);
                unmade(Fate::NoMemory, stimulus)
            }
        }
    }

    // An event happens.
    fn happen(&mut self, event: &CentreEvent<'_>, stimulus: &Stimulus<Job>) -> Made
        ensures before { IsHonest K.state self.new → IsHonest K.state self.old }
        ensures refused { (s : Serving) (base : RowsOf) → IfMade K.state base s self.old self.new (result.fate ≡ Refused → RefusedRead self.old self.new) }
        ensures gives { (s : Serving) (base : RowsOf)
            → MakingOutcome K.state base self.old self.new (Event event.now) s stimulus.now result.fate result.outs }
        ensures told { (s : Serving) (base : RowsOf) → IfMade K.state base s self.old self.new
            (result.fate ≡ Done → result.told ≡ (happened event.now s.core).answer) }
    {
        match self.machine.plan(event) {
            Ok(planned) => self.reply_and_hold(stimulus, planned),
            Err(error) => give_up(error, stimulus),
        }
    }

    // An event happens, unless it is too late to begin it: then it fails as for want of memory, and nothing changes.
    fn begin(&mut self, event: &CentreEvent<'_>, stimulus: &Stimulus<Job>, is_late: bool) -> Made
        ensures late { is_late ≡ true → (result.fate ≡ NoMemory) × (self.new ≡ self.old) }
        ensures before { IsHonest K.state self.new → IsHonest K.state self.old }
        ensures refused { (s : Serving) (base : RowsOf) → IfMade K.state base s self.old self.new (result.fate ≡ Refused → RefusedRead self.old self.new) }
        ensures gives { (s : Serving) (base : RowsOf)
            → MakingOutcome K.state base self.old self.new (Event event.now) s stimulus.now result.fate result.outs }
        ensures told { (s : Serving) (base : RowsOf) → IfMade K.state base s self.old self.new
            (result.fate ≡ Done → result.told ≡ (happened event.now s.core).answer) }
    {
        if is_late {
            return unmade(Fate::NoMemory, stimulus);
        }
        self.happen(event, stimulus)
    }

    // What is planned to go goes, and nobody hears of it.
    fn let_go(&mut self, stimulus: &Stimulus<Job>, planned: Plan) -> Made
        requires { FitsTheCentre self.old.machine.centre planned }
        ensures before { IsHonest K.state self.new → IsHonest K.state self.old }
        ensures refused { result.fate ≡ Refused → RefusedRead self.old self.new }
        ensures gives { (before from most : ℕ) (s : Serving) (base : RowsOf) → IsOutcome (forget before from most s.core) planned.plan
            → MakingOutcome K.state base self.old self.new (Forget before from most) s stimulus.now result.fate result.outs }
        ensures told { result.told ≡ None }
    {
        match self.machine.hold(planned) {
            Ok(_outputs) => Made {
                fate: Fate::Done,
                outs: Outs::none(),
                told: None,
            },
            Err(_) => unmade(Fate::NoMemory, stimulus),
        }
    }

    // The centre forgets, what goes being archived first. Nothing goes where the archive refuses, and nothing changes where it is late.
    fn forget<A: Archive>(
        &mut self,
        stimulus: &Stimulus<Job>,
        archive: &mut A,
        before: Moment,
        from: u64,
        most: u16,
        is_late: bool,
    ) -> Made
        ensures late { is_late ≡ true → self.new ≡ self.old }
        ensures before { IsHonest K.state self.new → IsHonest K.state self.old }
        ensures refused { result.fate ≡ Refused → RefusedRead self.old self.new }
        ensures gives { (s : Serving) (base : RowsOf)
            → MakingOutcome K.state base self.old self.new (Forget before from most) s stimulus.now result.fate result.outs }
        ensures told { result.told ≡ None }
        ensures archived { (s : Serving) (base : RowsOf) → IfMade K.state base s self.old self.new
            (result.fate ≡ Done → AreArchived (A.keeps archive.new) (going_now before from most s.core) s.core.rows) }
        ensures kept { Stays (A.keeps archive.old) (A.keeps archive.new) }
    {
        if is_late {
            return unmade(Fate::NoMemory, stimulus);
        }
        match self.machine.plan_forget(archive, before, from, most) {
            Ok(planned) => self.let_go(stimulus, planned),
            Err(_) => unmade(Fate::NoMemory, stimulus),
        }
    }

    // The account comes. Nothing changes where there is no memory for it, or where it is late.
    fn enrol(&mut self, stimulus: &Stimulus<Job>, account: &NewAccount<'_>, is_late: bool) -> Made
        ensures late { is_late ≡ true → self.new ≡ self.old }
        ensures before { IsHonest K.state self.new → IsHonest K.state self.old }
        ensures refused { result.fate ≡ Refused → RefusedRead self.old self.new }
        ensures gives { (s : Serving) (base : RowsOf)
            → MakingOutcome K.state base self.old self.new (Enrol account.now) s stimulus.now result.fate result.outs }
        ensures told { result.told ≡ None }
    {
        if is_late {
            return unmade(Fate::NoMemory, stimulus);
        }
        match self.machine.centre.enrol(account.get()) {
            Ok(()) => Made {
                fate: Fate::Done,
                outs: Outs::none(),
                told: None,
            },
            Err(_) => unmade(Fate::NoMemory, stimulus),
        }
    }

    // What is asked is done. Where it is late, nothing changes.
    fn serve<A: Archive>(
        &mut self,
        asked: &SeatRequest<'_>,
        stimulus: &Stimulus<Job>,
        archive: &mut A,
        is_late: bool,
    ) -> Made
        ensures late { is_late ≡ true → self.new ≡ self.old }
        ensures before { IsHonest K.state self.new → IsHonest K.state self.old }
        ensures refused { (s : Serving) (base : RowsOf) → IfMade K.state base s self.old self.new (result.fate ≡ Refused → RefusedRead self.old self.new) }
        ensures gives { (s : Serving) (base : RowsOf) → MakingOutcome K.state base self.old self.new asked.now s stimulus.now result.fate result.outs }
        // What asks nothing of the centre changes nothing, and is done.
        ensures quiet { UnlessEvent asked.now ((held_by self.new ≡ held_by self.old) × (result.fate ≡ Done)) }
        ensures told { (s : Serving) (base : RowsOf) → IfMade K.state base s self.old self.new (result.fate ≡ Done → result.told ≡ answer_of asked.now s.core) }
        // No message goes that the archive does not keep.
        ensures archived { (s : Serving) (base : RowsOf) → IfMade K.state base s self.old self.new
            (result.fate ≡ Done → IfForget (λ before from most. AreArchived (A.keeps archive.new) (going_now before from most s.core) s.core.rows) asked.now) }
        ensures kept { Stays (A.keeps archive.old) (A.keeps archive.new) }
    {
        match asked {
            SeatRequest::Event(event) => self.begin(event, stimulus, is_late),
            SeatRequest::Nothing => unasked(&self.seat_map, stimulus),
            SeatRequest::Taken => turned_away(stimulus),
            SeatRequest::Forget { before, from, most } => {
                self.forget(stimulus, archive, *before, *from, *most, is_late)
            }
            SeatRequest::Enrol(account) => self.enrol(stimulus, account, is_late),
        }
    }

    /// What is asked is done, and answered by its octets where there was no memory for it. Nothing durable changes, and nothing may
    /// leave before the group is committed. Where it is late, nothing changes.
    pub(crate) fn answer<A: Archive>(
        &mut self,
        asked: &SeatRequest<'_>,
        stimulus: &Stimulus<Job>,
        archive: &mut A,
        is_late: bool,
    ) -> Made
        ensures late { is_late ≡ true → self.new ≡ self.old }
        ensures before { IsHonest K.state self.new → IsHonest K.state self.old }
        ensures refused { (s : Serving) (base : RowsOf) → IfMade K.state base s self.old self.new (result.fate ≡ Refused → RefusedRead self.old self.new) }
        ensures gives { (s : Serving) (base : RowsOf) → StepOutcome K.state base self.old self.new asked.now s stimulus.now result.fate result.outs }
        ensures quiet { UnlessEvent asked.now ((held_by self.new ≡ held_by self.old) × (result.fate ≡ Done)) }
        ensures told { (s : Serving) (base : RowsOf) → IfMade K.state base s self.old self.new (result.fate ≡ Done → result.told ≡ answer_of asked.now s.core) }
        // No message goes that the archive does not keep.
        ensures archived { (s : Serving) (base : RowsOf) → IfMade K.state base s self.old self.new
            (result.fate ≡ Done → IfForget (λ before from most. AreArchived (A.keeps archive.new) (going_now before from most s.core) s.core.rows) asked.now) }
        ensures kept { Stays (A.keeps archive.old) (A.keeps archive.new) }
    {
        let made = self.serve(asked, stimulus, archive, is_late);
        answered(&self.machine.centre, asked, stimulus, made)
    }
}
