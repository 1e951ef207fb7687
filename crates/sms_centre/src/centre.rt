//! The centre.
ghost use Rattle.std.specs.Prelude.{◌≡◌, ℕ, IfErr, IfOk, OnErr, OnOk, length, take};
ghost use Rattle.sms_centre_spec.specs.declared.event.CentreEvent.{CentreEvent as CentreEventOf};
ghost use Rattle.sms_centre_spec.specs.CentreEvent.{happened, moment_of, recovered, started};
ghost use Rattle.sms_centre_spec.specs.Draft.{Core, core_of};
ghost use Rattle.sms_centre_spec.specs.forgetting.Forget.{forget, going_now, next_from};
ghost use Rattle.sms_centre_spec.specs.Requests.{cancel_refusal, octets_refusal, query_refusal};
ghost use Rattle.sms_centre_spec.specs.SoundCore.{AreDifferent, IsEvent};
ghost use Rattle.sms_centre_spec.specs.SoundRows.{IsSetup};
ghost use Rattle.sms_centre.specs.Archiving.{AreArchived, Stays};
ghost use Rattle.sms_centre.specs.Enrolling.{accounts_of, accounts_with, enrolled};
ghost use Rattle.sms_centre.specs.Planning.{DefinedOutcome, FitsTheCentre};
ghost use Rattle.sms_centre.specs.Stored.{StoresRows};
ghost use Rattle.sms_centre_rows.specs.messages.Messages.{message_at};
ghost use Rattle.sms_centre_rows.specs.waiting.Links.{link_of};
ghost use Rattle.sms_centre_queue.specs.queue.Watching.{figures_of};
ghost use Rattle.sms_centre_spec.specs.SoundRows.{all_for};
ghost use Rattle.sms_rows.specs.keep.StoreOutcome.{StoreOutcome, WasHonest};
ghost use Rattle.sms_centre_events.specs.offering.Refusing.{ReadingOutcome};
ghost use Rattle.sms_centre.specs.plans.EventOutcome.{IsOutcome};
ghost use Rattle.sms_centre_reports.specs.report_log.Reporting.{message_lines, receipt_lines};
ghost use Rattle.sms_centre.specs.state.Recovering.{AreNew, RefusesRows};
ghost use Rattle.sms_centre.specs.state.CentreState.{Represents};

use crate::adopting::put_in;
use crate::archiving::Archive;
use crate::finishing::plan_of;
use crate::forget_error::ForgetError;
use crate::forgetting::{next_from, plan_forget};
use crate::plan::Plan;
use crate::plans::Outputs;
use crate::refusing::{cancel_refusal, query_refusal, submit_refusal};
use crate::state::{CentreState, RecoverError};
use smpp_pdu::{CancelSm, CommandStatus, Message as SubmitSm, QuerySm};
use sms_base::lending::put;
use sms_base::{Carried, Listed, MessageId, Moment, Msisdn, Octets};
use sms_centre_messages::message_index::copy_of_changes;
use sms_centre_queue::queue::LinkFigures;
use sms_centre_recovery::commit;
use sms_centre_reports::sessions::ReceiptSession;
use sms_centre_rows::messages::MessageRow as Message;
use sms_centre_rows::report_lines::{ReceiptRow, ReportedMessage};
use sms_centre_spec::bodies::CentreStore;
use sms_centre_spec::{CentreEvent, Changes, PlanError, Rows, is_event};
use sms_intake::CentreAccount;
use sms_rows::keep::BodyKeep;
use sms_rows::table::Table;
use sms_tpdu::write_relay_address;
use std::alloc::{AllocError, Global};
use std::marker::Model;

/// A short message service centre: what it keeps in memory, and all that a restart forgets.
#[derive(Drop)]
pub struct Centre {
    alloc: Global,
    centre_state: CentreState,
    // Its address as RP units carry it.
    address: Octets,
}

impl Model for Centre {
    ghost use Rattle.std.specs.Prelude.{◌≡◌};
    ghost use Rattle.sms_tpdu.specs.AddressGrammar.{relay_address};
    ghost use Rattle.sms_centre_spec.specs.SoundRows.{IsSetup};
    ghost use Rattle.sms_centre.specs.state.CentreState.{CentreStateOf};

    ghost Value = { CentreStateOf };

    ghost view = { λ c. c.centre_state };

    ghost invariant = { λ c. IsSetup c.centre_state.setup × (c.address ≡ relay_address c.centre_state.setup.centre) };
}

impl Centre {
    /// The centre that starts again with these rows, if it can: `BadRows` only where they are not sound, and no centre
    /// of such rows. Its time grows with the rows, up to a logarithm. Links to these handsets are up at its first tick.
    /// These sessions are bound, in which nothing was sent yet.
    pub fn recover(
        alloc: Global,
        rows: Rows,
        handsets: &[Msisdn],
        sessions: Table<ReceiptSession>,
    ) -> Result<Centre, RecoverError>
        requires apart { AreDifferent handsets.now }
        requires sessions { AreNew sessions.rows }
        ensures centre_state { IfOk result (Represents (recovered rows handsets.now sessions.rows)) }
        ensures refused { IfErr result (λ error. RefusesRows error rows) }
    {
        let centre_state = CentreState::recover(alloc, rows, handsets, sessions)?;
        Ok(Centre::of(alloc, centre_state)?)
    }

    /// The centre that starts with these rows, if it can, where links to these handsets are up at once.
    pub fn start(
        alloc: Global,
        rows: Rows,
        handsets: &[Msisdn],
        sessions: Table<ReceiptSession>,
    ) -> Result<Centre, RecoverError>
        requires apart { AreDifferent handsets.now }
        requires sessions { AreNew sessions.rows }
        ensures centre_state { IfOk result (Represents (started rows handsets.now sessions.rows)) }
        ensures refused { IfErr result (λ error. RefusesRows error rows) }
    {
        let centre_state = CentreState::start(alloc, rows, handsets, sessions)?;
        Ok(Centre::of(alloc, centre_state)?)
    }

    /// Starts this centre again, with these rows in place of what it had, as `recover` says. Where it can't, it stays as it was.
    pub fn restart(
        &mut self,
        rows: Rows,
        handsets: &[Msisdn],
        sessions: Table<ReceiptSession>,
    ) -> Result<(), RecoverError>
        requires apart { AreDifferent handsets.now }
        requires sessions { AreNew sessions.rows }
        ensures centre_state { OnOk result (Represents (recovered rows handsets.now sessions.rows) self.new) }
        ensures refused { IfErr result (λ error. RefusesRows error rows) }
        ensures same { OnErr result (self.new ≡ self.old) }
    {
        match Centre::recover(self.alloc, rows, handsets, sessions) {
            Ok(centre) => {
                put(self, centre);
                Ok(())
            }
            Err(error) => Err(error),
        }
    }

    /// Starts this centre again on the rows that it has committed, as `recover` would make it of them anew. `moment` is
    /// the greatest that they have seen. It reads no rows, and costs what handsets and what waits for them do. Where it
    /// can't, it stays unchanged.
    ///
    /// # Errors
    /// A growth was refused.
    pub fn start_again(
        &mut self,
        moment: Moment,
        handsets: &[Msisdn],
        sessions: Table<ReceiptSession>,
    ) -> Result<(), AllocError>
        requires apart { AreDifferent handsets.now }
        requires sessions { AreNew sessions.rows }
        ensures centre_state { OnOk result ((c : Core) → Represents c self.old → moment ≡ moment_of c.rows
            → Represents (recovered c.rows handsets.now sessions.rows) self.new) }
        ensures same { OnErr result (self.new ≡ self.old) }
    {
        self.centre_state
            .start_again(self.alloc, moment, handsets, sessions)
    }

    fn of(alloc: Global, centre_state: CentreState) -> Result<Centre, AllocError>
        requires { IsSetup centre_state.setup }
        ensures { IfOk result (λ centre. centre ≡ centre_state) }
    {
        match write_relay_address(alloc, &centre_state.setup.centre) {
            Ok(address) => Ok(Centre {
                alloc,
                centre_state,
                address,
            }),
            Err(error) => {
                drop(centre_state);
                Err(error)
            }
        }
    }

    /// What the event leads to, with a store that gives the TPDUs of the present rows. Nothing has changed yet.
    ///
    /// `NoBody`: the store refused to read a body that the event reads. `NoMemory`: a growth was refused, and the store
    /// refused nothing.
    pub fn plan<B: BodyKeep>(
        &self,
        event: &CentreEvent<'_>,
        bodies: &mut B,
    ) -> Result<Plan, PlanError>
        ensures outcome { (c : Core) (rows : B.Rows) → Represents c self.now → StoresRows (B.body_of rows) c.rows
            → ReadingOutcome (λ p. IsOutcome (happened event.now c) p.plan) (happened event.now c).links.read rows
            (B.state bodies.old) (B.state bodies.new) result }
        // So it is what the definition plans with a store that answers all that the event reads but what it refused.
        ensures definition { (c : Core) (rows : B.Rows) → Represents c self.now → StoresRows (B.body_of rows) c.rows
            → DefinedOutcome event.now c rows (B.state bodies.old) (B.state bodies.new) result }
        ensures fits { IfOk result (FitsTheCentre self.now) }
        ensures event { IsEvent event.now }
        ensures before { WasHonest (B.state bodies.old) (B.state bodies.new) }
    {
        is_event(event);
        plan_of(
            self.alloc,
            &self.centre_state,
            event,
            bodies,
            self.address.as_slice(),
        )
    }

    /// What it leads to that the centre forgets. It looks at so many messages, from that number on. Those go that ended before that
    /// moment and were reported, where nobody can tell but who asks for them. The archive has them then. Nothing else has changed yet.
    ///
    /// # Errors
    /// A growth was refused, or the archive refused a message.
    pub fn plan_forget<A: Archive>(
        &self,
        archive: &mut A,
        before: Moment,
        from: u64,
        most: u16,
    ) -> Result<Plan, ForgetError>
        ensures outcome { (c : Core) → Represents c self.now → IfOk result (λ p. IsOutcome (forget before from most c) p.plan) }
        ensures archived { (c : Core) → Represents c self.now
            → OnOk result (AreArchived (A.keeps archive.new) (going_now before from most c) c.rows) }
        ensures kept { Stays (A.keeps archive.old) (A.keeps archive.new) }
        ensures fits { IfOk result (FitsTheCentre self.now) }
    {
        plan_forget(self.alloc, &self.centre_state, archive, before, from, most)
    }

    /// Forgets: what `plan_forget` plans is archived, committed, and put in, in this order.
    ///
    /// # Errors
    /// As `plan_forget`, or the store refused the commit. The centre stays unchanged, and whatever the archive took may be given to it again.
    pub fn forget<K: CentreStore, A: Archive>(
        &mut self,
        keep: &mut K,
        archive: &mut A,
        before: Moment,
        from: u64,
        most: u16,
    ) -> Result<(), ForgetError>
        ensures outcome { (c : Core) → Represents c self.old
            → StoreOutcome (λ done. Represents (core_of (forget before from most c)) self.new) c.rows (core_of (forget before from most c)).rows
            (K.state keep.old) (K.state keep.new) result }
        // No message goes that the archive does not keep.
        ensures archived { (c : Core) → Represents c self.old
            → OnOk result (AreArchived (A.keeps archive.new) (going_now before from most c) c.rows) }
        ensures kept { Stays (A.keeps archive.old) (A.keeps archive.new) }
        ensures same { OnErr result (self.new ≡ self.old) }
        ensures before { WasHonest (K.state keep.old) (K.state keep.new) }
    {
        let planned = self.plan_forget(archive, before, from, most)?;
        match commit(keep, planned.changes()) {
            Ok(()) => {
                let outputs = self.adopt(planned);
                drop(outputs);
                Ok(())
            }
            Err(error) => {
                drop(planned);
                Err(ForgetError::Store(error))
            }
        }
    }

    /// The number from which the call that follows goes on: of the first message that this one does not look at, or 0 where it looks at
    /// the last.
    pub fn next_from(&self, from: u64, most: u16) -> u64
        ensures { (c : Core) → Represents c self.now → result ≡ next_from from most c.rows.messages }
    {
        next_from(&self.centre_state, from, most)
    }

    /// The status with which its octets refuse a submit_sm of that account, if they do. It takes no memory: a caller has it also
    /// where `plan` finds none.
    pub fn submit_refusal(&self, account: u8, message: &SubmitSm<'_>) -> Option<CommandStatus>
        ensures { (c : Core) → Represents c self.now → result ≡ octets_refusal account message.now c }
    {
        submit_refusal(&self.centre_state, account, message)
    }

    /// The status with which a query_sm of that account is refused, if it is. It takes no memory: a caller has it also where
    /// `plan` finds none.
    pub fn query_refusal(&self, account: u8, query: &QuerySm<'_>) -> Option<CommandStatus>
        ensures { (c : Core) → Represents c self.now → result ≡ query_refusal account query.now c }
    {
        query_refusal(&self.centre_state, account, query)
    }

    /// The status with which a cancel_sm of that account is refused, if it is. It takes no memory, either.
    pub fn cancel_refusal(&self, account: u8, cancel: &CancelSm<'_>) -> Option<CommandStatus>
        ensures { (c : Core) → Represents c self.now → result ≡ cancel_refusal account cancel.now c }
    {
        cancel_refusal(&self.centre_state, account, cancel)
    }

    /// Puts the plan of an event or of forgetting into the centre, without taking memory, and gives what leaves.
    pub fn adopt(&mut self, planned: Plan) -> Outputs
        requires { FitsTheCentre self.old planned }
        ensures outputs { result ≡ planned.plan.outputs }
        ensures centre_state { (event : CentreEventOf) (c : Core) → Represents c self.old → IsEvent event → IsOutcome (happened event c) planned.plan
            → Represents (core_of (happened event c)) self.new }
        ensures forgotten { (before from most : ℕ) (c : Core) → Represents c self.old → IsOutcome (forget before from most c) planned.plan
            → Represents (core_of (forget before from most c)) self.new }
    {
        let kept = Listed::new(self.alloc);
        let (changes, outputs) = put_in(&mut self.centre_state, planned, kept);
        drop(changes);
        outputs
    }

    /// Puts the plan of an event into the centre before its changes are committed. It gives these, which its caller is to commit, and
    /// what leaves then.
    ///
    /// # Errors
    /// A growth was refused: the centre stays unchanged.
    pub fn adopt_uncommitted(&mut self, planned: Plan) -> Result<(Changes, Outputs), AllocError>
        requires { FitsTheCentre self.old planned }
        ensures changes { IfOk result (λ r. r.0 ≡ planned.plan.changes) }
        ensures outputs { IfOk result (λ r. r.1 ≡ planned.plan.outputs) }
        ensures centre_state { (event : CentreEventOf) (c : Core) → Represents c self.old → IsEvent event → IsOutcome (happened event c) planned.plan
            → OnOk result (Represents (core_of (happened event c)) self.new) }
        ensures forgotten { (before from most : ℕ) (c : Core) → Represents c self.old → IsOutcome (forget before from most c) planned.plan
            → OnOk result (Represents (core_of (forget before from most c)) self.new) }
        ensures same { OnErr result (self.new ≡ self.old) }
    {
        match copy_of_changes(self.alloc, planned.changes().messages.as_slice()) {
            Ok(kept) => Ok(put_in(&mut self.centre_state, planned, kept)),
            Err(error) => {
                drop(planned);
                Err(error)
            }
        }
    }

    /// The account is the last of the centre's accounts from now on. Those before it keep their places, and all else stays. One whose
    /// address no unit can carry does not come.
    ///
    /// # Errors
    /// A growth was refused: the centre stays unchanged.
    pub fn enrol(&mut self, account: &CentreAccount) -> Result<(), AllocError>
        ensures centre_state { OnOk result ((c : Core) → Represents c self.old → Represents (enrolled account.now c) self.new) }
        ensures accounts { OnOk result (accounts_of self.new ≡ accounts_with account.now (accounts_of self.old)) }
        ensures same { OnErr result (self.new ≡ self.old) }
    {
        self.centre_state.enrol(self.alloc, account)
    }

    /// How many accounts there are.
    pub fn account_count(&self) -> usize
        ensures { result ≡ length (accounts_of self.now) }
    {
        self.centre_state.setup.accounts.len()
    }

    /// The first so many accounts, or all where there are fewer, in memory of their own.
    pub fn first_accounts(&self, count: usize) -> Result<Vec<CentreAccount>, AllocError>
        ensures { IfOk result (λ first. first.items ≡ take count (accounts_of self.now)) }
    {
        self.centre_state.first_accounts(self.alloc, count)
    }

    /// How many messages it has.
    pub fn message_count(&self) -> usize
        ensures { (c : Core) → Represents c self.now → result ≡ length c.rows.messages }
    {
        self.centre_state.messages.len()
    }

    /// The message of that number, in memory of its own.
    pub fn message(&self, id: MessageId) -> Result<Option<Message>, AllocError>
        ensures { (c : Core) → Represents c self.now → IfOk result (λ row. row ≡ message_at id c.rows.messages) }
    {
        let message = self.centre_state.messages.find(self.alloc, id)?;
        Ok(message)
    }

    /// How many parts and status reports wait for the handset, and how its link is.
    pub fn figures(&self, handset: &Msisdn) -> LinkFigures
        ensures { (c : Core) → Represents c self.now → result ≡ figures_of (all_for handset.now c.rows) (link_of handset.now c.links) }
    {
        self.centre_state.figures(handset)
    }

    /// What the transaction to the handset carries that is under way.
    pub fn under_way(&self, handset: &Msisdn) -> Option<Carried>
        ensures { (c : Core) → Represents c self.now → result ≡ (link_of handset.now c.links).near_end.under_way }
    {
        self.centre_state.under_way(handset)
    }

    /// Every message with its state, by number. It takes time linear in the messages.
    pub fn table(&self) -> Result<Listed<ReportedMessage>, AllocError>
        ensures { (c : Core) → Represents c self.now → IfOk result (λ table. table ≡ message_lines c.rows.messages) }
    {
        self.centre_state.table(self.alloc)
    }

    /// Every receipt and status report that was made, in the order made, with the final state of its message. Each costs a look-up.
    pub fn receipts(&self) -> Result<Listed<ReceiptRow>, AllocError>
        ensures { (c : Core) → Represents c self.now → IfOk result (λ receipts. receipts ≡ receipt_lines c.rows.messages c.rows.reports) }
    {
        self.centre_state.receipts(self.alloc)
    }
}
