//! A handset of a script in play.
ghost use Rattle.std.specs.Prelude.{◌≡◌, ℕ, ◌<◌, ◌≤◌, ◌^◌, ◌++◌, [], Err, IfOk, OnOk};
ghost use Rattle.sms_base.specs.Address.{IsAddress};
ghost use Rattle.sms_base.specs.HandsetNumber.{own_address};
ghost use Rattle.sms_handset_draft.specs.Draft.{recovered};
ghost use Rattle.sms_handset_draft.specs.FirstRows.{first_rows};
ghost use Rattle.sms_handset.specs.HandsetEvent.{deleted, discarded};
ghost use Rattle.sms_handset.specs.Planning.{FitsTheHandset, adopted};
ghost use Rattle.sms_handset.specs.SoundCore.{IsSoundCore};
ghost use Rattle.sms_handset.specs.declared.refusal.Refusal.TheVariants.{NoEntry};
ghost use Rattle.sms_play.specs.HandsetSide.{accepted_in, entries_given, happened, joined_in, memories_given};
ghost use Rattle.sms_player_handset.specs.declared.played.HandsetOutcome.TheVariants.{Done as DoneOf};
ghost use Rattle.sms_player_handset.specs.Meeting.{Meets};

use crate::laws::{only_ticks_advance_time, rows_rest_on_the_changes};
use crate::notes::{History, note_entries, note_history, note_memories};
use crate::stored_handset::StoredHandset;
use sms_base::{Address, Digits, Listed, Moment, Msisdn};
use sms_handset::{HandsetEvent, Plan, PlanError, Refusal, Setup};
use sms_handset_rows::outbox::OutEntry;
use sms_link::Outgoing;
use sms_script::report::{AcceptedRow, GivenRow, JoinedRow};
use std::alloc::{AllocError, Global};
use std::marker::Model;

/// A handset of a script: its rows are kept in memory.
#[derive(Drop)]
pub struct PlayedHandset {
    alloc: Global,
    number: Msisdn,
    stored: StoredHandset,
    history: History,
}

impl Model for PlayedHandset {
    ghost use Rattle.sms_play.specs.PlayState.{Party};

    ghost Value = { Party };

    ghost view = { λ h. record { number = h.number; core = h.stored.core; accepted = h.history.accepted; joined = h.history.joined } };
}

/// What a handset did with an event.
#[derive(Drop)]
pub enum HandsetOutcome {
    /// The handset sends these frames.
    Done(Listed<Outgoing>),
    /// The act of its owner is refused.
    Refused(Refusal),
}

// What the event accepted and joined is noted, and the references of the entries that entered the outbox.
fn note(
    alloc: Global,
    number: Digits,
    moment: Moment,
    stored: &StoredHandset,
    planned: &Plan,
    history: &mut History,
    given: &mut Listed<GivenRow>,
) -> Result<(), AllocError>
    ensures accepted { OnOk result (history.new.accepted ≡ history.old.accepted ++ accepted_in number planned.now.outcome.changes.last) }
    ensures joined { OnOk result (history.new.joined ≡ history.old.joined ++ joined_in number planned.now.outcome.changes.entries) }
    ensures given { OnOk result (given.new ≡ given.old ++ entries_given number moment stored.now.core.rows.outbox planned.now.outcome.changes.outbox) }
{
    let changes = planned.changes();
    note_history(alloc, number, changes, history)?;
    note_entries(
        number,
        moment,
        stored.outbox(),
        changes.outbox.changes(),
        given,
    )
}

// The frames are sent, and the references of the RP-SMMA among them are noted.
fn send(
    number: Digits,
    moment: Moment,
    next: u32,
    frames: Listed<Outgoing>,
    given: &mut Listed<GivenRow>,
) -> Result<HandsetOutcome, AllocError>
    ensures met { IfOk result (λ met. met ≡ DoneOf frames) }
    ensures given { OnOk result (given.new ≡ given.old ++ memories_given number moment next frames) }
{
    note_memories(number, moment, next, frames.as_slice(), given)?;
    Ok(HandsetOutcome::Done(frames))
}

// The plan of an event is carried out.
fn carry_out(
    alloc: Global,
    number: Digits,
    moment: Moment,
    stored: &mut StoredHandset,
    planned: Plan,
    history: &mut History,
    given: &mut Listed<GivenRow>,
) -> Result<HandsetOutcome, AllocError>
    requires fits { FitsTheHandset planned stored.old }
    requires sound { IsSoundCore (adopted planned.outcome stored.old.core) }
    requires moment { moment ≡ planned.outcome.moment }
    ensures met { IfOk result (λ met. met ≡ DoneOf planned.outcome.frames) }
    ensures state { OnOk result (stored.new.core ≡ adopted planned.outcome stored.old.core) }
    ensures accepted { OnOk result (history.new.accepted ≡ history.old.accepted ++ accepted_in number planned.outcome.changes.last) }
    ensures joined { OnOk result (history.new.joined ≡ history.old.joined ++ joined_in number planned.outcome.changes.entries) }
    ensures given { OnOk result (given.new ≡ (given.old ++ entries_given number moment stored.old.core.rows.outbox planned.outcome.changes.outbox)
        ++ memories_given number moment stored.old.core.rows.counters.notice planned.outcome.frames) }
{
    let next = stored.next_notice();
    match note(alloc, number, moment, stored, &planned, history, given) {
        Ok(()) => {
            let frames = stored.carry_out(moment, planned)?;
            send(number, moment, next, frames, given)
        }
        Err(error) => {
            drop(planned);
            Err(error)
        }
    }
}

impl PlayedHandset {
    /// The handset as a script begins, on a new store of so many slots.
    pub fn new(
        alloc: Global,
        number: Msisdn,
        slots: u8,
        centre: Address,
        start: Moment,
    ) -> Result<PlayedHandset, AllocError>
        requires slots { 0 < slots }
        requires centre { IsAddress centre }
        ensures { IfOk result (λ handset. handset ≡ record {
          number = number;
          core = recovered (first_rows (record { number = own_address number; slots = slots; centre = centre; start = start }));
          accepted = [];
          joined = [];
        }) }
    {
        number.spells_a_number();
        let setup = Setup {
            number: Address::of_handset(number.digits()),
            slots,
            centre,
            start,
        };
        let stored = StoredHandset::new(alloc, &setup)?;
        Ok(PlayedHandset {
            alloc,
            number,
            stored,
            history: History {
                accepted: Listed::new(alloc),
                joined: Listed::new(alloc),
            },
        })
    }

    /// The handset's number.
    pub fn number(&self) -> Msisdn
        ensures { result ≡ self.now.number }
    {
        self.number
    }

    /// The entries of its outbox, by number.
    pub fn outbox(&self) -> &[OutEntry]
        ensures { result.now ≡ self.now.core.rows.outbox }
    {
        self.stored.outbox().as_slice()
    }

    /// What it accepted, in order.
    pub fn accepted(&self) -> &[AcceptedRow]
        ensures { result.now ≡ self.now.accepted }
    {
        self.history.accepted.as_slice()
    }

    /// What it joined, in order.
    pub fn joined(&self) -> &[JoinedRow]
        ensures { result.now ≡ self.now.joined }
    {
        self.history.joined.as_slice()
    }

    /// Meets an event. What it changes is committed, and the references that it gives are added to those before. Want
    /// of memory is reported only where a growth was refused; the handset is then left in no stated way.
    pub fn meet(
        &mut self,
        event: &HandsetEvent<'_>,
        given: &mut Listed<GivenRow>,
    ) -> Result<HandsetOutcome, AllocError>
        ensures { Meets result self.old self.new given.old given.new (happened event.now self.old.core) }
    {
        only_ticks_advance_time();
        rows_rest_on_the_changes();
        let moment = self.stored.moment_after(event);
        match self.stored.plan(event) {
            Ok(planned) => carry_out(
                self.alloc,
                self.number.digits(),
                moment,
                &mut self.stored,
                planned,
                &mut self.history,
                given,
            ),
            Err(PlanError::Refused(refusal)) => Ok(HandsetOutcome::Refused(refusal)),
            Err(PlanError::NoMemory) => Err(AllocError),
        }
    }

    /// No entry has a number of more than 32 bits.
    pub fn numbers_its_entries(&self)
        ensures delete { (entry : ℕ) → 2 ^ 32 ≤ entry → deleted entry self.now.core ≡ Err NoEntry }
        ensures discard { (entry : ℕ) → 2 ^ 32 ≤ entry → discarded entry self.now.core ≡ Err NoEntry }
    {
        let _next = self.stored.next_entry();
    }

    /// Starts again on its rows.
    pub fn restart(&mut self) -> Result<(), AllocError>
        ensures { OnOk result (self.new ≡ record self.old { core = recovered self.old.core.rows }) }
    {
        self.stored.restart()
    }
}
