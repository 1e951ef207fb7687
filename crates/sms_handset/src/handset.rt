//! The handset.
ghost use Rattle.std.specs.Prelude.{◌≡◌, ◌+◌, ◌≤◌, max, Ok, IfErr, IfOk};
ghost use Rattle.std.specs.Str.{chars};
ghost use Rattle.sms_handset_draft.specs.Draft.{draft_of, recovered};
ghost use Rattle.sms_handset.specs.HandsetEvent.{deleted, discarded, frame_received as frame_received_of, tag_of, ticked as ticked_of, wrote};
ghost use Rattle.sms_handset.specs.Planning.{adopted, FitsTheHandset, IsPlanOf, Judges, OfDelete, OfDiscard, OfFrame, OfTick, OfWrite, Plans, IsRevised};
ghost use Rattle.sms_handset.specs.Planning.{Stores};
ghost use Rattle.sms_base.specs.Address.{IsAddress};
ghost use Rattle.sms_rows.specs.table.Table.{Rises, row_at};
ghost use Rattle.sms_handset_draft.specs.Regrouping.{Numbered, Regroups};
ghost use Rattle.sms_handset_rows.specs.inbox.OpenIndex.{opening};
ghost use Rattle.sms_handset_rows.specs.inbox.Keys.{entry_key, last_key, mark_key};
ghost use Rattle.sms_handset_rows.specs.outbox.Keys.{out_key};
ghost use Rattle.sms_handset.specs.OwnersActs.{JudgesText, delete as delete_of, delete_out, discard as discard_of, fits_outbox as fits_outbox_of};
ghost use Rattle.sms_handset.specs.SoundCore.{IsSoundCore};
ghost use Rattle.sms_handset.specs.SoundRows.{IsSetup, IsSound, RefusesRows};

use crate::deleting::{delete_and_follow, discard_and_follow};
use crate::event::HandsetEvent;
use crate::plan::Plan;
use crate::receiving::{frame_and_follow, tick_and_follow};
use crate::recover_error::RecoverError;
use crate::refusal::{PlanError, Refusal};
use crate::sound_rows::are_sound;
use crate::writing::write_and_follow;
use sms_base::{Address, Holder, Listed, Moment};
use sms_concat::count_text_parts;
use sms_handset_draft::{Draft, Finished, NoMemory, Rows, Stored};
use sms_handset_rows::inbox::{Entry, OpenGroups, OpenGroupsReserve, Regrouping, slots_in};
use sms_handset_rows::outbox::{Notice, OutEntry};
use sms_link::{Link, Outgoing, Side};
use sms_rows::table::{Key, Table, adopt};
use std::alloc::Global;
use std::marker::Model;

/// A handset: its rows, and all that a restart forgets.
#[derive(Drop)]
pub struct Handset {
    alloc: Global,
    stored: Stored,
    moment: Moment,
    link: Link,
    notices_wanted: u32,
    notices: Table<Notice>,
    is_recovered: bool,
}

impl Model for Handset {
    ghost use Rattle.sms_handset_draft.specs.Draft.{HandsetOf, group_room_of, room_of, rows_of};
    ghost use Rattle.sms_handset_draft.specs.Consistent.{IsConsistent};
    ghost use Rattle.sms_link.specs.declared.ending.Side.TheVariants.{Handset as HandsetSide};
    ghost use Rattle.std.specs.Prelude.{◌≡◌};

    ghost Value = { HandsetOf };

    ghost view = { λ h. record {
      core = record {
        rows = rows_of h.stored;
        moment = h.moment;
        links = h.link.links;
        under_way = h.link.under_way;
        answered = h.link.answered;
        notices_wanted = h.notices_wanted;
        notices = h.notices.rows;
        is_recovered = h.is_recovered;
      };
      room = room_of h.stored;
      groups = group_room_of h.stored;
    } };

    ghost invariant = { λ h. IsConsistent h.stored × (h.link.side ≡ HandsetSide) };
}

impl Handset {
    /// The handset that starts with these rows, if it can: `BadRows` exactly where they are not sound. Its time grows
    /// with the rows. It takes memory for the index of the open groups alone.
    pub fn recover(alloc: Global, rows: Rows) -> Result<Handset, RecoverError>
        requires { IsSetup rows.setup }
        ensures state { IfOk result (λ handset. handset.core ≡ recovered rows) }
        ensures sound { IfOk result (λ handset. IsSoundCore handset.core) }
        ensures refused { IfErr result (λ error. RefusesRows error rows) }
    {
        if !are_sound(&rows) {
            return Err(RecoverError::BadRows);
        }
        Ok(Handset::starting(alloc, rows)?)
    }

    // The same on sound rows.
    #[tactic(auto, using(crate::proofs::GroupStages::sound_numbers))]
    fn starting(alloc: Global, rows: Rows) -> Result<Handset, NoMemory>
        requires { IsSound rows }
        ensures state { IfOk result (λ handset. handset.core ≡ recovered rows) }
        ensures sound { IfOk result (λ handset. IsSoundCore handset.core) }
    {
        Handset::with_rows(alloc, rows)
    }

    // The same on rows in the order of their keys, whose entries have numbers that were given.
    fn with_rows(alloc: Global, rows: Rows) -> Result<Handset, NoMemory>
        requires entries { Rises entry_key rows.entries }
        requires last { Rises last_key rows.last }
        requires outbox { Rises out_key rows.outbox }
        requires marks { Rises mark_key rows.marks }
        requires centre { IsAddress rows.setup.centre }
        requires numbers { Numbered rows }
        ensures { IfOk result (λ handset. handset.core ≡ recovered rows) }
    {
        let groups = OpenGroups::of(alloc, rows.entries.as_slice())?;
        let taken = slots_in(rows.entries.as_slice())?;
        let setup = rows.setup;
        let counters = rows.counters;
        let moment = setup.start;
        let entries = Table::from_vec(rows.entries.into_vec());
        let last = Table::from_vec(rows.last.into_vec());
        let outbox = Table::from_vec(rows.outbox.into_vec());
        let marks = Table::from_vec(rows.marks.into_vec());
        Ok(Handset {
            alloc,
            stored: Stored {
                entries,
                groups,
                taken,
                last,
                outbox,
                marks,
                counters,
                setup,
            },
            moment,
            link: Link::new(alloc, Side::Handset),
            notices_wanted: 0,
            notices: Table::new(alloc),
            is_recovered: true,
        })
    }

    /// The entries of the inbox, parts of open groups among them, in the order of their numbers.
    pub fn inbox(&self) -> &[Entry]
        ensures { result.now ≡ self.now.core.rows.entries }
    {
        self.stored.entries.as_slice()
    }

    /// The entries of the outbox, finished ones among them, in the order of their numbers.
    pub fn outbox(&self) -> &[OutEntry]
        ensures { result.now ≡ self.now.core.rows.outbox }
    {
        self.stored.outbox.as_slice()
    }

    /// What an event changes and sends. The handset is as it was until the plan is adopted.
    pub fn plan(&self, event: &HandsetEvent<'_>) -> Result<Plan, PlanError>
        ensures frame { OfFrame event.now (λ octets tag. Plans result self.now (Ok (frame_received_of octets (tag_of tag) self.now.core))) }
        ensures tick { OfTick event.now (λ now. Plans result self.now (Ok (ticked_of now self.now.core))) }
        ensures write { OfWrite event.now (λ text to report. Plans result self.now (wrote text to report self.now.core)) }
        ensures delete { OfDelete event.now (λ entry. Plans result self.now (deleted entry self.now.core)) }
        ensures discard { OfDiscard event.now (λ entry. Plans result self.now (discarded entry self.now.core)) }

        // What every plan is good for.
        ensures fits { IfOk result (λ planned. FitsTheHandset planned self.now) }
        // What is accepted is stored.
        ensures stored { IfOk result (Stores self.now) }
        // A handset that was sound is sound with the plan put in: it recovers from the rows that were committed.
        ensures sound { IsSoundCore self.now.core → IfOk result (λ planned. IsSoundCore (adopted planned.outcome self.now.core)) }
    {
        self.plan_of(event)
    }

    /// Puts a plan in that was made for this handset as it is, once its changes are committed: gives the frames to
    /// send. It takes no memory.
    pub fn adopt(&mut self, planned: Plan) -> Listed<Outgoing>
        requires fits { FitsTheHandset planned self.old }
        ensures state { self.new.core ≡ adopted planned.outcome self.old.core }
        ensures frames { result ≡ planned.outcome.frames }
    {
        let Finished {
            changes,
            frames,
            moment,
            link,
            notices_wanted,
            notices,
            is_recovered,
            taken,
        } = planned.finished;
        self.stored.groups.use_reserve(planned.reserve_groups);
        self.stored.groups.apply(planned.regrouping);
        self.stored.taken = taken;
        adopt(&mut self.stored.entries, changes.entries);
        adopt(&mut self.stored.last, changes.last);
        adopt(&mut self.stored.outbox, changes.outbox);
        adopt(&mut self.stored.marks, changes.marks);
        self.stored.counters = changes.counters.unwrap_or(self.stored.counters);
        self.moment = moment;
        self.link = link;
        self.notices_wanted = notices_wanted;
        self.notices = notices;
        self.is_recovered = is_recovered;
        frames
    }
}

impl Handset {
    // The handset as an event begins.
    fn draft(&self) -> Result<Draft<'_>, NoMemory>
        ensures { IfOk result (λ draft. draft ≡ draft_of self.now.core) }
    {
        let notices = Vec::from_slice(self.alloc, self.notices.as_slice())?;
        Ok(Draft::of(
            self.alloc,
            &self.stored,
            self.moment,
            self.link.copy()?,
            self.notices_wanted,
            Table::from_vec(notices),
            self.is_recovered,
        ))
    }

    // The plan of an event, by its kind.
    fn plan_of(&self, event: &HandsetEvent<'_>) -> Result<Plan, PlanError>
        ensures frame { OfFrame event.now (λ octets tag. Plans result self.now (Ok (frame_received_of octets (tag_of tag) self.now.core))) }
        ensures tick { OfTick event.now (λ now. Plans result self.now (Ok (ticked_of now self.now.core))) }
        ensures write { OfWrite event.now (λ text to report. Plans result self.now (wrote text to report self.now.core)) }
        ensures delete { OfDelete event.now (λ entry. Plans result self.now (deleted entry self.now.core)) }
        ensures discard { OfDiscard event.now (λ entry. Plans result self.now (discarded entry self.now.core)) }

        // What every plan is good for.
        ensures fits { IfOk result (λ planned. FitsTheHandset planned self.now) }
    {
        match event {
            HandsetEvent::Frame { octets, tag } => self.plan_frame(octets.as_slice(), *tag),
            HandsetEvent::Tick { now } => self.plan_tick(*now),
            HandsetEvent::Write { text, to, report } => {
                self.plan_write(text.as_str(), to.as_str(), *report)
            }
            HandsetEvent::Delete { entry } => self.plan_delete(*entry),
            HandsetEvent::Discard { entry } => self.plan_discard(*entry),
        }
    }

    // The draft's outcome, with memory for the rows that come.
    fn planned(&self, draft: Draft<'_>, regrouping: Regrouping) -> Result<Plan, NoMemory>
        requires groups { Regroups regrouping self.now.core.rows draft.rows }
        requires rests { IsRevised self.now.core.rows draft }
        ensures { IfOk result (IsPlanOf draft.entry self.now) }
    {
        // The call tells that the entries stand in order.
        let _in_order = self.stored.entries.as_slice();
        let reserve_groups = match self.reserve_groups(&regrouping) {
            Ok(reserve_groups) => reserve_groups,
            Err(error) => {
                drop(draft);
                return Err(error);
            }
        };
        let finished = draft.finish(&self.stored)?;
        Ok(Plan {
            finished,
            regrouping,
            reserve_groups,
        })
    }

    // Memory for the group that opens.
    fn reserve_groups(&self, regrouping: &Regrouping) -> Result<OpenGroupsReserve, NoMemory>
        ensures { IfOk result (λ reserve. self.now.groups.taken + opening regrouping.now ≤ max self.now.groups.capacity reserve) }
    {
        Ok(self.stored.groups.make_reserve(self.alloc, regrouping)?)
    }

    #[tactic(auto, using(crate::proofs::GroupStages::frame_regroups, crate::proofs::Resting::frame_rests))]
    fn plan_frame(&self, octets: &[u8], tag: Option<Holder>) -> Result<Plan, PlanError>
        ensures plan { Plans result self.now (Ok (frame_received_of octets.now (tag_of tag) self.now.core)) }
        ensures fits { IfOk result (λ planned. FitsTheHandset planned self.now) }
    {
        let mut draft = self.draft()?;
        let tag = tag.unwrap_or(Holder::Entry(0));
        match frame_and_follow(&mut draft, octets, tag) {
            Ok(regrouping) => Ok(self.planned(draft, regrouping)?),
            Err(error) => {
                drop(draft);
                Err(PlanError::from(error))
            }
        }
    }

    #[tactic(auto, using(crate::proofs::GroupStages::tick_regroups, crate::proofs::Resting::tick_rests))]
    fn plan_tick(&self, now: Moment) -> Result<Plan, PlanError>
        ensures plan { Plans result self.now (Ok (ticked_of now self.now.core)) }
        ensures fits { IfOk result (λ planned. FitsTheHandset planned self.now) }
    {
        let mut draft = self.draft()?;
        match tick_and_follow(&mut draft, now) {
            Ok(()) => Ok(self.planned(draft, Regrouping::Unchanged)?),
            Err(error) => {
                drop(draft);
                Err(PlanError::from(error))
            }
        }
    }

    // Whether the outbox has room for so many parts, and numbers are left.
    fn fits_outbox(&self, parts: u8) -> bool
        ensures { result ≡ fits_outbox_of parts (draft_of self.now.core) }
    {
        if self.stored.outbox.as_slice().len() + usize::from(parts) <= 20 {
            u64::from(self.stored.counters.entry) + u64::from(parts) <= 4294967295
        } else {
            false
        }
    }

    // The destination of the owner's text, an international number of the telephone numbering plan, or why the text is
    // refused, before memory is asked for: one of more than 20 parts first, then a faulty number, then a full outbox.
    fn judge_text(&self, text: &str, to: &str) -> Result<Address, Refusal>
        ensures { JudgesText result (chars text.now) (chars to.now) (draft_of self.now.core) }
    {
        let Ok(parts) = count_text_parts(text) else {
            return Err(Refusal::TooManyParts);
        };
        let destination = match Address::new(1, 1, to) {
            Ok(destination) => destination,
            Err(fault) => return Err(Refusal::Destination(fault)),
        };
        if self.fits_outbox(parts) {
            Ok(destination)
        } else {
            Err(Refusal::OutboxFull)
        }
    }

    fn plan_write(&self, text: &str, to: &str, report: bool) -> Result<Plan, PlanError>
        ensures plan { Plans result self.now (wrote (chars text.now) (chars to.now) report self.now.core) }
        ensures fits { IfOk result (λ planned. FitsTheHandset planned self.now) }
    {
        let destination = match self.judge_text(text, to) {
            Ok(destination) => destination,
            Err(refusal) => return Err(PlanError::Refused(refusal)),
        };
        let mut draft = self.draft()?;
        match write_and_follow(&mut draft, text, &destination, report) {
            Ok(()) => Ok(self.planned(draft, Regrouping::Unchanged)?),
            Err(error) => {
                drop(draft);
                Err(PlanError::from(error))
            }
        }
    }

    // Why the owner's act is refused, before memory is asked for.
    fn refuses_delete(&self, number: u32) -> Option<Refusal>
        ensures { Judges result (delete_of number (draft_of self.now.core)) }
    {
        let Some(entry) = self.stored.entries.find(Key::of(u64::from(number))) else {
            return self.refuses_delete_out(number);
        };
        if entry.message.is_open_part() {
            return Some(Refusal::StillOpen);
        }
        None
    }

    fn refuses_delete_out(&self, number: u32) -> Option<Refusal>
        ensures { Judges result (delete_out number (row_at out_key number self.now.core.rows.outbox) (draft_of self.now.core)) }
    {
        let Some(entry) = self.stored.outbox.find(Key::of(u64::from(number))) else {
            return Some(Refusal::NoEntry);
        };
        if entry.state.is_unfinished() {
            return Some(Refusal::StillOpen);
        }
        None
    }

    fn refuses_discard(&self, number: u32) -> Option<Refusal>
        ensures { Judges result (discard_of number (draft_of self.now.core)) }
    {
        if self.stored.groups.at(number).is_none() {
            return Some(Refusal::NoEntry);
        }
        if self.stored.marks.as_slice().len() >= 64 {
            return Some(Refusal::TooManyDiscarded);
        }
        None
    }

    fn plan_delete(&self, entry: u32) -> Result<Plan, PlanError>
        ensures plan { Plans result self.now (deleted entry self.now.core) }
        ensures fits { IfOk result (λ planned. FitsTheHandset planned self.now) }
    {
        if let Some(refusal) = self.refuses_delete(entry) {
            return Err(PlanError::Refused(refusal));
        }
        let mut draft = self.draft()?;
        match delete_and_follow(&mut draft, entry) {
            Ok(()) => Ok(self.planned(draft, Regrouping::Unchanged)?),
            Err(error) => {
                drop(draft);
                Err(error)
            }
        }
    }

    fn plan_discard(&self, entry: u32) -> Result<Plan, PlanError>
        ensures plan { Plans result self.now (discarded entry self.now.core) }
        ensures fits { IfOk result (λ planned. FitsTheHandset planned self.now) }
    {
        if let Some(refusal) = self.refuses_discard(entry) {
            return Err(PlanError::Refused(refusal));
        }
        let mut draft = self.draft()?;
        match discard_and_follow(&mut draft, entry) {
            Ok(()) => Ok(self.planned(draft, Regrouping::Closed { first: entry })?),
            Err(error) => {
                drop(draft);
                Err(error)
            }
        }
    }
}
