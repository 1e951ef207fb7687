//! Whether the premises of the claims hold at each event.
ghost use Rattle.std.specs.Prelude.{◌≡◌, ◌&&◌, ◌<◌, ◌≤◌, ◌++◌, ◌∷◌, [], ℕ, nat_eq, List, Option, None, Some, IfOk, OnOk, drop, length, slice_index};
ghost use Rattle.std.specs.Prelude.{if◌then◌else◌};
ghost use Rattle.sms_play.specs.growth.Growth.{Grows};
ghost use Rattle.sms_play.specs.judging.Premises.{IsNewPlay, or_first, reused};
ghost use Rattle.sms_play.specs.judging.Judging.{Judged, Knows, KnowsTo};
ghost use Rattle.sms_play.specs.judging.Watching.{Watches};
ghost use Rattle.sms_play.specs.PlayState.{PlayState, frame_at as frame_at_number};
ghost use Rattle.sms_play.specs.Premises.{are_fresh, hands_timely as hands_timely_of, is_fresh_event, is_timely_at, is_timely_event, newest_first, pairs_of};
ghost use Rattle.sms_play.specs.Premises.{part_allocation, part_allocations};
ghost use Rattle.sms_script.specs.declared.report.Broken.{Broken as BrokenOf};
ghost use Rattle.sms_script.specs.declared.report.rows.GivenRow.{GivenRow as GivenRowOf};
ghost use Rattle.sms_world_model.specs.World.{Accepted, Allocation};

use crate::judging::scene::{Scene, Watcher};
use crate::judging::watch::Watch;
use crate::staging::frame_at;
use sms_base::Holder;
use sms_script::report::{AcceptedRow, Broken, GivenRow};
use sms_script::{Act, WorldEvent};
use std::alloc::{AllocError, Global};

/// The first event that breaks a premise, and by what it is found.
#[derive(Drop)]
pub struct Judge {
    watch: Watch,
    // How many references were looked at, and of each handset how much that it accepted.
    given: usize,
    accepted: Vec<usize>,
    broken: Option<Broken>,
}

fn both(one: bool, other: bool) -> bool
    ensures { result ≡ (one && other) }
{
    one && other
}

// The rows behind so many.
#[tactic(auto, using(crate::proofs::judging::Looking::at_most))]
fn behind<T>(rows: &[T], count: usize) -> &[T]
    ensures { result.now ≡ drop count rows.now }
{
    &rows[count.min(rows.len())..]
}

// ---- what was given

// A part that was given a reference may begin a round only where it may; the rounds go on with it.
fn submit<S: Scene>(watch: &mut Watch, row: &GivenRow, scene: &S) -> Result<bool, AllocError>
    ensures begins { (c : PlayState) (given : List GivenRowOf) (down : List Allocation) (accepted : List Accepted) → S.represents scene.now c
        → Watches given down accepted watch.old
        → IfOk result (λ may. may ≡ are_fresh (part_allocation c.centre.rows.parts row.now row.now.holder) down accepted) }
    ensures watch { (c : PlayState) (given : List GivenRowOf) (down : List Allocation) (accepted : List Accepted) → S.represents scene.now c
        → Watches given down accepted watch.old
        → OnOk result (Watches given (newest_first down (part_allocation c.centre.rows.parts row.now row.now.holder)) accepted watch.new) }
{
    match row.holder {
        Holder::Part(id, part) => match scene.part_tpdu(id, part) {
            Some(tpdu) => {
                let may = watch.submit(row.handset, row.reference, tpdu)?;
                Ok(may)
            }
            None => Ok(true),
        },
        _ => Ok(true),
    }
}

// Whether what was given begins a round only where it may.
fn look_at_row<S: Scene>(watch: &mut Watch, row: &GivenRow, scene: &S) -> Result<bool, AllocError>
    ensures begins { (c : PlayState) (given : List GivenRowOf) (down : List Allocation) (accepted : List Accepted) → S.represents scene.now c
        → Watches given down accepted watch.old
        → IfOk result (λ may. may ≡ are_fresh (part_allocation c.centre.rows.parts row.now row.now.holder) down accepted) }
    ensures watch { (c : PlayState) (given : List GivenRowOf) (down : List Allocation) (accepted : List Accepted) → S.represents scene.now c
        → Watches given down accepted watch.old
        → OnOk result (Watches (given ++ row.now ∷ []) (newest_first down (part_allocation c.centre.rows.parts row.now row.now.holder)) accepted watch.new) }
{
    let may = submit(watch, row, scene)?;
    watch.note_given(row)?;
    Ok(may)
}

fn look_at_given<S: Scene>(
    watch: &mut Watch,
    rows: &[GivenRow],
    scene: &S,
) -> Result<bool, AllocError>
    ensures begins { (c : PlayState) (given : List GivenRowOf) (down : List Allocation) (accepted : List Accepted) → S.represents scene.now c
        → Watches given down accepted watch.old
        → IfOk result (λ fresh. fresh ≡ are_fresh (part_allocations c.centre.rows.parts rows.now) down accepted) }
    ensures watch { (c : PlayState) (given : List GivenRowOf) (down : List Allocation) (accepted : List Accepted) → S.represents scene.now c
        → Watches given down accepted watch.old
        → OnOk result (Watches (given ++ rows.now) (newest_first down (part_allocations c.centre.rows.parts rows.now)) accepted watch.new) }
{
    let mut fresh = true;
    for row in rows {
        let may = look_at_row(watch, row, scene)?;
        fresh = both(fresh, may);
    }
    Ok(fresh)
}

// ---- what was accepted

fn look_at_accepted(watch: &mut Watch, rows: &[AcceptedRow]) -> Result<(), AllocError>
    ensures { (given : List GivenRowOf) (down : List Allocation) (accepted : List Accepted) → Watches given down accepted watch.old
        → OnOk result (Watches given down (pairs_of accepted rows.now) watch.new) }
{
    for row in rows {
        watch.note_accepted(row)?;
    }
    Ok(())
}

// How much of what the handset at that place accepted was looked at.
fn looked_at(place: usize, counts: &[usize]) -> usize
    ensures { result ≡ slice_index counts.now place }
{
    match counts.get(place) {
        Some(count) => *count,
        None => 0,
    }
}

fn note_looked_at(counts: &mut Vec<usize>, place: usize, count: usize) -> Result<(), AllocError>
    requires { place ≤ length counts.old.items }
    ensures counts { OnOk result ((other : ℕ) → slice_index counts.new.items other ≡
        (if nat_eq place other then count else slice_index counts.old.items other)) }
    ensures places { OnOk result (place < length counts.new.items) }
{
    if place < counts.len() {
        counts[place] = count;
        Ok(())
    } else {
        counts.push(count)?;
        Ok(())
    }
}

impl Judge {
    /// Nothing was looked at yet.
    pub fn new(alloc: Global) -> Judge
        ensures { (c : PlayState) → IsNewPlay c → Judged None c result }
    {
        Judge {
            watch: Watch::new(alloc),
            given: 0,
            accepted: Vec::new(alloc),
            broken: None,
        }
    }

    /// The first event that broke a premise.
    pub fn broken(&self) -> Option<Broken>
        ensures { (broken : Option BrokenOf) (c : PlayState) → Judged broken c self.now → result ≡ broken }
    {
        self.broken
    }

    fn is_frame_timely<S: Scene>(&self, number: u64, scene: &S) -> bool
        ensures { (c : PlayState) → S.represents scene.now c → Knows c self.now → result ≡ is_timely_at (frame_at_number number c.bag) c.given }
    {
        match frame_at(number, scene.bag()) {
            Some(frame) => self.watch.is_timely(frame),
            None => true,
        }
    }

    fn hands_timely<S: Scene>(&self, act: &Act<'_>, scene: &S) -> bool
        ensures { (c : PlayState) → S.represents scene.now c → Knows c self.now → result ≡ hands_timely_of act.now c }
    {
        match act {
            Act::Deliver(number) => self.is_frame_timely(*number, scene),
            _ => true,
        }
    }

    // A stopped event hands over, too.
    fn is_timely<S: Scene>(&self, event: &WorldEvent<'_>, scene: &S) -> bool
        ensures { (c : PlayState) → S.represents scene.now c → Knows c self.now → result ≡ is_timely_event event.now c }
    {
        match event {
            WorldEvent::Whole(act) => self.hands_timely(act, scene),
            WorldEvent::Stopped(_, act) => self.hands_timely(act, scene),
            WorldEvent::Restart(_) => true,
        }
    }

    fn breaks(&mut self, broken: Broken)
        ensures { self.new ≡ record self.old { broken = or_first self.old.broken (Some broken) } }
    {
        if self.broken.is_none() {
            self.broken = Some(broken);
        }
    }

    // What the event gave. Whether that begins rounds only where it may.
    fn take_given<S: Scene>(&mut self, scene: &S) -> Result<bool, AllocError>
        ensures begins { (before after : PlayState) → S.represents scene.now after → Grows before after → Knows before self.old
            → IfOk result (λ fresh. fresh ≡ is_fresh_event before after) }
        ensures knows { (before after : PlayState) → S.represents scene.now after → Grows before after → Knows before self.old
            → OnOk result (KnowsTo 0 before after self.new) }
        ensures broken { self.new.broken ≡ self.old.broken }
    {
        let all = scene.given();
        let rows = behind(all, self.given);
        let fresh = look_at_given(&mut self.watch, rows, scene)?;
        self.given = all.len();
        Ok(fresh)
    }

    // What the handset at that place accepted.
    fn take_accepted_at(&mut self, place: usize, rows: &[AcceptedRow]) -> Result<(), AllocError>
        requires { place ≤ length self.old.accepted.items }
        ensures watch { (given : List GivenRowOf) (down : List Allocation) (accepted : List Accepted) → Watches given down accepted self.old.watch
            → OnOk result (Watches given down (pairs_of accepted (drop (slice_index self.old.accepted.items place) rows.now)) self.new.watch) }
        ensures counts { OnOk result ((other : ℕ) → slice_index self.new.accepted.items other ≡
            (if nat_eq place other then length rows.now else slice_index self.old.accepted.items other)) }
        ensures places { OnOk result (place < length self.new.accepted.items) }
        ensures same { (self.new.broken ≡ self.old.broken) × (self.new.given ≡ self.old.given) }
    {
        let new = behind(rows, looked_at(place, self.accepted.as_slice()));
        look_at_accepted(&mut self.watch, new)?;
        note_looked_at(&mut self.accepted, place, rows.len())?;
        Ok(())
    }

    // What the event had accepted.
    fn take_accepted<S: Scene>(&mut self, scene: &S) -> Result<(), AllocError>
        ensures knows { (before after : PlayState) → S.represents scene.now after → Grows before after → KnowsTo 0 before after self.old
            → OnOk result (Knows after self.new) }
        ensures broken { self.new.broken ≡ self.old.broken }
    {
        for place in 0..scene.handsets() {
            self.take_accepted_at(place, scene.accepted(place))?;
        }
        Ok(())
    }

    // What the event submitted is looked at before what it had accepted.
    fn look<S: Scene>(&mut self, number: u64, scene: &S) -> Result<(), AllocError>
        ensures { (before after : PlayState) → S.represents scene.now after → Grows before after → Judged None before self.old
            → OnOk result (Judged (reused number before after) after self.new) }
    {
        let is_fresh = self.take_given(scene)?;
        self.take_accepted(scene)?;
        if !is_fresh {
            self.breaks(Broken::Reused(number));
        }
        Ok(())
    }
}

impl Watcher for Judge {
    ghost use Rattle.sms_play.specs.judging.Judging.{Judged};

    ghost has_seen = { λ judge broken c. Judged broken c judge };

    // A frame that the event hands over is looked at before what it gives.
    fn before<S: Scene>(
        &mut self,
        number: u64,
        event: &WorldEvent<'_>,
        scene: &S,
    ) -> Result<(), AllocError> {
        if !self.is_timely(event, scene) {
            self.breaks(Broken::Timely(number));
        }
        Ok(())
    }

    fn after<S: Scene>(
        &mut self,
        number: u64,
        _event: &WorldEvent<'_>,
        scene: &S,
    ) -> Result<(), AllocError> {
        if self.broken.is_some() {
            return Ok(());
        }
        self.look(number, scene)?;
        Ok(())
    }
}
