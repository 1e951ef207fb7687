//! What the premises of the claims are decided by.
ghost use Rattle.std.specs.Prelude.{◌≡◌, ◌++◌, ◌∷◌, [], List, Some, if◌then◌else◌, IfOk, OnOk};
ghost use Rattle.std.specs.Map.{lookup};
ghost use Rattle.sms_base.specs.declared.holder.Holder.{Holder as HolderOf};
ghost use Rattle.sms_world_model.specs.RoundKeys.{is_same_round, placed_at};
ghost use Rattle.sms_world_model.specs.declared.round_key.RoundKey.{RoundKey as RoundKeyOf};
ghost use Rattle.sms_play.specs.judging.Watching.{HasHolders, IsPlacedAs, IsPut, Offers, Watches, all_arrived_in, arrived_in, begins_in};
ghost use Rattle.sms_play.specs.judging.Watching.{is_accepted as is_accepted_in, is_same_allocation, is_up, member_numbers, pair_accepted, pair_in, round_at};
ghost use Rattle.sms_play.specs.Premises.{giver, is_held_by, is_same_holder, is_timely as is_timely_of, may_begin as may_begin_of};
ghost use Rattle.sms_script.specs.declared.report.rows.GivenRow.{GivenRow as GivenRowOf};
ghost use Rattle.sms_tpdu.specs.MoreMessages.{compared};
ghost use Rattle.sms_world_model.specs.Groups.{is_among};
ghost use Rattle.sms_world_model.specs.Place.{Place as PlaceOf, place_in as place_in_octets};
ghost use Rattle.sms_world_model.specs.World.{Accepted, Allocation as AllocationOf};

use indexmap::IndexMap;
use sms_base::{Digits, Holder, Kind, Listed};
use sms_rows::interning::Number;
use sms_script::report::{AcceptedRow, Direction, FrameRow, GivenRow};
use sms_tpdu::set_more_messages;
use sms_world_model::round_key::{Place, RoundKey, place_in};
use std::alloc::{AllocError, Global};

// A reference at a handset, given by the side that sends that way.
#[derive(Clone, Copy, PartialEq, Eq, Hash)]
pub(crate) struct Allocation {
    pub(crate) handset: Number,
    pub(crate) is_up: bool,
    pub(crate) reference: u8,
}

// What a handset accepted: the TPDU as it is compared.
#[derive(Drop, PartialEq, Eq, Hash)]
pub(crate) struct Pair {
    pub(crate) handset: Number,
    pub(crate) reference: u8,
    pub(crate) tpdu: Vec<u8>,
}

// A part of a present round.
#[derive(Drop)]
pub(crate) struct Member {
    pub(crate) number: u8,
    pub(crate) pair: Pair,
}

/// The latest holder of each reference, the present round of each key, and all that was accepted.
#[derive(Drop)]
pub(crate) struct Watch {
    alloc: Global,
    pub(crate) holders: IndexMap<Allocation, Holder>,
    pub(crate) rounds: IndexMap<RoundKey, Listed<Member>>,
    pub(crate) accepted: IndexMap<Pair, ()>,
}

fn is_upwards(direction: Direction) -> bool
    ensures { result ≡ is_up direction }
{
    match direction {
        Direction::Up => true,
        Direction::Down => false,
    }
}

// Data go away from the side that gave the reference, answers towards it.
fn is_given_up(direction: Direction, kind: Kind) -> bool
    ensures { result ≡ is_up (giver direction kind) }
{
    match (direction, kind) {
        (Direction::Up, Kind::Data) => true,
        (Direction::Down, Kind::Data) => false,
        (Direction::Up, _) => false,
        (Direction::Down, _) => true,
    }
}

// Whether two holders are one is decided as the premises have it.
fn holders_are_distinct()
    ensures { (a b : HolderOf) → ⟦<Holder as PartialEq>⟧.eq a b ≡ is_same_holder a b }
{}

#[tactic(auto, unfolding(sms_tpdu::specs::MoreMessages::compared))]
fn pair_of(alloc: Global, handset: Digits, reference: u8, tpdu: &[u8]) -> Result<Pair, AllocError>
    ensures { IfOk result (λ pair. pair_in pair ≡ record { handset = handset; reference = reference; tpdu = compared tpdu.now }) }
{
    let mut tpdu = Vec::from_slice(alloc, tpdu)?;
    set_more_messages(tpdu.as_mut_slice(), false);
    Ok(Pair {
        handset: Number { digits: handset },
        reference,
        tpdu,
    })
}

// The place of what is offered, if it is a part.
fn place_of(pair: &Pair) -> Option<Place>
    ensures { result ≡ placed_at pair.now.handset.digits (place_in_octets pair.now.tpdu.items) }
{
    place_in(pair.handset.digits, pair.tpdu.as_slice())
}

// Whether the part of that number is one of the round.
fn is_in_round(number: u8, round: &[Member]) -> bool
    ensures { result ≡ is_among number (member_numbers round.now) }
{
    for member in round {
        if member.number == number {
            return true;
        }
    }
    false
}

// A round of this part alone.
fn round_of(alloc: Global, member: Member) -> Result<Listed<Member>, AllocError>
    ensures { IfOk result (λ round. round ≡ member ∷ []) }
{
    let mut round = Listed::new(alloc);
    round.push(member)?;
    Ok(round)
}

// The part begins a round of the key.
fn begin(
    alloc: Global,
    rounds: &mut IndexMap<RoundKey, Listed<Member>>,
    key: &RoundKey,
    member: Member,
) -> Result<(), AllocError>
    ensures { OnOk result ((k : RoundKeyOf) → round_at k rounds.new.entries ≡
        (if is_same_round key.now k then member ∷ [] else round_at k rounds.old.entries)) }
{
    let round = round_of(alloc, member)?;
    rounds.insert(*key, round)?;
    Ok(())
}

// The part joins the present round of the key, or begins the first.
fn continue_round(
    alloc: Global,
    rounds: &mut IndexMap<RoundKey, Listed<Member>>,
    key: &RoundKey,
    member: Member,
) -> Result<(), AllocError>
    ensures { OnOk result ((k : RoundKeyOf) → round_at k rounds.new.entries ≡
        (if is_same_round key.now k then round_at key.now rounds.old.entries ++ member ∷ [] else round_at k rounds.old.entries)) }
{
    match rounds.get_mut(key) {
        Some(round) => {
            round.push(member)?;
            Ok(())
        }
        None => {
            begin(alloc, rounds, key, member)?;
            Ok(())
        }
    }
}

// The part joins the present round of the key, or begins the next.
fn put_member(
    alloc: Global,
    rounds: &mut IndexMap<RoundKey, Listed<Member>>,
    key: &RoundKey,
    is_next: bool,
    member: Member,
) -> Result<(), AllocError>
    requires { is_next ≡ is_among member.number (member_numbers (round_at key.now rounds.old.entries)) }
    ensures { OnOk result (IsPut key.now member rounds.old.entries rounds.new.entries) }
{
    if is_next {
        begin(alloc, rounds, key, member)?;
        Ok(())
    } else {
        continue_round(alloc, rounds, key, member)?;
        Ok(())
    }
}

impl Watch {
    /// Nothing was given, submitted or accepted yet.
    pub(crate) fn new(alloc: Global) -> Watch
        ensures { Watches [] [] [] result }
    {
        Watch {
            alloc,
            holders: IndexMap::new(alloc),
            rounds: IndexMap::new(alloc),
            accepted: IndexMap::new(alloc),
        }
    }

    // Whether the reference was given to that holder last.
    fn is_held(&self, allocation: &Allocation, holder: Holder) -> bool
        ensures { result ≡ is_held_by holder (lookup (is_same_allocation allocation.now) self.now.holders.entries) }
    {
        holders_are_distinct();
        match self.holders.get(allocation) {
            Some(last) => holder == *last,
            None => false,
        }
    }

    /// Whether the latest giving of the frame's reference is to the holder for which the frame was made.
    pub(crate) fn is_timely(&self, frame: &FrameRow) -> bool
        ensures { (given : List GivenRowOf) → HasHolders given self.now.holders.entries → result ≡ is_timely_of frame.now frame.now.carried given }
    {
        let Some(carried) = frame.carried else {
            return true;
        };
        let allocation = Allocation {
            handset: Number {
                digits: frame.handset,
            },
            is_up: is_given_up(frame.direction, carried.kind),
            reference: carried.reference,
        };
        self.is_held(&allocation, carried.tag)
    }

    /// A reference was given.
    pub(crate) fn note_given(&mut self, row: &GivenRow) -> Result<(), AllocError>
        ensures { (given : List GivenRowOf) (down : List AllocationOf) (accepted : List Accepted) → Watches given down accepted self.old
            → OnOk result (Watches (given ++ row.now ∷ []) down accepted self.new) }
    {
        let allocation = Allocation {
            handset: Number {
                digits: row.handset,
            },
            is_up: is_upwards(row.direction),
            reference: row.reference,
        };
        self.holders.insert(allocation, row.holder)?;
        Ok(())
    }

    /// A handset accepted that.
    pub(crate) fn note_accepted(&mut self, row: &AcceptedRow) -> Result<(), AllocError>
        ensures { (given : List GivenRowOf) (down : List AllocationOf) (accepted : List Accepted) → Watches given down accepted self.old
            → OnOk result (Watches given down (pair_accepted row.now ∷ accepted) self.new) }
    {
        let pair = pair_of(self.alloc, row.handset, row.reference, row.tpdu.as_slice())?;
        self.accepted.insert(pair, ())?;
        Ok(())
    }

    fn is_accepted(&self, pair: &Pair) -> bool
        ensures { result ≡ is_accepted_in pair.now self.now.accepted.entries }
    {
        self.accepted.contains_key(pair)
    }

    // One of these is the part of that number, and it was accepted.
    fn has_arrived(&self, number: u8, round: &[Member]) -> bool
        ensures { result ≡ arrived_in number round.now self.now.accepted.entries }
    {
        for member in round {
            if member.number == number && self.is_accepted(&member.pair) {
                return true;
            }
        }
        false
    }

    fn all_arrived(&self, total: u8, round: &[Member]) -> bool
        ensures { result ≡ all_arrived_in total round.now self.now.accepted.entries }
    {
        for number in 0..total {
            if !self.has_arrived(number + 1, round) {
                return false;
            }
        }
        true
    }

    // The present round of the key.
    fn round(&self, key: &RoundKey) -> &[Member]
        ensures { result.now ≡ round_at key.now self.now.rounds.entries }
    {
        match self.rounds.get(key) {
            Some(round) => round.as_slice(),
            None => &[],
        }
    }

    // Whether the part joins the present round, or begins the next where it may.
    fn may_begin(&self, place: &Place) -> bool
        ensures { result ≡ begins_in place.now (round_at place.now.key self.now.rounds.entries) self.now.accepted.entries }
    {
        let round = self.round(&place.key);
        if is_in_round(place.number, round) {
            self.all_arrived(place.key.total, round)
        } else {
            true
        }
    }

    // The part joins the present round of its key, or begins the next.
    fn put(&mut self, place: &Place, pair: Pair) -> Result<(), AllocError>
        ensures { (given : List GivenRowOf) (down : List AllocationOf) (accepted : List Accepted) (p : PlaceOf) (g : AllocationOf)
            → Watches given down accepted self.old → place_in_octets (pair_in pair).tpdu ≡ Some p
            → IsPlacedAs place.now (pair_in pair).handset p → Offers (pair_in pair) g → OnOk result (Watches given (g ∷ down) accepted self.new) }
    {
        let number = place.number;
        let is_next = is_in_round(number, self.round(&place.key));
        let member = Member { number, pair };
        put_member(self.alloc, &mut self.rounds, &place.key, is_next, member)?;
        Ok(())
    }

    // The part is submitted at that place.
    fn enter(&mut self, place: &Place, pair: Pair) -> Result<bool, AllocError>
        ensures begins { (given : List GivenRowOf) (down : List AllocationOf) (accepted : List Accepted) (p : PlaceOf) → Watches given down accepted self.old
            → place_in_octets (pair_in pair).tpdu ≡ Some p
            → IsPlacedAs place.now (pair_in pair).handset p → IfOk result (λ may. may ≡ may_begin_of (pair_in pair) down accepted) }
        ensures put { (given : List GivenRowOf) (down : List AllocationOf) (accepted : List Accepted) (p : PlaceOf) (g : AllocationOf)
            → Watches given down accepted self.old → place_in_octets (pair_in pair).tpdu ≡ Some p
            → IsPlacedAs place.now (pair_in pair).handset p → Offers (pair_in pair) g → OnOk result (Watches given (g ∷ down) accepted self.new) }
    {
        let may = self.may_begin(place);
        self.put(place, pair)?;
        Ok(may)
    }

    /// A part is submitted to the handset under that reference. It answers whether the part may be in its place. It may
    /// continue the present round of its key, or begin the next, all of the present one having been accepted.
    pub(crate) fn submit(
        &mut self,
        handset: Digits,
        reference: u8,
        tpdu: &[u8],
    ) -> Result<bool, AllocError>
        ensures begins { (given : List GivenRowOf) (down : List AllocationOf) (accepted : List Accepted) → Watches given down accepted self.old
            → IfOk result (λ may. may ≡ may_begin_of (record { handset = handset; reference = reference; tpdu = compared tpdu.now }) down accepted) }
        ensures put { (given : List GivenRowOf) (down : List AllocationOf) (accepted : List Accepted) (g : AllocationOf) → Watches given down accepted self.old
            → Offers (record { handset = handset; reference = reference; tpdu = compared tpdu.now }) g → OnOk result
            (Watches given (g ∷ down) accepted self.new) }
    {
        let pair = pair_of(self.alloc, handset, reference, tpdu)?;
        match place_of(&pair) {
            Some(place) => {
                let may = self.enter(&place, pair)?;
                Ok(may)
            }
            None => Ok(true),
        }
    }
}
