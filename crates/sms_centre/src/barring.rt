//! The bars that stand for the messages that a centre forgets.
ghost use Rattle.std.specs.Prelude.{◌≡◌, ◌∷◌, [], ◌++◌, List, IfOk, OnOk};
ghost use Rattle.std.specs.List.{list_any};
ghost use Rattle.sms_centre_rows.specs.declared.messages.claim.Claim.{Claim as ClaimOf};
ghost use Rattle.sms_centre_rows.specs.messages.Bars.{bar_of as bar_of_claim, claims_of, is_barred};
ghost use Rattle.sms_centre_rows.specs.messages.Messages.{message_at};
ghost use Rattle.sms_centre_spec.specs.Draft.{Core};
ghost use Rattle.sms_centre_spec.specs.forgetting.Forget.{bars_put, claims_at, claims_by};
ghost use Rattle.sms_centre.specs.Barring.{ArePut, IsPut, is_for as is_for_of, puts_for as puts_for_of, puts_of};
ghost use Rattle.sms_centre.specs.state.CentreState.{Represents as StateRepresents};

use crate::state::CentreState;
use sms_base::{Listed, MessageId};
use sms_centre_rows::conditions::is_same_address;
use sms_centre_rows::messages::{BarRow, Claim, MessageRow as Message};
use sms_rows::table::Change;
use std::alloc::{AllocError, Global};

// ---- what the messages lay claim to

fn add_found(
    state: &CentreState,
    message: Message,
    claims: &mut Vec<Claim>,
) -> Result<(), AllocError>
    ensures { (c : Core) → StateRepresents c state.now → OnOk result (claims.new.items ≡ claims.old.items ++ claims_of message c.rows.parts) }
{
    let added = state.messages.add_claims(&message, claims);
    drop(message);
    added
}

// That of the message of that number, if it is there, is put behind these claims.
fn add(
    alloc: Global,
    state: &CentreState,
    id: MessageId,
    claims: &mut Vec<Claim>,
) -> Result<(), AllocError>
    ensures { (c : Core) → StateRepresents c state.now
        → OnOk result (claims.new.items ≡ claims.old.items ++ claims_at (message_at id c.rows.messages) c.rows.parts) }
{
    let found = state.messages.find(alloc, id)?;
    match found {
        Some(message) => add_found(state, message, claims),
        None => Ok(()),
    }
}

fn add_each(
    alloc: Global,
    state: &CentreState,
    ids: &[MessageId],
    claims: &mut Vec<Claim>,
) -> Result<(), AllocError>
    ensures { (c : Core) → StateRepresents c state.now
        → OnOk result (claims.new.items ≡ claims.old.items ++ claims_by ids.now c.rows.messages c.rows.parts) }
{
    for id in ids {
        add(alloc, state, *id, claims)?;
    }
    Ok(())
}

// ---- their bars

// The bars that are put, and the place of the next one. None past 64 bits.
#[derive(Drop)]
struct NewBars {
    changes: Vec<Change<BarRow>>,
    next: Option<u64>,
}

// It stands for the claim of a header.
fn is_for(bar: &BarRow, claim: &Claim) -> bool
    ensures { result ≡ is_for_of claim.now bar.now }
{
    is_same_address(&bar.source, &claim.source)
        && bar.handset == claim.handset
        && bar.is_own
        && bar.reference == claim.reference
}

fn puts_for(change: &Change<BarRow>, claim: &Claim) -> bool
    ensures { result ≡ puts_for_of claim.now change.now }
{
    match change {
        Change::Put(bar) => is_for(bar, claim),
        Change::Remove(_) => false,
    }
}

fn is_put(changes: &[Change<BarRow>], claim: &Claim) -> bool
    ensures { result ≡ list_any (puts_for_of claim.now) changes.now }
{
    changes.iter().any(|change| puts_for(change, claim))
}

// A bar stands for the claim, or is put for it.
fn is_kept(state: &CentreState, bars: &NewBars, claim: &Claim) -> bool
    ensures { (c : Core) → StateRepresents c state.now → result ≡ is_barred claim.now (c.rows.bars ++ puts_of bars.now.changes.items) }
{
    if state.reference_index.is_stood_for(claim) {
        return true;
    }
    if !claim.is_own {
        return false;
    }
    is_put(bars.changes.as_slice(), claim)
}

fn bar_of(claim: &Claim, place: u64) -> BarRow
    ensures { result ≡ bar_of_claim claim.now place }
{
    BarRow {
        place,
        source: claim.source,
        handset: claim.handset,
        reference: claim.reference,
        is_own: claim.is_own,
    }
}

impl NewBars {
    fn put(&mut self, claim: &Claim) -> Result<(), AllocError>
        ensures { OnOk result (IsPut claim.now self.old self.new) }
    {
        let Some(place) = self.next else {
            return Err(AllocError);
        };
        self.changes.push(Change::Put(bar_of(claim, place)))?;
        self.next = place.checked_add(1);
        Ok(())
    }
}

// The claim's bar is put, unless one stands for it.
fn keep(state: &CentreState, bars: &mut NewBars, claim: &Claim) -> Result<(), AllocError>
    ensures { (c : Core) (claims left : List ClaimOf) → StateRepresents c state.now → ArePut c.rows.bars claims (claim.now ∷ left) bars.old
        → OnOk result (ArePut c.rows.bars claims left bars.new) }
{
    if is_kept(state, bars, claim) {
        return Ok(());
    }
    bars.put(claim)
}

fn keep_each(state: &CentreState, bars: &mut NewBars, claims: &[Claim]) -> Result<(), AllocError>
    ensures { (c : Core) → StateRepresents c state.now → ArePut c.rows.bars claims.now claims.now bars.old
        → OnOk result (ArePut c.rows.bars claims.now [] bars.new) }
{
    for claim in claims {
        keep(state, bars, claim)?;
    }
    Ok(())
}

fn changes_of(bars: NewBars) -> Listed<Change<BarRow>>
    ensures { result ≡ bars.changes.items }
{
    let NewBars { changes, next: _ } = bars;
    Listed::from_vec(changes)
}

fn bars_of(
    alloc: Global,
    state: &CentreState,
    claims: &[Claim],
) -> Result<Listed<Change<BarRow>>, AllocError>
    ensures { (c : Core) → StateRepresents c state.now → IfOk result (λ bars. bars ≡ bars_put claims.now c.rows.bars) }
{
    let changes = Vec::new(alloc);
    let next = state.reference_index.next_place();
    let mut bars = NewBars { changes, next };
    match keep_each(state, &mut bars, claims) {
        Ok(()) => Ok(changes_of(bars)),
        Err(error) => {
            drop(bars);
            Err(error)
        }
    }
}

fn bars_behind(
    alloc: Global,
    state: &CentreState,
    ids: &[MessageId],
    claims: &mut Vec<Claim>,
) -> Result<Listed<Change<BarRow>>, AllocError>
    ensures { (c : Core) → StateRepresents c state.now → claims.old.items ≡ []
        → IfOk result (λ bars. bars ≡ bars_put (claims_by ids.now c.rows.messages c.rows.parts) c.rows.bars) }
{
    add_each(alloc, state, ids, claims)?;
    let bars = bars_of(alloc, state, claims.as_slice())?;
    Ok(bars)
}

/// The bars that are put once the messages of these numbers go. It looks for each among all that it puts.
pub(crate) fn bars_for(
    alloc: Global,
    state: &CentreState,
    ids: &[MessageId],
) -> Result<Listed<Change<BarRow>>, AllocError>
    ensures { (c : Core) → StateRepresents c state.now
        → IfOk result (λ bars. bars ≡ bars_put (claims_by ids.now c.rows.messages c.rows.parts) c.rows.bars) }
{
    let mut claims = Vec::new(alloc);
    let bars = bars_behind(alloc, state, ids, &mut claims);
    drop(claims);
    bars
}
