//! References: which are held, and the next that is free.
ghost use Rattle.std.specs.Prelude.{◌≡◌, ◌+◌, ◌%◌, ◌++◌, IfOk, OnOk};
ghost use Rattle.sms_handset_rows.specs.outbox.References.{held_by_entries, held_by_notices, held_message_references as held_message_references_of};
ghost use Rattle.sms_handset_rows.specs.outbox.References.{held_references as held_references_of, next_free as next_free_of};

use crate::inbox::is_among;
use crate::outbox::notice::Notice;
use crate::outbox::out_view::OutView;
use sms_base::Octets;
use std::alloc::{AllocError, Global};

/// The reference after `reference`: 0 after 255.
pub fn following(reference: u8) -> u8
    ensures { result ≡ (reference + 1) % 256 }
{
    reference.wrapping_add(1)
}

/// The first reference from `reference` on, around from 255 to 0, that is not held.
#[tactic(auto, using(crate::proofs::outbox::FreeReferences::free_held, crate::proofs::outbox::FreeReferences::free_here))]
pub fn next_free(reference: u8, held: &[u8]) -> u8
    ensures { result ≡ next_free_of reference held.now }
{
    let mut free = reference;
    for turn in 0u16..256 {
        if !is_among(free, held) {
            return free;
        }
        free = following(free);
    }
    free
}

/// The TP-MRs that the unfinished entries hold.
pub fn held_message_references(alloc: Global, outbox: &[OutView<'_>]) -> Result<Octets, AllocError>
    ensures { IfOk result (λ held. held ≡ held_message_references_of outbox.now) }
{
    let mut held = Octets::with_capacity(alloc, outbox.len())?;
    for view in outbox {
        let entry = view.entry();
        if entry.state.is_unfinished() {
            held.push(entry.message_reference)?;
        }
    }
    Ok(held)
}

// The references that the unfinished entries hold, behind others.
fn push_held(held: &mut Octets, outbox: &[OutView<'_>]) -> Result<(), AllocError>
    ensures { OnOk result (held.new ≡ held.old ++ held_by_entries outbox.now) }
{
    for view in outbox {
        let entry = view.entry();
        if entry.state.is_unfinished() {
            held.push(entry.reference)?;
        }
    }
    Ok(())
}

// The references that the RP-SMMA hold that have not ended.
fn push_noticed(held: &mut Octets, notices: &[Notice]) -> Result<(), AllocError>
    ensures { OnOk result (held.new ≡ held.old ++ held_by_notices notices.now) }
{
    for notice in notices {
        held.push(notice.reference)?;
    }
    Ok(())
}

// The references that both hold, behind others.
fn push_all(held: &mut Octets, notices: &[Notice], outbox: &[OutView<'_>]) -> Result<(), AllocError>
    ensures { OnOk result (held.new ≡ (held.old ++ held_by_notices notices.now) ++ held_by_entries outbox.now) }
{
    push_noticed(held, notices)?;
    push_held(held, outbox)
}

/// The references that RP-SMMA hold that have not ended, and the unfinished entries.
pub fn held_references(
    alloc: Global,
    notices: &[Notice],
    outbox: &[OutView<'_>],
) -> Result<Octets, AllocError>
    ensures { IfOk result (λ held. held ≡ held_references_of notices.now outbox.now) }
{
    let mut held = Octets::new(alloc);
    push_all(&mut held, notices, outbox)?;
    Ok(held)
}
