//! What a report lists of a script in play.
//!
//! What a handset accepted is listed as the handset noted it, whatever was submitted to it. The claims of delivery rest on that.
ghost use Rattle.std.specs.Prelude.{◌≡◌, ◌++◌, IfOk, OnOk};
ghost use Rattle.sms_play.specs.PlayState.{PlayState};
ghost use Rattle.sms_play.specs.Playing.{accepted_lines as accepted_lines_of};
ghost use Rattle.sms_play.specs.judging.Premises.{accepted_at};

use crate::judging::Scene;
use sms_base::{Listed, Octets};
use sms_script::report::AcceptedRow;
use std::alloc::{AllocError, Global};

fn copy_accepted(
    alloc: Global,
    rows: &[AcceptedRow],
    lines: &mut Listed<AcceptedRow>,
) -> Result<(), AllocError>
    ensures { OnOk result (lines.new ≡ lines.old ++ rows.now) }
{
    for row in rows {
        let tpdu = Octets::copy_of(alloc, row.tpdu.as_slice())?;
        lines.push(AcceptedRow {
            handset: row.handset,
            reference: row.reference,
            tpdu,
        })?;
    }
    Ok(())
}

// What the handset at that place accepted.
fn put_accepted<S: Scene>(
    alloc: Global,
    scene: &S,
    place: usize,
    lines: &mut Listed<AcceptedRow>,
) -> Result<(), AllocError>
    ensures { (c : PlayState) → S.represents scene.now c → OnOk result (lines.new ≡ lines.old ++ accepted_at place c.parties) }
{
    copy_accepted(alloc, scene.accepted(place), lines)
}

/// What the handsets accepted, by handset.
///
/// # Errors
/// A growth was refused.
pub fn accepted_lines<S: Scene>(alloc: Global, scene: &S) -> Result<Listed<AcceptedRow>, AllocError>
    ensures { (c : PlayState) → S.represents scene.now c → IfOk result (λ lines. lines ≡ accepted_lines_of c.parties) }
{
    let mut lines = Listed::new(alloc);
    for place in 0..scene.handsets() {
        put_accepted(alloc, scene, place, &mut lines)?;
    }
    Ok(lines)
}
