//! What a script leads to, and what its events break.
ghost use Rattle.sms_play.specs.Playing.{play_of, premises_of};
ghost use Rattle.std.specs.Prelude.{IfOk};
ghost use Rattle.sms_world.specs.headline.DecidedPremises.{Premises};
ghost use Rattle.sms_world.specs.headline.Headline.{Headline};
ghost use Rattle.sms_world.specs.headline.PlainReports.{HasPlainHeadline};
ghost use Rattle.sms_world.specs.headline.WorldPremises.{WorldPremises};
ghost use Rattle.sms_world.specs.running.Reporting.{FaultsAs, ReportsAs, Reports};
ghost use Rattle.sms_world.specs.declared.running.ending.Judged.{Judged as JudgedOf};

use crate::running::ending::Judged;
use crate::running::opening::play_before;
use crate::running::typing::are_typed;
use sms_script::report::{Broken, Report};
use sms_script::{PlayFault, Setup, WorldEvent};
use sms_trace::watching::Judge;
use std::alloc::Global;

/// The script, played to its end with its premises judged.
pub(crate) fn judge(
    alloc: Global,
    setup: &Setup<'_>,
    events: &[WorldEvent<'_>],
) -> Result<Judged, PlayFault>
    ensures report { ReportsAs (λ (judged : JudgedOf). judged.report) result (play_of setup.now events.now) }
    ensures premises { ReportsAs (λ (judged : JudgedOf). judged.broken) result (premises_of setup.now events.now) }
{
    let mut judge = Judge::new(alloc);
    play_before(alloc, setup, events, &mut judge)
}

/// What the events of a script lead to, from its head on, or why they are not played to their end. The events may be any: those of a text that
/// was read, or others.
///
/// # Errors
/// The fault of the first event that can't be played, with its number. It is `BadSetup` where the head is none that can be
/// played, and `NoMemory` where a growth was refused.
pub fn play(
    alloc: Global,
    setup: &Setup<'_>,
    events: &[WorldEvent<'_>],
) -> Result<Report, PlayFault>
    // The report is the definition's, and so is a fault.
    ensures report { Reports result (play_of setup.now events.now) }
    // It has the headline.
    ensures headline { IfOk result (λ report. Headline setup.now events.now report) }
    // It has it in plain words, too, over the lines of reports alone: a reader judges those without a store or a world.
    ensures plain { IfOk result (λ report. HasPlainHeadline setup.now events.now report) }
{
    are_typed(events);
    match judge(alloc, setup, events) {
        Ok(judged) => Ok(judged.report),
        Err(fault) => Err(fault),
    }
}

/// The first event that breaks a premise of the headline, if there is one.
///
/// # Errors
/// Those of `play`.
pub fn premises(
    alloc: Global,
    setup: &Setup<'_>,
    events: &[WorldEvent<'_>],
) -> Result<Option<Broken>, PlayFault>
    // None exactly where each frame that is handed over is timely and each submission fresh in the world, else the first event that breaks one.
    ensures world { IfOk result (λ broken. WorldPremises setup.now events.now broken) }
    // So it is decided on courses, where `Headline` has its premises.
    ensures premises { IfOk result (λ broken. Premises setup.now events.now broken) }
    // A fault is that of `play`.
    ensures faults { FaultsAs result (play_of setup.now events.now) }
    // It is the definition's first event, and so is a fault.
    ensures exact { Reports result (premises_of setup.now events.now) }
{
    are_typed(events);
    match judge(alloc, setup, events) {
        Ok(judged) => Ok(judged.broken),
        Err(fault) => Err(fault),
    }
}
