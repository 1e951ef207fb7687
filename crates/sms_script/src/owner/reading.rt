//! All lines of an owner.
ghost use Rattle.std.specs.Prelude.{◌≡◌, ◌≤◌, OnOk};
ghost use Rattle.sms_script.specs.owner.OwnersText.{Reads, ReadsActs, act_numbered, acts_in, judge_in};

use crate::cutting::Lines;
use crate::owner::act::OwnersAct;
use crate::owner::line::read_act;
use crate::{LineFault, ScriptFault};
use sms_base::Listed;
use std::alloc::Global;

/// Lines of an owner.
const MOST_LINES: u64 = 10_000;

// What the line of that number says.
#[tactic(auto, unfolding(crate::specs::owner::OwnersText::act_numbered))]
fn numbered_act(number: u64, octets: &[u8]) -> Result<OwnersAct<'_>, LineFault>
    ensures value { result ≡ act_numbered number octets.now }
    ensures few { OnOk result (number ≤ 10000) }
{
    if number > MOST_LINES {
        return Err(LineFault::BadLine);
    }
    read_act(octets)
}

// Whether all lines are good, or the number of the first that is bad.
#[tactic(auto, unfolding(crate::specs::owner::OwnersText::judge_in))]
fn judge(text: &[u8]) -> Result<(), u64>
    ensures { result ≡ judge_in text.now }
{
    let mut lines = Lines::of(text);
    let mut number: u64 = 1;
    while let Some(octets) = lines.next() {
        match numbered_act(number, octets) {
            Ok(_) => number += 1,
            Err(_) => return Err(number),
        }
    }
    Ok(())
}

// The acts; want of memory says nothing.
#[tactic(auto, unfolding(crate::specs::owner::OwnersText::acts_in))]
fn build(alloc: Global, text: &[u8]) -> Result<Listed<OwnersAct<'_>>, ScriptFault>
    ensures { Reads result (acts_in text.now) }
{
    let mut acts = Listed::new(alloc);
    let mut lines = Lines::of(text);
    let mut number: u64 = 1;
    while let Some(octets) = lines.next() {
        match numbered_act(number, octets) {
            Ok(act) => {
                acts.push(act)?;
                number += 1;
            }
            Err(_) => return Err(ScriptFault::BadLine(number)),
        }
    }
    Ok(acts)
}

/// What the lines of an owner ask, in order, or the number of the first bad line. A bad line says nothing, has more
/// than 16,384 octets, or is past 10,000 lines. No text is no acts. The acts borrow the text. Their list alone takes
/// memory, which is wanted only once all lines are good.
pub fn read_acts(alloc: Global, text: &[u8]) -> Result<Listed<OwnersAct<'_>>, ScriptFault>
    ensures { ReadsActs result (acts_in text.now) }
{
    match judge(text) {
        Ok(()) => build(alloc, text),
        Err(number) => Err(ScriptFault::BadLine(number)),
    }
}
