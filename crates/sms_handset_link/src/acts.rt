//! What the owner asks, done and answered.
ghost use Rattle.std.specs.Prelude.{◌≡◌, ◌++◌, ◌∷◌, [], ℕ, List, min, IfOk, OnOk};
ghost use Rattle.std.specs.Str.{chars, encode_utf8_all};
ghost use Rattle.std.specs.String.{string_bytes};
ghost use Rattle.sms_handset.specs.declared.event.HandsetEvent.TheVariants.{Write as WriteOf};
ghost use Rattle.std.specs.Io.KnownBytes.{Appends};
ghost use Rattle.sms_handset.specs.machine.Stepping.{MakesTheChanges, happened};
ghost use Rattle.sms_handset_link.specs.Asking.{answer_to, entry_of, event_of};
ghost use Rattle.sms_handset_link.specs.Run.{Does, Sends};
ghost use Rattle.sms_handset.specs.machine.InMachine.{core_in, handset_in};

use crate::link::send;
use crate::run_error::{LinkStop, RunError};
use sms_base::{Listed, OctetView};
use sms_handset::machine::{HandsetMachine, StepError};
use sms_handset::{Changes, HandsetEvent, Rows, TextView};
use sms_link::Outgoing;
use sms_rows::keep::Keep;
use sms_script::owner::OwnersAct;
use std::alloc::{AllocError, Global};
use std::io::Write;
use std::str::from_utf8;

// A number as it was written: a character for each octet.
fn text_of(alloc: Global, octets: &[u8]) -> Result<String, AllocError>
    ensures { IfOk result (λ text. string_bytes text ≡ encode_utf8_all octets.now) }
{
    let mut text = String::new(alloc);
    for octet in octets {
        text.push(char::from(*octet))?;
    }
    Ok(text)
}

// An entry's number; one that no entry has where it is too great.
fn entry_of(number: u64) -> u32
    ensures { result ≡ entry_of number }
{
    number.min(4_294_967_295) as u32
}

fn write<K: Keep<Rows = Rows, Changes = Changes> + Drop>(
    alloc: Global,
    machine: &mut HandsetMachine<K>,
    to: &OctetView<'_>,
    report: bool,
    text: &sms_script::TextView<'_>,
) -> Result<Listed<Outgoing>, StepError>
    requires { MakesTheChanges K.after }
    ensures { Does result (handset_in machine.old) (handset_in machine.new)
        (happened (WriteOf (chars text.now) (chars (encode_utf8_all to.now)) report) (core_in machine.old)) }
{
    let to = match text_of(alloc, to.as_slice()) {
        Ok(to) => to,
        Err(_) => return Err(StepError::NoMemory),
    };
    let octets = match text.octets(alloc) {
        Ok(octets) => octets,
        Err(_) => return Err(StepError::NoMemory),
    };
    match from_utf8(octets.as_slice()) {
        Ok(text) => machine.step(&HandsetEvent::Write {
            text: TextView::of(text),
            to: TextView::of(to.as_str()),
            report,
        }),
        Err(_) => unreachable!(),
    }
}

// Meets an act of the owner.
fn meet<K: Keep<Rows = Rows, Changes = Changes> + Drop>(
    alloc: Global,
    machine: &mut HandsetMachine<K>,
    act: &OwnersAct<'_>,
) -> Result<Listed<Outgoing>, StepError>
    requires { MakesTheChanges K.after }
    ensures { Does result (handset_in machine.old) (handset_in machine.new) (happened (event_of act.now) (core_in machine.old)) }
{
    match act {
        OwnersAct::Write { to, report, text } => write(alloc, machine, to, *report, text),
        OwnersAct::Delete { entry } => machine.step(&HandsetEvent::Delete {
            entry: entry_of(*entry),
        }),
        OwnersAct::Discard { entry } => machine.step(&HandsetEvent::Discard {
            entry: entry_of(*entry),
        }),
    }
}

fn put<A: Write>(answers: &mut A, octets: &[u8]) -> Result<(), LinkStop>
    ensures { OnOk result (Appends (A.contents answers.old) (A.contents answers.new) octets.now) }
{
    match answers.write_all(octets) {
        Ok(()) => Ok(()),
        Err(error) => Err(LinkStop::Error(RunError::Answers(error))),
    }
}

fn answer<A: Write>(answers: &mut A, code: &str) -> Result<(), LinkStop>
    ensures { OnOk result (Appends (A.contents answers.old) (A.contents answers.new) (code.now ++ 10 ∷ [])) }
{
    put(answers, code.as_bytes())?;
    put(answers, b"\n")
}

/// Does what the owner asks, and answers `OK` or the code of the refusal on a line.
pub(crate) fn act<K: Keep<Rows = Rows, Changes = Changes> + Drop, W: Write, A: Write>(
    alloc: Global,
    machine: &mut HandsetMachine<K>,
    act: &OwnersAct<'_>,
    link: &mut W,
    answers: &mut A,
) -> Result<(), LinkStop>
    requires { MakesTheChanges K.after }
    ensures sends { OnOk result ((out : List ℕ) × (Sends (event_of act.now) (core_in machine.old) (core_in machine.new) out
        × Appends (W.contents link.old) (W.contents link.new) out)) }
    ensures answers { OnOk result (Appends (A.contents answers.old) (A.contents answers.new) (answer_to (event_of act.now) (core_in machine.old))) }
{
    match meet(alloc, machine, act) {
        Ok(frames) => {
            answer(answers, "OK")?;
            send(alloc, link, frames.as_slice())
        }
        Err(StepError::Refused(refusal)) => answer(answers, refusal.code()),
        Err(error) => Err(LinkStop::from(error)),
    }
}
