//! What a line of an owner says.
ghost use Rattle.std.specs.Prelude.{◌≡◌, bytes_eq};
ghost use Rattle.sms_script.specs.ScriptReading.{TakesWords};
ghost use Rattle.sms_script.specs.owner.OwnersLines.{act_at, act_of, delete_in, discard_in, verb_of, write_in};

use crate::LineFault;
use crate::cutting::Words;
use crate::fields::{flag, number, text, word};
use crate::owner::act::OwnersAct;

/// Octets in a line, its end not counted.
const LONGEST_LINE: usize = 16_384;

/// The first word of a line.
#[derive(Clone, Copy, PartialEq, Eq)]
pub(crate) enum Verb {
    Write,
    Delete,
    Discard,
}

fn verb_of(word: &[u8]) -> Option<Verb>
    ensures { result ≡ verb_of word.now }
{
    if word == b"write".as_slice() {
        Some(Verb::Write)
    } else if word == b"delete".as_slice() {
        Some(Verb::Delete)
    } else if word == b"discard".as_slice() {
        Some(Verb::Discard)
    } else {
        None
    }
}

#[tactic(auto, unfolding(crate::specs::owner::OwnersLines::write_in))]
fn write<'a>(words: &mut Words<'a>) -> Result<OwnersAct<'a>, LineFault>
    ensures { TakesWords (λ x. x) result words.new (write_in words.old) }
{
    let to = word(words)?;
    let report = flag(words)?;
    let text = text(words)?;
    Ok(OwnersAct::Write { to, report, text })
}

#[tactic(auto, unfolding(crate::specs::owner::OwnersLines::delete_in))]
fn delete<'a>(words: &mut Words<'a>) -> Result<OwnersAct<'a>, LineFault>
    ensures { TakesWords (λ x. x) result words.new (delete_in words.old) }
{
    let entry = number(words)?;
    Ok(OwnersAct::Delete { entry })
}

#[tactic(auto, unfolding(crate::specs::owner::OwnersLines::discard_in))]
fn discard<'a>(words: &mut Words<'a>) -> Result<OwnersAct<'a>, LineFault>
    ensures { TakesWords (λ x. x) result words.new (discard_in words.old) }
{
    let entry = number(words)?;
    Ok(OwnersAct::Discard { entry })
}

fn act_of<'a>(verb: Option<Verb>, words: &mut Words<'a>) -> Result<OwnersAct<'a>, LineFault>
    ensures { TakesWords (λ x. x) result words.new (act_of verb words.old) }
{
    match verb {
        Some(Verb::Write) => write(words),
        Some(Verb::Delete) => delete(words),
        Some(Verb::Discard) => discard(words),
        None => Err(LineFault::BadLine),
    }
}

/// The act that the line says.
#[tactic(auto, unfolding(crate::specs::owner::OwnersLines::act_at))]
pub(crate) fn read_act(octets: &[u8]) -> Result<OwnersAct<'_>, LineFault>
    ensures { result ≡ act_at octets.now }
{
    if octets.len() > LONGEST_LINE {
        return Err(LineFault::BadLine);
    }
    let mut words = Words::of(octets);
    let verb = verb_of(words.word()?);
    let act = act_of(verb, &mut words)?;
    words.end()?;
    Ok(act)
}
