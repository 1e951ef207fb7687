//! What a line of a script says.
ghost use Rattle.std.specs.Prelude.{◌≡◌, Option};
ghost use Rattle.sms_script.specs.ScriptReading.{TakesWords, start_in, centre_in, account_in, handset_in, restart_in, stopped_in, whole_in, line_of, line_at};

use crate::act::{act, act_of};
use crate::cutting::Words;
use crate::event::WorldEvent;
use crate::fault::LineFault;
use crate::fields::{number, side, stop, word};
use crate::keyword::Keyword;
use crate::setup::{AccountSetup, HandsetSetup};
use sms_base::OctetView;

/// Octets in a line, its end not counted.
pub(crate) const LONGEST_LINE: usize = 16_384;

/// What a line of a script says.
#[derive(Drop)]
pub(crate) enum Line<'a> {
    Start(u64),
    Centre(OctetView<'a>),
    Account(AccountSetup<'a>),
    Handset(HandsetSetup<'a>),
    Event(WorldEvent<'a>),
}

#[tactic(auto, unfolding(crate::specs::ScriptReading::start_in))]
fn start<'a>(words: &mut Words<'a>) -> Result<Line<'a>, LineFault>
    ensures { TakesWords (λ x. x) result words.new (start_in words.old) }
{
    let start = number(words)?;
    Ok(Line::Start(start))
}

#[tactic(auto, unfolding(crate::specs::ScriptReading::centre_in))]
fn centre<'a>(words: &mut Words<'a>) -> Result<Line<'a>, LineFault>
    ensures { TakesWords (λ x. x) result words.new (centre_in words.old) }
{
    let number = word(words)?;
    Ok(Line::Centre(number))
}

#[tactic(auto, unfolding(crate::specs::ScriptReading::account_in))]
fn account<'a>(words: &mut Words<'a>) -> Result<Line<'a>, LineFault>
    ensures { TakesWords (λ x. x) result words.new (account_in words.old) }
{
    let name = word(words)?;
    let password = word(words)?;
    let number = word(words)?;
    Ok(Line::Account(AccountSetup {
        name,
        password,
        number,
    }))
}

#[tactic(auto, unfolding(crate::specs::ScriptReading::handset_in))]
fn handset<'a>(words: &mut Words<'a>) -> Result<Line<'a>, LineFault>
    ensures { TakesWords (λ x. x) result words.new (handset_in words.old) }
{
    let number_of = word(words)?;
    let slots = number(words)?;
    Ok(Line::Handset(HandsetSetup {
        number: number_of,
        slots,
    }))
}

#[tactic(auto, unfolding(crate::specs::ScriptReading::restart_in))]
fn restart<'a>(words: &mut Words<'a>) -> Result<Line<'a>, LineFault>
    ensures { TakesWords (λ x. x) result words.new (restart_in words.old) }
{
    let side = side(words)?;
    Ok(Line::Event(WorldEvent::Restart(side)))
}

#[tactic(auto, unfolding(crate::specs::ScriptReading::stopped_in))]
fn stopped<'a>(words: &mut Words<'a>) -> Result<Line<'a>, LineFault>
    ensures { TakesWords (λ x. x) result words.new (stopped_in words.old) }
{
    let stop = stop(words)?;
    let act = act(words)?;
    Ok(Line::Event(WorldEvent::Stopped(stop, act)))
}

#[tactic(auto, unfolding(crate::specs::ScriptReading::whole_in))]
fn whole<'a>(keyword: Option<Keyword>, words: &mut Words<'a>) -> Result<Line<'a>, LineFault>
    ensures { TakesWords (λ x. x) result words.new (whole_in keyword words.old) }
{
    let act = act_of(keyword, words)?;
    Ok(Line::Event(WorldEvent::Whole(act)))
}

fn line_of<'a>(keyword: Option<Keyword>, words: &mut Words<'a>) -> Result<Line<'a>, LineFault>
    ensures { TakesWords (λ x. x) result words.new (line_of keyword words.old) }
{
    match keyword {
        Some(Keyword::Start) => start(words),
        Some(Keyword::Centre) => centre(words),
        Some(Keyword::Account) => account(words),
        Some(Keyword::Handset) => handset(words),
        Some(Keyword::Restart) => restart(words),
        Some(Keyword::Stopped) => stopped(words),
        _ => whole(keyword, words),
    }
}

/// What the line says.
#[tactic(auto, unfolding(crate::specs::ScriptReading::line_at))]
pub(crate) fn read_line(octets: &[u8]) -> Result<Line<'_>, LineFault>
    ensures { result ≡ line_at octets.now }
{
    if octets.len() > LONGEST_LINE {
        return Err(LineFault::BadLine);
    }
    let mut words = Words::of(octets);
    let keyword = Keyword::of(words.word()?);
    let line = line_of(keyword, &mut words)?;
    words.end()?;
    Ok(line)
}
