//! Acts, each behind its keyword.
ghost use Rattle.std.specs.Prelude.{◌≡◌, Option};
ghost use Rattle.sms_script.specs.ScriptReading.{TakesWords, submission_in, submit_in, urgent_in, query_in, cancel_in, write_in, delete_in, discard_in};
ghost use Rattle.sms_script.specs.ScriptReading.{deliver_in, tick_in, act_of, act_in};

use crate::cutting::Words;
use crate::event::{Act, Submission};
use crate::fault::LineFault;
use crate::fields::{body, flag, moment, number, octet, side, small, text, validity, word};
use crate::keyword::Keyword;
use sms_base::OctetView;

#[tactic(auto, unfolding(crate::specs::ScriptReading::submission_in))]
fn submission<'a>(
    name: OctetView<'a>,
    priority: u8,
    words: &mut Words<'a>,
) -> Result<Act<'a>, LineFault>
    ensures { TakesWords (λ x. x) result words.new (submission_in name.entry priority words.old) }
{
    let to = word(words)?;
    let coding = small(255, words)?;
    let esm_class = octet(words)?;
    let registered_delivery = small(255, words)?;
    let validity = validity(words)?;
    let message = body(words)?;
    Ok(Act::Submit(Submission {
        name,
        to,
        coding,
        esm_class,
        registered_delivery,
        validity,
        message,
        priority,
    }))
}

#[tactic(auto, unfolding(crate::specs::ScriptReading::submit_in))]
fn submit<'a>(words: &mut Words<'a>) -> Result<Act<'a>, LineFault>
    ensures { TakesWords (λ x. x) result words.new (submit_in words.old) }
{
    let name = word(words)?;
    submission(name, 0, words)
}

#[tactic(auto, unfolding(crate::specs::ScriptReading::urgent_in))]
fn urgent<'a>(words: &mut Words<'a>) -> Result<Act<'a>, LineFault>
    ensures { TakesWords (λ x. x) result words.new (urgent_in words.old) }
{
    let name = word(words)?;
    let priority = small(3, words)?;
    submission(name, priority, words)
}

#[tactic(auto, unfolding(crate::specs::ScriptReading::query_in))]
fn query<'a>(words: &mut Words<'a>) -> Result<Act<'a>, LineFault>
    ensures { TakesWords (λ x. x) result words.new (query_in words.old) }
{
    let name = word(words)?;
    let id = word(words)?;
    Ok(Act::Query { name, id })
}

#[tactic(auto, unfolding(crate::specs::ScriptReading::cancel_in))]
fn cancel<'a>(words: &mut Words<'a>) -> Result<Act<'a>, LineFault>
    ensures { TakesWords (λ x. x) result words.new (cancel_in words.old) }
{
    let name = word(words)?;
    let id = word(words)?;
    Ok(Act::Cancel { name, id })
}

#[tactic(auto, unfolding(crate::specs::ScriptReading::write_in))]
fn write<'a>(words: &mut Words<'a>) -> Result<Act<'a>, LineFault>
    ensures { TakesWords (λ x. x) result words.new (write_in words.old) }
{
    let handset = word(words)?;
    let to = word(words)?;
    let report = flag(words)?;
    let text = text(words)?;
    Ok(Act::Write {
        handset,
        to,
        report,
        text,
    })
}

#[tactic(auto, unfolding(crate::specs::ScriptReading::delete_in))]
fn delete<'a>(words: &mut Words<'a>) -> Result<Act<'a>, LineFault>
    ensures { TakesWords (λ x. x) result words.new (delete_in words.old) }
{
    let handset = word(words)?;
    let entry = number(words)?;
    Ok(Act::Delete { handset, entry })
}

#[tactic(auto, unfolding(crate::specs::ScriptReading::discard_in))]
fn discard<'a>(words: &mut Words<'a>) -> Result<Act<'a>, LineFault>
    ensures { TakesWords (λ x. x) result words.new (discard_in words.old) }
{
    let handset = word(words)?;
    let entry = number(words)?;
    Ok(Act::Discard { handset, entry })
}

#[tactic(auto, unfolding(crate::specs::ScriptReading::deliver_in))]
fn deliver<'a>(words: &mut Words<'a>) -> Result<Act<'a>, LineFault>
    ensures { TakesWords (λ x. x) result words.new (deliver_in words.old) }
{
    let number = number(words)?;
    Ok(Act::Deliver(number))
}

#[tactic(auto, unfolding(crate::specs::ScriptReading::tick_in))]
fn tick<'a>(words: &mut Words<'a>) -> Result<Act<'a>, LineFault>
    ensures { TakesWords (λ x. x) result words.new (tick_in words.old) }
{
    let side = side(words)?;
    let now = moment(words)?;
    Ok(Act::Tick { side, now })
}

/// The act of a keyword.
pub(crate) fn act_of<'a>(
    keyword: Option<Keyword>,
    words: &mut Words<'a>,
) -> Result<Act<'a>, LineFault>
    ensures { TakesWords (λ x. x) result words.new (act_of keyword words.old) }
{
    match keyword {
        Some(Keyword::Submit) => submit(words),
        Some(Keyword::Urgent) => urgent(words),
        Some(Keyword::Query) => query(words),
        Some(Keyword::Cancel) => cancel(words),
        Some(Keyword::Write) => write(words),
        Some(Keyword::Delete) => delete(words),
        Some(Keyword::Discard) => discard(words),
        Some(Keyword::Deliver) => deliver(words),
        Some(Keyword::Tick) => tick(words),
        _ => Err(LineFault::BadLine),
    }
}

/// An act with its keyword.
#[tactic(auto, unfolding(crate::specs::ScriptReading::act_in))]
pub(crate) fn act<'a>(words: &mut Words<'a>) -> Result<Act<'a>, LineFault>
    ensures { TakesWords (λ x. x) result words.new (act_in words.old) }
{
    let keyword = Keyword::of(words.word()?);
    act_of(keyword, words)
}
