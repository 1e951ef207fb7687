//! Whole scripts.
ghost use Rattle.std.specs.Prelude.{◌≡◌, OnOk, IfOk};
ghost use Rattle.sms_script.specs.ScriptGrammar.{IsScript};
ghost use Rattle.sms_script.specs.declared.script.Script.{Script as ScriptOf};
ghost use Rattle.sms_script.specs.WholeScript.{blank, with_line, script_in, judge_in, Reads, ReadsScript, IsReadAs};

use crate::cutting::Lines;
use crate::event::WorldEvent;
use crate::fault::ScriptFault;
use crate::line::Line;
use crate::progress::Progress;
use crate::setup::Setup;
use sms_base::{Listed, OctetView};
use std::alloc::{AllocError, Global};

/// A script: what it begins with, and its events, which are numbered from 1.
#[derive(Drop)]
pub struct Script<'a> {
    pub setup: Setup<'a>,
    pub events: Listed<WorldEvent<'a>>,
}

impl<'a> Script<'a> {
    fn new(alloc: Global) -> Script<'a>
        ensures { result ≡ blank }
    {
        Script {
            setup: Setup {
                start: 0,
                centre: OctetView::of(&[]),
                accounts: Listed::new(alloc),
                handsets: Listed::new(alloc),
            },
            events: Listed::new(alloc),
        }
    }

    fn take(&mut self, line: Line<'a>) -> Result<(), AllocError>
        ensures { OnOk result (self.new ≡ with_line self.old line.entry) }
    {
        match line {
            Line::Start(start) => self.setup.start = start,
            Line::Centre(number) => self.setup.centre = number,
            Line::Account(account) => self.setup.accounts.push(account)?,
            Line::Handset(handset) => self.setup.handsets.push(handset)?,
            Line::Event(event) => self.events.push(event)?,
        }
        Ok(())
    }
}

// Whether the text is a script, or the number of its first bad line.
#[tactic(auto, unfolding(crate::specs::WholeScript::judge_in))]
fn judge(text: &[u8]) -> Result<(), u64>
    ensures { result ≡ judge_in text.now }
{
    let mut lines = Lines::of(text);
    let mut progress = Progress::new();
    while let Some(octets) = lines.next() {
        match progress.after(octets) {
            Ok((next, _)) => progress = next,
            Err(_) => return Err(progress.number),
        }
    }
    if progress.is_whole() {
        Ok(())
    } else {
        Err(progress.number)
    }
}

// The script that the text is; want of memory says nothing.
#[tactic(auto, unfolding(crate::specs::WholeScript::script_in))]
fn build(alloc: Global, text: &[u8]) -> Result<Script<'_>, ScriptFault>
    ensures { Reads (λ x. x) result (script_in text.now) }
{
    let mut script = Script::new(alloc);
    let mut lines = Lines::of(text);
    let mut progress = Progress::new();
    while let Some(octets) = lines.next() {
        match progress.after(octets) {
            Ok((next, line)) => {
                script.take(line)?;
                progress = next;
            }
            Err(_) => return Err(ScriptFault::BadLine(progress.number)),
        }
    }
    if progress.is_whole() {
        Ok(script)
    } else {
        Err(ScriptFault::BadLine(progress.number))
    }
}

// The script that the text is: no line is bad where memory is wanted.
fn read(alloc: Global, text: &[u8]) -> Result<Script<'_>, ScriptFault>
    ensures { ReadsScript result (script_in text.now) }
{
    match judge(text) {
        Ok(()) => build(alloc, text),
        Err(number) => Err(ScriptFault::BadLine(number)),
    }
}

/// The script that the text is, or the number of its first bad line. A bad line says nothing, may not be in its place,
/// or passes a limit. It may also be the line that is missing behind the last. The script borrows the text. Its lists
/// alone take memory, which is wanted only once all lines are good.
pub fn read_script(alloc: Global, text: &[u8]) -> Result<Script<'_>, ScriptFault>
    // What is read is in the grammar.
    ensures found { IfOk result (λ script. IsScript text.now script) }
    // What is in the grammar is read.
    ensures only { (script : ScriptOf) → IsScript text.now script → IsReadAs script result }
    // Which fault it is.
    ensures exact { ReadsScript result (script_in text.now) }
{
    read(alloc, text)
}
