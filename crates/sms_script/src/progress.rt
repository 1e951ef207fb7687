//! How far a script is read.
ghost use Rattle.std.specs.Prelude.{◌≡◌};
ghost use Rattle.sms_script.specs.WholeScript.{beginning, next_stage, events_in, line_in, is_whole};

use crate::fault::LineFault;
use crate::line::{Line, read_line};

/// Lines in a script.
pub(crate) const MOST_LINES: u64 = 20_000;

/// Events in a script.
const MOST_EVENTS: u64 = 10_000;

/// Which line is next.
#[derive(Clone, Copy, PartialEq, Eq)]
pub(crate) enum Stage {
    /// The line of the start.
    Start,
    /// The line of the centre.
    Centre,
    /// An account, a handset or an event.
    Accounts,
    /// A handset or an event.
    Handsets,
    /// An event; no handset follows any more.
    Events,
}

impl Stage {
    fn after(self, line: &Line<'_>) -> Result<Stage, LineFault>
        ensures { result ≡ next_stage self line.now }
    {
        match (self, line) {
            (Stage::Start, Line::Start(_)) => Ok(Stage::Centre),
            (Stage::Centre, Line::Centre(_)) => Ok(Stage::Accounts),
            (Stage::Accounts, Line::Account(_)) => Ok(Stage::Accounts),
            (Stage::Accounts | Stage::Handsets, Line::Handset(_)) => Ok(Stage::Handsets),
            (Stage::Accounts | Stage::Handsets | Stage::Events, Line::Event(_)) => {
                Ok(Stage::Events)
            }
            _ => Err(LineFault::BadLine),
        }
    }
}

fn events_after(events: u64, line: &Line<'_>) -> Result<u64, LineFault>
    ensures { result ≡ events_in events line.now }
{
    match line {
        Line::Event(_) if events < MOST_EVENTS => Ok(events + 1),
        Line::Event(_) => Err(LineFault::BadLine),
        _ => Ok(events),
    }
}

/// How far a script is read.
#[derive(Clone, Copy)]
pub(crate) struct Progress {
    /// The number of the next line, from 1.
    pub(crate) number: u64,
    pub(crate) stage: Stage,
    /// How many events were read.
    pub(crate) events: u64,
}

impl Progress {
    /// Before the first line.
    pub(crate) fn new() -> Progress
        ensures { result ≡ beginning }
    {
        Progress {
            number: 1,
            stage: Stage::Start,
            events: 0,
        }
    }

    /// What the next line says, and how far the script is read then.
    #[tactic(auto, unfolding(crate::specs::WholeScript::line_in))]
    pub(crate) fn after(self, octets: &[u8]) -> Result<(Progress, Line<'_>), LineFault>
        ensures { result ≡ line_in self octets.now }
    {
        if self.number > MOST_LINES {
            return Err(LineFault::BadLine);
        }
        let line = read_line(octets)?;
        let stage = self.stage.after(&line)?;
        let events = events_after(self.events, &line)?;
        let next = Progress {
            number: self.number + 1,
            stage,
            events,
        };
        Ok((next, line))
    }

    /// Whether a script may end here.
    pub(crate) fn is_whole(self) -> bool
        ensures { result ≡ is_whole self.stage }
    {
        match self.stage {
            Stage::Start | Stage::Centre => false,
            Stage::Accounts | Stage::Handsets | Stage::Events => true,
        }
    }
}
