//! Parts counted without memory, from the sizes of the whole units.
ghost use Rattle.std.specs.Prelude.{◌≡◌, ◌≤◌, length};
ghost use Rattle.sms_base.specs.Alphabet.{code_for, septets_in};
ghost use Rattle.sms_concat.specs.Counting.{either_outcome, outcome, tally_begun, text_begun, text_fits_behind, text_outcome, unit_tally_fits_behind};
ghost use Rattle.sms_concat.specs.Counting.{with_character, with_code, with_unit};

use crate::lengths::taken;
use crate::split_error::SplitError;
use crate::splitting::{MOST_PARTS, room};
use sms_alphabet::{Coding, greatest_length, ucs2_length};
use sms_base::{Code, code_of};

/// What is left of the room for one part, for parts, and in the present piece.
#[derive(Clone, Copy, PartialEq, Eq)]
pub(crate) struct Tally {
    /// How much a piece has room for.
    room: usize,
    /// What a part without a header has room for still, and one more; 0 where it is passed.
    alone: usize,
    /// How many of the 20 parts aren't filled yet.
    parts: u8,
    /// The room left in the present piece.
    piece: usize,
}

impl Tally {
    pub(crate) fn new(coding: Coding) -> Tally
        ensures { result ≡ tally_begun coding }
    {
        Tally {
            room: room(coding),
            alone: usize::from(greatest_length(coding)) + 1,
            parts: MOST_PARTS,
            piece: room(coding),
        }
    }

    /// The tally with one more whole unit.
    pub(crate) fn with(self, size: usize) -> Tally
        ensures { result ≡ with_unit size self }
    {
        let alone = self.alone.saturating_sub(size);
        if size <= self.piece {
            let piece = self.piece - size;
            Tally {
                alone,
                piece,
                ..self
            }
        } else {
            let piece = self.room.saturating_sub(size);
            let parts = self.parts.saturating_sub(1);
            Tally {
                alone,
                parts,
                piece,
                ..self
            }
        }
    }

    /// Whether the units fit one part behind a header of so many octets.
    fn fits_behind(self, coding: Coding, header: usize) -> bool
        requires { header ≤ 256 }
        ensures { result ≡ unit_tally_fits_behind header coding self }
    {
        taken(coding, header) < self.alone
    }

    pub(crate) fn parts(self) -> Result<u8, SplitError>
        ensures { result ≡ outcome self }
    {
        if 0 < self.alone {
            Ok(1)
        } else if 0 < self.parts {
            Ok((MOST_PARTS + 1).saturating_sub(self.parts))
        } else {
            Err(SplitError::TooManyParts)
        }
    }
}

/// Both tallies of a text, of which the one counts that its characters allow.
#[derive(Clone, Copy, PartialEq, Eq)]
pub(crate) struct TextTally {
    /// In the default alphabet, as long as each character has a code there.
    septets: Option<Tally>,
    ucs2: Tally,
}

fn with_code(code: Option<Code>, tally: Option<Tally>) -> Option<Tally>
    ensures { result ≡ with_code code tally }
{
    match (code, tally) {
        (Some(code), Some(tally)) => Some(tally.with(usize::from(code.len()))),
        _ => None,
    }
}

impl TextTally {
    pub(crate) fn new() -> TextTally
        ensures { result ≡ text_begun }
    {
        TextTally {
            septets: Some(Tally::new(Coding::Septets)),
            ucs2: Tally::new(Coding::Ucs2),
        }
    }

    /// The tally with one more character.
    pub(crate) fn with(self, character: char) -> TextTally
        ensures { result ≡ with_character character self }
    {
        TextTally {
            septets: with_code(code_of(character), self.septets),
            ucs2: self.ucs2.with(ucs2_length(character)),
        }
    }

    /// Whether the text fits one part behind a header of so many octets.
    pub(crate) fn fits_behind(self, header: usize) -> bool
        requires { header ≤ 256 }
        ensures { result ≡ text_fits_behind header self }
    {
        match self.septets {
            Some(septets) => septets.fits_behind(Coding::Septets, header),
            None => self.ucs2.fits_behind(Coding::Ucs2, header),
        }
    }

    pub(crate) fn parts(self) -> Result<u8, SplitError>
        ensures { result ≡ text_outcome self }
    {
        match self.septets {
            Some(septets) => septets.parts(),
            None => self.ucs2.parts(),
        }
    }
}
