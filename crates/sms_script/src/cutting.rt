//! Texts cut into lines, and lines cut into words.
ghost use Rattle.std.specs.Prelude.{◌≡◌, ◌==◌, ◌<◌, ◌∷◌, [], ℕ, length, position, option_map, MatchOption, IfSome};
ghost use Rattle.sms_script.specs.Lines.{front, behind, is_word, lines_of, lines_left, words_of, words_behind};
ghost use Rattle.sms_script.specs.ScriptReading.{TakesWords, word_in, done_in};

use crate::fault::LineFault;
use std::marker::Model;

const SPACE: u8 = b' ';

const LINE_FEED: u8 = b'\n';

const CARRIAGE_RETURN: u8 = b'\r';

fn place_of(octets: &[u8], mark: u8) -> Option<usize>
    ensures value { result ≡ position (λ octet. octet == mark) octets.now }
    ensures within { IfSome result (λ place. place < length octets.now) }
{
    octets.iter().position(|octet| *octet == mark)
}

// The octets before the first mark, and those behind it, if there is one.
fn cut(octets: &[u8], mark: u8) -> (&[u8], Option<&[u8]>)
    ensures front { result.0.now ≡ front mark octets.now }
    ensures behind { option_map (λ rest. rest.now) result.1 ≡ behind mark octets.now }
{
    match place_of(octets, mark) {
        Some(place) => (&octets[..place], Some(&octets[place + 1..])),
        None => (octets, None),
    }
}

// The first line of a text and what is behind its end, if it has one, unless the text is empty.
#[tactic(auto, using(crate::proofs::Pieces::no_lines, crate::proofs::Pieces::lines_cut))]
fn first_line(text: &[u8]) -> Option<(&[u8], Option<&[u8]>)>
    ensures { MatchOption result (lines_of text.now ≡ []) (λ cut. lines_of text.now ≡ cut.0.now ∷ lines_left (option_map (λ rest. rest.now) cut.1)) }
{
    if text.is_empty() {
        return None;
    }
    Some(cut(text, LINE_FEED))
}

// What is before the first space of a line, and what is behind it, if there is one.
#[tactic(auto, using(crate::proofs::Pieces::words_cut))]
fn first_piece(line: &[u8]) -> (&[u8], Option<&[u8]>)
    ensures { words_of line.now ≡ result.0.now ∷ words_behind (option_map (λ rest. rest.now) result.1) }
{
    cut(line, SPACE)
}

/// The lines that are left of a text.
#[derive(Drop)]
pub struct Lines<'a> {
    rest: Option<&'a [u8]>,
}

impl<'a> Model for Lines<'a> {
    ghost use Rattle.std.specs.Prelude.{ℕ, List, option_map};
    ghost use Rattle.sms_script.specs.Lines.{lines_left};

    ghost Value = { List (List ℕ) };

    ghost view = { λ l. lines_left (option_map (λ rest. rest.now) l.rest) };
}

impl<'a> Lines<'a> {
    /// The lines of a text.
    pub fn of(text: &'a [u8]) -> Lines<'a>
        ensures { result ≡ lines_of text.entry.now }
    {
        Lines { rest: Some(text) }
    }

    /// Takes the next line.
    pub fn next(&mut self) -> Option<&'a [u8]>
        ensures { MatchOption result (self.old ≡ []) (λ line. self.old ≡ line.now ∷ self.new) }
    {
        let (line, rest) = first_line(self.rest?)?;
        self.rest = rest;
        Some(line)
    }
}

/// The words that are left of a line.
#[derive(Drop)]
pub struct Words<'a> {
    rest: Option<&'a [u8]>,
}

impl<'a> Model for Words<'a> {
    ghost use Rattle.std.specs.Prelude.{ℕ, List, option_map};
    ghost use Rattle.sms_script.specs.Lines.{words_behind};

    ghost Value = { List (List ℕ) };

    ghost view = { λ w. words_behind (option_map (λ rest. rest.now) w.rest) };
}

impl<'a> Words<'a> {
    /// The words of a line.
    pub fn of(line: &'a [u8]) -> Words<'a>
        ensures { result ≡ words_of line.entry.now }
    {
        Words { rest: Some(line) }
    }

    // Takes what is before the next space.
    fn piece(&mut self) -> Option<&'a [u8]>
        ensures { MatchOption result (self.old ≡ []) (λ piece. self.old ≡ piece.now ∷ self.new) }
    {
        let (piece, rest) = first_piece(self.rest?);
        self.rest = rest;
        Some(piece)
    }

    /// Takes the next word.
    pub fn word(&mut self) -> Result<&'a [u8], LineFault>
        ensures { TakesWords (λ x. x.now) result self.new (word_in self.old) }
    {
        let piece = self.piece().ok_or(LineFault::BadLine)?;
        if !is_word(piece) {
            return Err(LineFault::BadLine);
        }
        Ok(piece)
    }

    /// Refuses a word that is left.
    #[tactic(auto, using(crate::proofs::Pieces::some_left))]
    pub fn end(&self) -> Result<(), LineFault>
        ensures { result ≡ done_in self.now }
    {
        match self.rest {
            None => Ok(()),
            Some(_) => Err(LineFault::BadLine),
        }
    }
}

fn is_word(piece: &[u8]) -> bool
    ensures { result ≡ is_word piece.now }
{
    !piece.is_empty() && !piece.contains(&CARRIAGE_RETURN)
}
