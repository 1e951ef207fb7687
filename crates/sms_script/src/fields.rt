//! The fields of a line, each a word of it.
ghost use Rattle.std.specs.Prelude.{◌≡◌, codes, bytes_eq};
ghost use Rattle.sms_script.specs.Hexadecimal.{octet_of};
ghost use Rattle.sms_script.specs.Numbers.{number_of, small_of, flag_of, moment_of};
ghost use Rattle.sms_script.specs.ScriptReading.{TakesWords, word_in, field_in, is_dash, validity_of, body_of, text_in, side_of, stop_of};

use crate::cutting::Words;
use crate::event::{EventSide, StopPoint};
use crate::fault::LineFault;
use crate::hexadecimal::{HexView, octet_of};
use crate::number::{flag_of, moment_of, number_of, small_of};
use crate::text::TextView;
use sms_base::{Moment, OctetView};

fn is_dash(word: &[u8]) -> bool
    ensures { result ≡ is_dash word.now }
{
    word == b"-".as_slice()
}

fn validity_of(word: &[u8]) -> Result<OctetView<'_>, LineFault>
    ensures { result ≡ validity_of word.now }
{
    if is_dash(word) {
        Ok(OctetView::of(&[]))
    } else {
        Ok(OctetView::of(word))
    }
}

fn body_of(word: &[u8]) -> Result<HexView<'_>, LineFault>
    ensures { result ≡ body_of word.now }
{
    if is_dash(word) {
        Ok(HexView::empty())
    } else {
        HexView::of(word)
    }
}

fn text_in(word: &[u8]) -> Result<TextView<'_>, LineFault>
    ensures { result ≡ text_in word.now }
{
    TextView::of(body_of(word)?)
}

fn side_of(word: &[u8]) -> Result<EventSide<'_>, LineFault>
    ensures { result ≡ side_of word.now }
{
    if word == b"centre".as_slice() {
        Ok(EventSide::Centre)
    } else {
        Ok(EventSide::Handset(OctetView::of(word)))
    }
}

fn stop_of(word: &[u8]) -> Result<StopPoint, LineFault>
    ensures { result ≡ stop_of word.now }
{
    if word == b"before".as_slice() {
        Ok(StopPoint::Before)
    } else if word == b"after".as_slice() {
        Ok(StopPoint::After)
    } else {
        Err(LineFault::BadLine)
    }
}

/// A word as it is written.
pub fn word<'a>(words: &mut Words<'a>) -> Result<OctetView<'a>, LineFault>
    ensures { TakesWords (λ x. x) result words.new (word_in words.old) }
{
    Ok(OctetView::of(words.word()?))
}

/// A number of decimal digits.
pub fn number(words: &mut Words<'_>) -> Result<u64, LineFault>
    ensures { TakesWords (λ x. x) result words.new (field_in number_of words.old) }
{
    number_of(words.word()?)
}

/// A number up to a limit.
pub(crate) fn small(limit: u8, words: &mut Words<'_>) -> Result<u8, LineFault>
    ensures { TakesWords (λ x. x) result words.new (field_in (small_of limit) words.old) }
{
    small_of(limit, words.word()?)
}

/// An octet of two hexadecimal digits.
pub(crate) fn octet(words: &mut Words<'_>) -> Result<u8, LineFault>
    ensures { TakesWords (λ x. x) result words.new (field_in octet_of words.old) }
{
    octet_of(words.word()?)
}

/// 0 or 1.
pub fn flag(words: &mut Words<'_>) -> Result<bool, LineFault>
    ensures { TakesWords (λ x. x) result words.new (field_in flag_of words.old) }
{
    flag_of(words.word()?)
}

/// A moment, by its seconds.
pub(crate) fn moment(words: &mut Words<'_>) -> Result<Moment, LineFault>
    ensures { TakesWords (λ x. x) result words.new (field_in moment_of words.old) }
{
    moment_of(words.word()?)
}

/// A validity period, or `-` for none.
pub(crate) fn validity<'a>(words: &mut Words<'a>) -> Result<OctetView<'a>, LineFault>
    ensures { TakesWords (λ x. x) result words.new (field_in validity_of words.old) }
{
    validity_of(words.word()?)
}

/// Octets in hexadecimal digits, or `-` for none.
pub(crate) fn body<'a>(words: &mut Words<'a>) -> Result<HexView<'a>, LineFault>
    ensures { TakesWords (λ x. x) result words.new (field_in body_of words.old) }
{
    body_of(words.word()?)
}

/// A text in UTF-8 in hexadecimal digits, or `-` for none.
pub fn text<'a>(words: &mut Words<'a>) -> Result<TextView<'a>, LineFault>
    ensures { TakesWords (λ x. x) result words.new (field_in text_in words.old) }
{
    text_in(words.word()?)
}

/// `centre`, or the number of a handset.
pub(crate) fn side<'a>(words: &mut Words<'a>) -> Result<EventSide<'a>, LineFault>
    ensures { TakesWords (λ x. x) result words.new (field_in side_of words.old) }
{
    side_of(words.word()?)
}

/// `before` or `after`.
pub(crate) fn stop(words: &mut Words<'_>) -> Result<StopPoint, LineFault>
    ensures { TakesWords (λ x. x) result words.new (field_in stop_of words.old) }
{
    stop_of(words.word()?)
}
