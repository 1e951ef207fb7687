//! What a submit_sm says, by its data_coding, before any memory is taken.
ghost use Rattle.std.specs.Prelude.{◌≡◌, ◌≤◌, IfOk, List, Result, length, nat_le};
ghost use Rattle.std.specs.Str.{chars};
ghost use Rattle.std.specs.String.{string_bytes};
ghost use Rattle.sms_alphabet.specs.DataCodingScheme.{coding_of};
ghost use Rattle.sms_concat.specs.Counting.{content_with, counted};
ghost use Rattle.sms_concat.specs.declared.content.Part.{Part as PartOf};
ghost use Rattle.sms_concat.specs.declared.split_error.SplitError.{SplitError as SplitErrorOf};
ghost use Rattle.sms_concat.specs.Splitting.{split_of};
ghost use Rattle.sms_concat.specs.TextContent.{content_of_text};
ghost use Rattle.sms_concat.specs.UserData.{AreUnits, capacity, data_length};
ghost use Rattle.sms_intake.specs.SmppIntake.{Answered, are_below, are_whole, class_at, content_at, septets_at, splits, text_at};

use crate::content_form::ContentForm;
use crate::refusal::SmppError;
use crate::smpp_address::is_ascii;
use smpp_pdu::CommandStatus;
use sms_alphabet::{Coding, dcs};
use sms_base::Octets;
use sms_concat::{
    Content, SplitError, content_of_text, count_latin_parts, count_parts, latin_fits_behind,
    units_fit_behind,
};
use std::alloc::{AllocError, Global};
use std::marker::Model;

/// A content whose octets are borrowed, seen by contracts as the content.
#[derive(Drop)]
pub(crate) struct ContentView<'a> {
    form: ContentForm,
    octets: &'a [u8],
}

impl<'a> Model for ContentView<'a> {
    ghost use Rattle.sms_concat.specs.declared.content.Content.{Content as ContentOf};
    ghost use Rattle.sms_intake.specs.Forms.{AreOfForm, content_as};

    ghost Value = { ContentOf };

    ghost view = { λ c. content_as c.form c.octets.now };

    ghost invariant = { λ c. AreOfForm c.form c.octets.now };
}

// Units as they are.
fn units_view<'a>(coding: Coding, scheme: u8, octets: &'a [u8]) -> ContentView<'a>
    requires { AreUnits coding octets.now }
    ensures { result ≡ content_with coding scheme octets.entry.now }
{
    ContentView {
        form: ContentForm::Units { coding, scheme },
        octets,
    }
}

// Septets, one an octet.
fn septets_view<'a>(scheme: u8, octets: &'a [u8]) -> Result<ContentView<'a>, CommandStatus>
    ensures { result ≡ septets_at scheme octets.entry.now }
{
    if !is_ascii(octets) {
        return Err(CommandStatus::ESME_RSUBMITFAIL);
    }
    Ok(units_view(Coding::Septets, scheme, octets))
}

fn are_below(bound: u16, octets: &[u8]) -> bool
    ensures { result ≡ are_below bound octets.now }
{
    octets.iter().all(|octet| u16::from(*octet) < bound)
}

// Characters below a bound.
fn text_view<'a>(bound: u16, octets: &'a [u8]) -> Result<ContentView<'a>, CommandStatus>
    ensures { result ≡ text_at bound octets.entry.now }
{
    if !are_below(bound, octets) {
        return Err(CommandStatus::ESME_RSUBMITFAIL);
    }
    Ok(ContentView {
        form: ContentForm::Characters,
        octets,
    })
}

// Octets or septets of the data coding scheme itself.
fn class_view<'a>(scheme: u8, octets: &'a [u8]) -> Result<ContentView<'a>, CommandStatus>
    ensures { result ≡ class_at scheme (coding_of scheme) octets.entry.now }
{
    match dcs(scheme) {
        Coding::Septets => septets_view(scheme, octets),
        Coding::Octets => Ok(units_view(Coding::Octets, scheme, octets)),
        Coding::Ucs2 | Coding::Compressed => Err(CommandStatus::ESME_RSUBMITFAIL),
    }
}

/// The characters that the octets are the codes of.
pub fn latin_text(alloc: Global, octets: &[u8]) -> Result<String, AllocError>
    ensures { IfOk result (λ text. chars (string_bytes text) ≡ octets.now) }
{
    let mut text = String::new(alloc);
    for octet in octets {
        text.push(char::from(*octet))?;
    }
    Ok(text)
}

// The content of such characters.
fn latin_content(alloc: Global, octets: &[u8]) -> Result<Content, AllocError>
    ensures { IfOk result (λ content. content ≡ content_of_text octets.now) }
{
    let text = latin_text(alloc, octets)?;
    content_of_text(alloc, text.as_str())
}

// UCS2 has two octets for each unit.
fn are_whole(coding: Coding, units: &[u8]) -> bool
    ensures { result ≡ are_whole coding units.now }
{
    match coding {
        Coding::Ucs2 => units.len() % 2 == 0,
        _ => true,
    }
}

// Whether a count found no more than 20 parts.
fn are_few(count: Result<u8, SplitError>) -> bool
    ensures { (wanted : Result (List PartOf) SplitErrorOf) → count ≡ counted wanted → result ≡ splits wanted }
{
    match count {
        Ok(_) => true,
        Err(_) => false,
    }
}

impl<'a> ContentView<'a> {
    /// The content of the octets of a submit_sm, by its data_coding (SMPP v3.4 5.2.19):
    /// - 0: septets, one an octet;
    /// - 1, ASCII, and 3, Latin-1: in the default alphabet where it can be, else in UCS2;
    /// - 2 and 4: octets; 8: UCS2;
    /// - F0 to FF: as the data coding scheme.
    /// Others are refused, and octets that are no characters of theirs.
    pub(crate) fn of(data_coding: u8, octets: &'a [u8]) -> Result<ContentView<'a>, CommandStatus>
        ensures { result ≡ content_at data_coding octets.entry.now }
    {
        match data_coding {
            0 => septets_view(0x00, octets),
            1 => text_view(128, octets),
            2 | 4 => Ok(units_view(Coding::Octets, 0x04, octets)),
            3 => text_view(256, octets),
            8 => Ok(units_view(Coding::Ucs2, 0x08, octets)),
            0xF0..=0xFF => class_view(data_coding, octets),
            _ => Err(CommandStatus::ESME_RSUBMITFAIL),
        }
    }

    /// Whether its units are whole.
    pub(crate) fn is_whole(&self) -> bool
        ensures { result ≡ are_whole self.now.coding self.now.units }
    {
        match self.form {
            ContentForm::Units { coding, .. } => are_whole(coding, self.octets),
            ContentForm::Characters => true,
        }
    }

    /// Whether it has at most 20 parts.
    pub(crate) fn splits(&self) -> bool
        ensures { result ≡ splits (split_of self.now 0) }
    {
        match self.form {
            ContentForm::Units { coding, .. } => are_few(count_parts(coding, self.octets)),
            ContentForm::Characters => are_few(count_latin_parts(self.octets)),
        }
    }

    /// Whether it fits one part behind a header of so many octets.
    pub(crate) fn fits_behind(&self, header: usize) -> bool
        requires { header ≤ 256 }
        ensures fits { result ≡ nat_le (data_length self.now.coding header (length self.now.units)) (capacity self.now.coding) }
        ensures units { AreUnits self.now.coding self.now.units }
    {
        match self.form {
            ContentForm::Units { coding, .. } => {
                units_fit_behind(coding, header, self.octets.len())
            }
            ContentForm::Characters => latin_fits_behind(header, self.octets),
        }
    }

    /// The content, of our own.
    pub(crate) fn content(&self, alloc: Global) -> Result<Content, AllocError>
        ensures { IfOk result (λ content. content ≡ self.now) }
    {
        match self.form {
            ContentForm::Units { coding, scheme } => Ok(Content {
                coding,
                dcs: scheme,
                units: Octets::copy_of(alloc, self.octets)?,
            }),
            ContentForm::Characters => latin_content(alloc, self.octets),
        }
    }
}

/// The content of the octets of a submit_sm, by its data_coding (SMPP v3.4 5.2.19):
/// - 0: septets, one an octet;
/// - 1, ASCII, and 3, Latin-1: in the default alphabet where it can be, else in UCS2;
/// - 2 and 4: octets; 8: UCS2;
/// - F0 to FF: as the data coding scheme.
/// Others are refused, and octets that are no characters of theirs.
pub fn content_of(alloc: Global, data_coding: u8, octets: &[u8]) -> Result<Content, SmppError>
    ensures { Answered result (content_at data_coding octets.now) }
{
    let view = ContentView::of(data_coding, octets)?;
    let content = view.content(alloc)?;
    Ok(content)
}
