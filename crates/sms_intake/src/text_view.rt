//! The text of a submit_sm, before any memory is taken.
ghost use Rattle.std.specs.Prelude.{◌≡◌, ◌≤◌, IfOk, Some, drop, length, take};
ghost use Rattle.sms_alphabet.specs.HeaderGrammar.{header_at};
ghost use Rattle.sms_concat.specs.UserData.{FitsBehind, header_of};
ghost use Rattle.sms_intake.specs.PartBodies.{body_behind};
ghost use Rattle.sms_intake.specs.SmppIntake.{header_read, header_size, headed_text, plain_text, said, sar_key, sar_of, single_behind, text_in, text_of};
ghost use Rattle.sms_intake.specs.SmppIntake.{whole_of};

use crate::content_view::ContentView;
use crate::header_form::HeaderForm;
use crate::part_bodies::{body_of, single_of};
use crate::submission::{SinglePart, Text};
use smpp_pdu::{CommandStatus, Message, Tlvs};
use sms_base::OctetView;
use sms_concat::{
    ConcatKey, ConcatReference, Content, Header, Part, concat_info, header_length, user_data_behind,
};
use std::alloc::{AllocError, Global};
use std::marker::Model;

/// A text whose octets are borrowed, seen by contracts as the text.
#[derive(Drop)]
pub(crate) struct TextView<'a> {
    header: HeaderForm<'a>,
    content: ContentView<'a>,
}

impl<'a> Model for TextView<'a> {
    ghost use Rattle.sms_intake.specs.Forms.{HasRoomBehind, text_behind};
    ghost use Rattle.sms_intake.specs.declared.submission.Text.{Text as TextOf};

    ghost Value = { TextOf };

    ghost view = { λ t. text_behind t.header t.content };

    ghost invariant = { λ t. HasRoomBehind t.header t.content };
}

// The key of sar values: all three of them, with a number from 1 to the total.
fn sar_key(tlvs: &Tlvs<'_>) -> Option<ConcatKey>
    ensures { result ≡ sar_key tlvs.now.sar_msg_ref_num tlvs.now.sar_total_segments tlvs.now.sar_segment_seqnum }
{
    match (
        &tlvs.sar_msg_ref_num,
        &tlvs.sar_total_segments,
        &tlvs.sar_segment_seqnum,
    ) {
        (Some(reference), Some(total), Some(number)) => {
            sar_of(reference.as_slice(), total.as_slice(), number.as_slice())
        }
        _ => None,
    }
}

fn sar_of(reference: &[u8], total: &[u8], number: &[u8]) -> Option<ConcatKey>
    ensures { result ≡ sar_of reference.now total.now number.now }
{
    match (reference, total, number) {
        ([high, low], [total], [number]) if 0 < *number && *number <= *total => Some(ConcatKey {
            reference: ConcatReference::SixteenBit(256 * u16::from(*high) + u16::from(*low)),
            total: *total,
            number: *number,
        }),
        _ => None,
    }
}

// The octets that a message says.
fn said<'a>(message: &Message<'a>) -> &'a [u8]
    ensures { result.now ≡ said message.now }
{
    let short = message.short_message.as_slice();
    match &message.tlvs.message_payload {
        Some(payload) if short.is_empty() => payload.as_slice(),
        _ => short,
    }
}

// The key of a header, which is to be read.
fn header_read(octets: &[u8]) -> Result<Option<ConcatKey>, CommandStatus>
    ensures { result ≡ header_read (header_at octets.now) }
{
    match Header::read(octets) {
        Ok(header) => Ok(concat_info(&header)),
        Err(_) => Err(CommandStatus::ESME_RSUBMITFAIL),
    }
}

// A content in one part behind the header that came.
fn behind_given<'a>(
    header: &'a [u8],
    key: Option<ConcatKey>,
    content: ContentView<'a>,
) -> Result<TextView<'a>, CommandStatus>
    requires { length header.now ≤ 256 }
    ensures { result ≡ single_behind header.entry.now key content.entry }
{
    if !content.fits_behind(header.len()) {
        return Err(CommandStatus::ESME_RINVMSGLEN);
    }
    Ok(TextView {
        header: HeaderForm::Given {
            header: OctetView::of(header),
            key,
        },
        content,
    })
}

// A content in one part behind a header of sar values.
fn behind_sar<'a>(key: ConcatKey, content: ContentView<'a>) -> Result<TextView<'a>, CommandStatus>
    ensures { result ≡ single_behind (header_of (Some key)) (Some key) content.entry }
{
    if !content.fits_behind(header_length(Some(key))) {
        return Err(CommandStatus::ESME_RINVMSGLEN);
    }
    Ok(TextView {
        header: HeaderForm::Sar(key),
        content,
    })
}

// A content in as many parts as it takes.
fn whole<'a>(content: ContentView<'a>) -> Result<TextView<'a>, CommandStatus>
    ensures { result ≡ whole_of content.entry }
{
    if !content.splits() {
        return Err(CommandStatus::ESME_RINVMSGLEN);
    }
    Ok(TextView {
        header: HeaderForm::Without,
        content,
    })
}

// How many octets a header takes, its length octet included.
fn header_size(octets: &[u8]) -> usize
    ensures is { result ≡ header_size octets.now }
    ensures short { result ≤ 256 }
{
    match octets {
        [] => 0,
        [size, ..] => usize::from(*size) + 1,
    }
}

// The header that the octets begin with, and what stands behind it.
fn split_header<'a>(octets: &'a [u8]) -> (&'a [u8], &'a [u8])
    ensures header { result.0.now ≡ take (header_size octets.entry.now) octets.entry.now }
    ensures behind { result.1.now ≡ drop (header_size octets.entry.now) octets.entry.now }
    ensures short { length result.0.now ≤ 256 }
{
    let size = header_size(octets);
    if size <= octets.len() {
        octets.split_at(size)
    } else {
        (octets, &[])
    }
}

// A text behind a header of its own.
#[tactic(auto, unfolding(crate::specs::SmppIntake::headed_text))]
fn headed_text<'a>(data_coding: u8, octets: &'a [u8]) -> Result<TextView<'a>, CommandStatus>
    ensures { result ≡ headed_text data_coding octets.entry.now }
{
    let key = header_read(octets)?;
    let (header, behind) = split_header(octets);
    let content = ContentView::of(data_coding, behind)?;
    if !content.is_whole() {
        return Err(CommandStatus::ESME_RINVMSGLEN);
    }
    behind_given(header, key, content)
}

// Behind a header of sar values, or without one.
fn text_of<'a>(
    key: Option<ConcatKey>,
    content: ContentView<'a>,
) -> Result<TextView<'a>, CommandStatus>
    ensures { result ≡ text_of key content.entry }
{
    match key {
        None => whole(content),
        Some(key) => behind_sar(key, content),
    }
}

// A text without a header of its own.
#[tactic(auto, unfolding(crate::specs::SmppIntake::plain_text))]
fn plain_text<'a>(
    data_coding: u8,
    tlvs: &Tlvs<'_>,
    octets: &'a [u8],
) -> Result<TextView<'a>, CommandStatus>
    ensures { result ≡ plain_text data_coding tlvs.now octets.entry.now }
{
    let content = ContentView::of(data_coding, octets)?;
    if !content.is_whole() {
        return Err(CommandStatus::ESME_RINVMSGLEN);
    }
    text_of(sar_key(tlvs), content)
}

// A content behind a header that came.
fn given_part(
    alloc: Global,
    header: &[u8],
    key: Option<ConcatKey>,
    content: &Content,
) -> Result<SinglePart, AllocError>
    requires { FitsBehind (length header.now) content.now }
    ensures { IfOk result (λ part. part ≡ body_behind header.now key content.now) }
{
    let user = user_data_behind(alloc, header, content)?;
    Ok(single_of(content.dcs, key, user))
}

// A content behind a header of sar values.
fn sar_part(alloc: Global, key: ConcatKey, content: Content) -> Result<SinglePart, AllocError>
    requires { FitsBehind (length (header_of (Some key))) content }
    ensures { IfOk result (λ part. part ≡ body_behind (header_of (Some key)) (Some key) content) }
{
    let part = Part {
        content,
        key: Some(key),
    };
    body_of(alloc, &part)
}

impl<'a> TextView<'a> {
    /// What a message says, or why it can't be said.
    pub(crate) fn of(message: &Message<'a>) -> Result<TextView<'a>, CommandStatus>
        ensures { result ≡ text_in message.now }
    {
        let octets = said(message);
        if message.esm_class / 0x40 % 2 == 1 {
            headed_text(message.data_coding, octets)
        } else {
            plain_text(message.data_coding, &message.tlvs, octets)
        }
    }

    /// The text, of our own.
    pub(crate) fn text(&self, alloc: Global) -> Result<Text, AllocError>
        ensures { IfOk result (λ text. text ≡ self.now) }
    {
        let content = self.content.content(alloc)?;
        match &self.header {
            HeaderForm::Without => Ok(Text::Whole(content)),
            HeaderForm::Given { header, key } => {
                Ok(Text::Single(given_part(alloc, header.as_slice(), *key, &content)?))
            }
            HeaderForm::Sar(key) => Ok(Text::Single(sar_part(alloc, *key, content)?)),
        }
    }
}
