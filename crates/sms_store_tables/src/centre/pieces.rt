//! Values that are several columns, or a word, in the store.
ghost use Rattle.std.specs.Prelude.{◌≡◌, ◌<◌, ◌+◌, ℕ, Option, pos, IfErr, IfOk, IfSome};
ghost use Rattle.sqlite.specs.Values.{or_null};
ghost use Rattle.sqlite.specs.declared.types.Value.TheVariants.{Blob, Int, Text};
ghost use Rattle.sqlite_value.specs.Order.{column};
ghost use Rattle.sms_alphabet.specs.declared.concat_key.ConcatKey.{ConcatKey as KeyOf};
ghost use Rattle.sms_base.specs.MessageId.{IsMessageId};
ghost use Rattle.sms_base.specs.TimeStamp.{IsMoment};
ghost use Rattle.sms_base.specs.declared.originator.Originator.{Originator as OriginatorOf};
ghost use Rattle.sms_centre_rows.specs.declared.reports.report.ReportKind.{ReportKind as ReportKindOf};
ghost use Rattle.sms_centre_rows.specs.declared.waiting.progress.Progress.{Progress as ProgressOf};
ghost use Rattle.sms_store_sql.specs.listing.Columns.{IsShort, flag, number, number_in, or_none, text_in};
ghost use Rattle.sms_store_sql.specs.listing.Reading.{HasAt, LacksMemory};
ghost use Rattle.sms_store_tables.specs.centre.Pieces.{HasKey, IsStoredKey, IsStoredKind, IsStoredOriginator, IsStoredProgress, account_of};
ghost use Rattle.sms_store_tables.specs.centre.Pieces.{key_in, kind_in, kind_reference, kind_tpdu, kind_word, mark_of, originator_in, progress_in};
ghost use Rattle.sms_store_tables.specs.centre.Pieces.{reference_bits, reference_number, state_in, state_word, wish_in, wish_word};

use crate::references::{reference_at, reference_bits, reference_number};
use crate::{fields, named};
use sms_base::{FinalState, MessageId, Originator, Wish};
use sms_centre_rows::reports::ReportKind;
use sms_centre_rows::waiting::Progress;
use sms_concat::ConcatKey;
use sms_store_sql::listing::{
    flag_at, is_null_at, moment_at, number_at, octet_at, octets_at, text_at,
};
use sqlite::{Error, Row};

pub(crate) fn id_at(row: &Row, at: usize) -> Result<MessageId, Error>
    ensures value { IfOk result (λ id. id ≡ number_in (column row.now at)) }
    ensures only { (n : ℕ) → IsMessageId n → HasAt row.now at (number n) → IfErr result LacksMemory }
{
    let number = number_at(row, at)?;
    MessageId::new(number).ok_or(Error::IntegralValueOutOfRange(at))
}

pub(crate) fn progress_at(row: &Row, at: usize) -> Result<Progress, Error>
    requires { at < 1000 }
    ensures value { IfOk result (λ progress. progress ≡ progress_in (column row.now at) (column row.now (at + 1)) (column row.now (at + 2))) }
    ensures only { (p : ProgressOf) → IsStoredProgress p → HasAt row.now at (flag p.is_done) → HasAt row.now (at + 1) (number p.attempts)
        → HasAt row.now (at + 2) (number p.due) → IfErr result LacksMemory }
{
    fields!(Progress in row, is_done: flag_at(at), attempts: octet_at(at + 1), due: moment_at(at + 2))
}

// ---- the place of a part in a long message

pub(crate) fn bits_of(key: Option<ConcatKey>) -> Option<u32>
    ensures value { or_null (λ n. Int (pos n)) result ≡ or_none (λ (k : KeyOf). number (reference_bits k.reference)) key }
    ensures stored { IfSome key IsStoredKey }
{
    match key {
        Some(key) => Some(reference_bits(key.reference)),
        None => None,
    }
}

pub(crate) fn number_of(key: Option<ConcatKey>) -> Option<u32>
    ensures { or_null (λ n. Int (pos n)) result ≡ or_none (λ (k : KeyOf). number (reference_number k.reference)) key }
{
    match key {
        Some(key) => Some(reference_number(key.reference)),
        None => None,
    }
}

pub(crate) fn concat_total_of(key: Option<ConcatKey>) -> Option<u32>
    ensures { or_null (λ n. Int (pos n)) result ≡ or_none (λ (k : KeyOf). number k.total) key }
{
    match key {
        Some(key) => Some(u32::from(key.total)),
        None => None,
    }
}

pub(crate) fn concat_number_of(key: Option<ConcatKey>) -> Option<u32>
    ensures { or_null (λ n. Int (pos n)) result ≡ or_none (λ (k : KeyOf). number k.number) key }
{
    match key {
        Some(key) => Some(u32::from(key.number)),
        None => None,
    }
}

pub(crate) fn key_at(row: &Row, at: usize) -> Result<Option<ConcatKey>, Error>
    requires { at < 1000 }
    ensures value { IfOk result (λ key. key ≡ key_in (column row.now at) (column row.now (at + 1)) (column row.now (at + 2)) (column row.now (at + 3))) }
    ensures only { (key : Option KeyOf) → IfSome key IsStoredKey → HasKey row.now at key → IfErr result LacksMemory }
{
    if is_null_at(row, at)? {
        return Ok(None);
    }
    let reference = reference_at(row, at, at + 1)?;
    let total = octet_at(row, at + 2)?;
    let number = octet_at(row, at + 3)?;
    Ok(Some(ConcatKey {
        reference,
        total,
        number,
    }))
}

// ---- who submitted a message

pub(crate) fn account_of<'a>(originator: &'a Originator) -> Option<&'a [u8]>
    ensures { or_null (λ octets. Blob octets.now) result ≡ account_of originator.entry.now }
{
    match originator {
        Originator::Application { account } => Some(account.as_slice()),
        Originator::Handset { .. } => None,
    }
}

pub(crate) fn mark_of(originator: &Originator) -> Option<u32>
    ensures value { or_null (λ n. Int (pos n)) result ≡ mark_of originator.now }
    ensures stored { IsStoredOriginator originator.now }
{
    match originator {
        Originator::Application { .. } => None,
        Originator::Handset { message_reference } => Some(u32::from(*message_reference)),
    }
}

pub(crate) fn originator_at(row: &Row, at: usize) -> Result<Originator, Error>
    requires { at < 1000 }
    ensures value { IfOk result (λ originator. originator ≡ originator_in (column row.now at) (column row.now (at + 1))) }
    ensures only { (o : OriginatorOf) → IsStoredOriginator o → HasAt row.now at (account_of o) → HasAt row.now (at + 1) (mark_of o) → IfErr result LacksMemory }
{
    if is_null_at(row, at)? {
        let message_reference = octet_at(row, at + 1)?;
        return Ok(Originator::Handset { message_reference });
    }
    let account = octets_at(row, at)?;
    Ok(Originator::Application { account })
}

// ---- which ends are reported to the originator, and how a message ended

pub(crate) fn wish_word(wish: Wish) -> &'static str
    ensures { result.now ≡ wish_word wish }
{
    match wish {
        Wish::Nothing => "nothing",
        Wish::Always => "always",
        Wish::OnFailure => "on_failure",
    }
}

pub(crate) fn wish_at(row: &Row, at: usize) -> Result<Wish, Error>
    ensures value { IfOk result (λ wish. wish ≡ wish_in (text_in (column row.now at))) }
    ensures only { (wish : Wish) → HasAt row.now at (Text (wish_word wish)) → IfErr result LacksMemory }
{
    named!(row, at,
        "nothing" => Wish::Nothing, "always" => Wish::Always, "on_failure" => Wish::OnFailure,
    )
}

pub(crate) fn state_word(state: Option<FinalState>) -> &'static str
    ensures { result.now ≡ state_word state }
{
    match state {
        None => "pending",
        Some(FinalState::Delivered) => "delivered",
        Some(FinalState::Expired) => "expired",
        Some(FinalState::Deleted) => "deleted",
        Some(FinalState::Undeliverable) => "undeliverable",
    }
}

pub(crate) fn state_at(row: &Row, at: usize) -> Result<Option<FinalState>, Error>
    ensures value { IfOk result (λ state. state ≡ state_in (text_in (column row.now at))) }
    ensures only { (state : Option FinalState) → HasAt row.now at (Text (state_word state)) → IfErr result LacksMemory }
{
    named!(row, at,
        "pending" => None, "delivered" => Some(FinalState::Delivered),
        "expired" => Some(FinalState::Expired), "deleted" => Some(FinalState::Deleted),
        "undeliverable" => Some(FinalState::Undeliverable),
    )
}

// ---- how an end is reported

pub(crate) fn kind_word(kind: &ReportKind) -> &'static str
    ensures { result.now ≡ kind_word kind.now }
{
    match kind {
        ReportKind::Receipt => "receipt",
        ReportKind::Status { .. } => "status",
        ReportKind::Unsent => "unsent",
    }
}

pub(crate) fn kind_reference(kind: &ReportKind) -> Option<u32>
    ensures value { or_null (λ n. Int (pos n)) result ≡ kind_reference kind.now }
    ensures stored { IsStoredKind kind.now }
{
    match kind {
        ReportKind::Status { reference, .. } => Some(u32::from(*reference)),
        ReportKind::Receipt | ReportKind::Unsent => None,
    }
}

pub(crate) fn kind_tpdu<'a>(kind: &'a ReportKind) -> Option<&'a [u8]>
    ensures { or_null (λ octets. Blob octets.now) result ≡ kind_tpdu kind.entry.now }
{
    match kind {
        ReportKind::Status { tpdu, .. } => Some(tpdu.as_slice()),
        ReportKind::Receipt | ReportKind::Unsent => None,
    }
}

pub(crate) fn report_kind_at(row: &Row, at: usize) -> Result<ReportKind, Error>
    requires { at < 1000 }
    ensures value { IfOk result (λ kind. kind ≡ kind_in (text_in (column row.now at)) (column row.now (at + 1)) (column row.now (at + 2))) }
    ensures only { (kind : ReportKindOf) → IsStoredKind kind → HasAt row.now at (Text (kind_word kind)) → HasAt row.now (at + 1) (kind_reference kind)
        → HasAt row.now (at + 2) (kind_tpdu kind) → IfErr result LacksMemory }
{
    let word = text_at(row, at)?;
    if word == "receipt" {
        return Ok(ReportKind::Receipt);
    }
    if word == "status" {
        let reference = octet_at(row, at + 1)?;
        let tpdu = octets_at(row, at + 2)?;
        return Ok(ReportKind::Status { reference, tpdu });
    }
    if word == "unsent" {
        return Ok(ReportKind::Unsent);
    }
    Err(Error::Utf8Error(at))
}

// ---- numbers that may be missing

pub(crate) fn short_of(short: Option<u16>) -> Option<u32>
    ensures value { or_null (λ n. Int (pos n)) result ≡ or_none number short }
    ensures stored { IfSome short IsShort }
{
    match short {
        Some(short) => Some(u32::from(short)),
        None => None,
    }
}
