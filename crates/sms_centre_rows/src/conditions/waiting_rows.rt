//! Whether all that waits holds references that were given, different ones at a handset.
ghost use Rattle.std.specs.Prelude.{◌≡◌, ℕ, nat_eq, filter_map, if◌then◌else◌, IfOk, OnOk, Some};
ghost use Rattle.std.specs.List.{list_all};
ghost use Rattle.std.specs.Map.{lookup};
ghost use Rattle.std.specs.Option.{option_map};
ghost use Rattle.sms_rows.specs.table.Keys.{pair_key};
ghost use Rattle.sms_centre_rows.specs.conditions.Differing.{differ as differ_of};
ghost use Rattle.sms_centre_rows.specs.conditions.AllocationTest.{number_key};
ghost use Rattle.sms_centre_rows.specs.conditions.WaitingTest.{Places, holds as holds_of, is_row as is_row_of};
ghost use Rattle.sms_centre_rows.specs.conditions.WaitingTest.{part_given as part_given_of, part_hold as part_hold_of, part_waits_at as part_waits_at_of};
ghost use Rattle.sms_centre_rows.specs.conditions.WaitingTest.{report_given as report_given_of, report_hold as report_hold_of};
ghost use Rattle.sms_centre_rows.specs.conditions.WaitingTest.{report_waits_at as report_waits_at_of};
ghost use Rattle.sms_centre_rows.specs.reports.Reports.{status_reference as status_reference_of};

use crate::conditions::differ::differ;
use crate::messages::{MessageRow, PartRow};
use crate::reports::{ReportKind, ReportRow};
use crate::waiting::{HandsetRow, ReferenceRow};
use indexmap::IndexMap;
use sms_base::{Digits, Msisdn};
use sms_rows::table::{Key, Table};
use std::alloc::{AllocError, Global};

// ---- places of handsets

/// The places of the handsets under the keys of their digits.
pub fn places_of(alloc: Global, handsets: &[HandsetRow]) -> Result<IndexMap<u128, u32>, AllocError>
    ensures { IfOk result (λ places. Places places.entries handsets.now) }
{
    let mut places = IndexMap::with_capacity(alloc, handsets.len())?;
    for handset in handsets {
        note_place(&mut places, handset)?;
    }
    Ok(places)
}

#[tactic(auto, using(crate::proofs::conditions::PlacesNoted::place_noted))]
fn note_place(places: &mut IndexMap<u128, u32>, handset: &HandsetRow) -> Result<(), AllocError>
    ensures { OnOk result ((key : ℕ) → lookup (nat_eq key) places.new.entries
        ≡ (if nat_eq key (number_key handset.now) then Some handset.now.place else lookup (nat_eq key) places.old.entries)) }
{
    match places.insert(Key::handset(&handset.number).number(), handset.place) {
        Ok(_) => Ok(()),
        Err(_) => Err(AllocError),
    }
}

// The key of a reference at the handset whose number has that key.
fn hold_at(places: &IndexMap<u128, u32>, number: Key, reference: u8) -> Option<Key>
    ensures { result ≡ option_map (λ (place : ℕ). pair_key place reference) (lookup (nat_eq number) places.now.entries) }
{
    match places.get(&number.number()) {
        Some(place) => Some(Key::pair(u64::from(*place), reference)),
        None => None,
    }
}

fn is_row(references: &Table<ReferenceRow>, hold: Option<Key>) -> bool
    ensures { result ≡ is_row_of references.now.rows hold }
{
    match hold {
        Some(key) => references.find(key).is_some(),
        None => false,
    }
}

// ---- parts

fn part_waits_at(part: &PartRow, message: &MessageRow) -> Option<Msisdn>
    ensures { result ≡ part_waits_at_of part.now (Some message.now) }
{
    if !part.progress.is_done && message.state.is_none() {
        Some(message.handset)
    } else {
        None
    }
}

fn part_given(
    places: &IndexMap<u128, u32>,
    references: &Table<ReferenceRow>,
    messages: &Table<MessageRow>,
    part: &PartRow,
) -> bool
    ensures { result ≡ part_given_of places.now.entries references.now.rows messages.now.rows part.now }
{
    // What is done waits nowhere.
    if part.progress.is_done {
        return true;
    }
    let Some(message) = messages.find(Key::of(part.id.number())) else {
        return true;
    };
    match part_waits_at(part, message) {
        Some(number) => is_row(
            references,
            hold_at(places, Key::handset(&number), part.reference),
        ),
        None => true,
    }
}

/// Whether the reference of each part that waits was given where it waits.
pub fn are_parts_given(
    places: &IndexMap<u128, u32>,
    references: &Table<ReferenceRow>,
    messages: &Table<MessageRow>,
    parts: &[PartRow],
) -> bool
    ensures { result ≡ list_all (part_given_of places.now.entries references.now.rows messages.now.rows) parts.now }
{
    parts
        .iter()
        .all(|part| part_given(places, references, messages, part))
}

fn part_hold(
    places: &IndexMap<u128, u32>,
    messages: &Table<MessageRow>,
    part: &PartRow,
) -> Option<u128>
    ensures { result ≡ part_hold_of places.now.entries messages.now.rows part.now }
{
    if part.progress.is_done {
        return None;
    }
    let message = messages.find(Key::of(part.id.number()))?;
    let number = part_waits_at(part, message)?;
    let key = hold_at(places, Key::handset(&number), part.reference)?;
    Some(key.number())
}

fn part_holds(
    alloc: Global,
    places: &IndexMap<u128, u32>,
    messages: &Table<MessageRow>,
    parts: &[PartRow],
) -> Result<Vec<u128>, AllocError>
    ensures { IfOk result (λ keys. keys.items ≡ filter_map (part_hold_of places.now.entries messages.now.rows) parts.now) }
{
    parts
        .iter()
        .filter_map(|part| part_hold(places, messages, part))
        .collect(alloc)
}

// ---- status reports

/// The reference of the status report, or 0 of what is none.
pub fn status_reference(report: &ReportRow) -> u8
    ensures { result ≡ status_reference_of report.now.kind }
{
    match &report.kind {
        ReportKind::Status { reference, .. } => *reference,
        _ => 0,
    }
}

fn report_waits_at(report: &ReportRow, message: &MessageRow) -> Option<Digits>
    ensures { result ≡ report_waits_at_of report.now (Some message.now) }
{
    match &report.kind {
        ReportKind::Status { .. } => {
            if report.progress.is_done {
                None
            } else {
                Some(message.source.digits)
            }
        }
        _ => None,
    }
}

fn report_given(
    places: &IndexMap<u128, u32>,
    references: &Table<ReferenceRow>,
    messages: &Table<MessageRow>,
    report: &ReportRow,
) -> bool
    ensures { result ≡ report_given_of places.now.entries references.now.rows messages.now.rows report.now }
{
    let Some(message) = messages.find(Key::of(report.id.number())) else {
        return true;
    };
    match report_waits_at(report, message) {
        Some(number) => is_row(
            references,
            hold_at(places, Key::digits(&number), status_reference(report)),
        ),
        None => true,
    }
}

/// Whether the reference of each status report that waits was given where it waits.
pub fn are_reports_given(
    places: &IndexMap<u128, u32>,
    references: &Table<ReferenceRow>,
    messages: &Table<MessageRow>,
    reports: &[ReportRow],
) -> bool
    ensures { result ≡ list_all (report_given_of places.now.entries references.now.rows messages.now.rows) reports.now }
{
    reports.iter().all(|report| report_given(places, references, messages, report))
}

fn report_hold(
    places: &IndexMap<u128, u32>,
    messages: &Table<MessageRow>,
    report: &ReportRow,
) -> Option<u128>
    ensures { result ≡ report_hold_of places.now.entries messages.now.rows report.now }
{
    let message = messages.find(Key::of(report.id.number()))?;
    let number = report_waits_at(report, message)?;
    let key = hold_at(places, Key::digits(&number), status_reference(report))?;
    Some(key.number())
}

fn report_holds(
    alloc: Global,
    places: &IndexMap<u128, u32>,
    messages: &Table<MessageRow>,
    reports: &[ReportRow],
) -> Result<Vec<u128>, AllocError>
    ensures { IfOk result (λ keys. keys.items ≡ filter_map (report_hold_of places.now.entries messages.now.rows) reports.now) }
{
    reports
        .iter()
        .filter_map(|report| report_hold(places, messages, report))
        .collect(alloc)
}

// ---- all of it

/// Whether no two of what waits hold one reference of one handset.
pub fn have_references_apart(
    alloc: Global,
    places: &IndexMap<u128, u32>,
    messages: &Table<MessageRow>,
    parts: &[PartRow],
    reports: &[ReportRow],
) -> Result<bool, AllocError>
    ensures { IfOk result (λ b. b ≡ differ_of (holds_of places.now.entries messages.now.rows parts.now reports.now)) }
{
    let mut keys = part_holds(alloc, places, messages, parts)?;
    let mut others = report_holds(alloc, places, messages, reports)?;
    keys.append(&mut others)?;
    differ(alloc, &keys)
}
