//! The octets that held changes put.
ghost use Rattle.std.specs.Prelude.{◌≡◌, Bool, ℕ, IfOk, option_copied};
ghost use Rattle.sms_centre_group.specs.HeldRoom.{changes_in};
ghost use Rattle.sms_centre_group.specs.Newest.{first_of, is_part, is_report, newest as newest_of, put_by as put_by_of, put_octets, replaces as replaces_of};
ghost use Rattle.sms_centre_group.specs.Newest.{stays as stays_of};
ghost use Rattle.sms_centre_rows.specs.messages.Messages.{part_key};
ghost use Rattle.sms_centre_rows.specs.reports.Reports.{report_key};
ghost use Rattle.sms_centre_spec.specs.octets.OctetsAt.{part_octets, report_octets};

use crate::held_changes::HeldChanges;
use sms_base::Octets;
use sms_centre_rows::messages::PartRow;
use sms_centre_rows::reports::ReportRow;
use sms_centre_rows::waiting::Revision;
use sms_centre_spec::octets::{copy_of_kind_octets, copy_of_octets};
use sms_rows::table::{Key, Row};
use std::alloc::{AllocError, Global};

/// A row that is looked for by a number.
pub(crate) trait Sought: Row {
    /// Whether the number stands for it.
    ghost is: { ℕ → Self → Bool };

    fn is(&self, number: u128) -> bool
        ensures { result ≡ is number self.now };
}

impl Sought for PartRow {
    ghost is = { is_part };

    fn is(&self, number: u128) -> bool {
        self.key().number() == number
    }
}

impl Sought for ReportRow {
    ghost is = { is_report };

    fn is(&self, number: u128) -> bool {
        u128::from(self.id.number()) == number
    }
}

// Whether the change puts another row in the place of that of the key, or removes it.
fn replaces<T: Drop + Row>(revision: &Revision<T>, key: Key) -> bool
    ensures { result ≡ replaces_of T.key key revision.now }
{
    match revision {
        Revision::Put(row) => row.key().number() == key.number(),
        Revision::Amend { .. } => false,
        Revision::Remove(removed) => removed.number() == key.number(),
    }
}

// Whether the row of the key stays.
fn stays<T: Drop + Row>(key: Key, later: &[Revision<T>]) -> bool
    ensures { result ≡ stays_of T.key key later.now }
{
    for revision in later {
        if replaces(revision, key) {
            return false;
        }
    }
    true
}

// The row that the change puts, if the number stands for it and the changes after it leave it.
fn put_by<'a, T: Drop + Sought>(
    number: u128,
    revision: &'a Revision<T>,
    later: &[Revision<T>],
) -> Option<&'a T>
    ensures { option_copied result ≡ put_by_of T.key (T.is number) revision.entry.now later.now }
{
    match revision {
        Revision::Put(row) => {
            if row.is(number) && stays(row.key(), later) {
                Some(row)
            } else {
                None
            }
        }
        Revision::Amend { .. } | Revision::Remove(_) => None,
    }
}

// The one that was put, or else the one that was found.
fn newer<'a, T>(found: Option<&'a T>, put: Option<&'a T>) -> Option<&'a T>
    ensures { option_copied result ≡ first_of (option_copied put.entry) (option_copied found.entry) }
{
    match put {
        Some(row) => Some(row),
        None => found,
    }
}

// The newest row that the number stands for, of those that the changes put and leave.
fn newest<'a, T: Drop + Sought>(number: u128, revisions: &'a [Revision<T>]) -> Option<&'a T>
    ensures { option_copied result ≡ newest_of T.key (T.is number) revisions.entry.now }
{
    let mut found = None;
    for i in 0..revisions.len() {
        found = newer(found, put_by(number, &revisions[i], &revisions[i + 1..]));
    }
    found
}

fn part_put(
    alloc: Global,
    parts: &[Revision<PartRow>],
    key: Key,
) -> Result<Option<Octets>, AllocError>
    ensures { IfOk result (λ octets. octets ≡ part_octets (newest_of part_key (is_part key) parts.now)) }
{
    match newest(key.number(), parts) {
        Some(part) => {
            let octets = copy_of_octets(alloc, &part.tpdu)?;
            Ok(Some(octets))
        }
        None => Ok(None),
    }
}

fn report_put(
    alloc: Global,
    reports: &[Revision<ReportRow>],
    id: u128,
) -> Result<Option<Octets>, AllocError>
    ensures { IfOk result (λ octets. octets ≡ report_octets (newest_of report_key (is_report id) reports.now)) }
{
    match newest(id, reports) {
        Some(report) => copy_of_kind_octets(alloc, &report.kind),
        None => Ok(None),
    }
}

/// The octets that the held changes put under the key, and leave, copied.
pub(crate) fn octets_put(
    alloc: Global,
    held: &HeldChanges,
    key: Key,
) -> Result<Option<Octets>, AllocError>
    ensures { IfOk result (λ octets. octets ≡ put_octets (changes_in held.now) key) }
{
    if key.number() % 256 == 0 {
        report_put(alloc, held.reports.as_slice(), key.number() / 256)
    } else {
        part_put(alloc, held.parts.as_slice(), key)
    }
}
