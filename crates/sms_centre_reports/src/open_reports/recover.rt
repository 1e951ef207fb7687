//! What memory has of reports, rebuilt from the rows of a store.
ghost use Rattle.std.specs.Prelude.{◌≡◌, ℕ, List, Some, IfOk, nat_lt, option_copied};
ghost use Rattle.sms_centre_reports.specs.open_reports.Entries.{account_in};
ghost use Rattle.sms_centre_reports.specs.open_reports.OpenReports.{Represents};
ghost use Rattle.sms_centre_rows.specs.messages.Messages.{message_at, message_key};
ghost use Rattle.sms_centre_rows.specs.reports.SoundReports.{SoundReports};
ghost use Rattle.sms_rows.specs.table.Table.{Rises};

use crate::open_reports::reports::OpenReports;
use sms_base::{MessageId, Originator};
use sms_centre_rows::messages::MessageRow;
use sms_centre_rows::reports::ReportRow;
use std::alloc::{AllocError, Global};

impl OpenReports {
    /// The open reports of sound rows, with their messages in the order of their numbers. It costs a logarithm for
    /// each.
    pub fn recover(
        alloc: Global,
        messages: &[MessageRow],
        rows: &[ReportRow],
    ) -> Result<OpenReports, AllocError>
        requires messages { Rises message_key messages.now }
        requires reports { SoundReports messages.now rows.now }
        ensures { IfOk result (λ reports. Represents messages.now reports rows.now) }
    {
        let mut reports = OpenReports::new(alloc);
        for row in rows {
            let account = account_name(messages, row.id);
            reports.add(row, account)?;
        }
        Ok(reports)
    }
}

// The name of the account that submitted the message; empty where none did.
fn account_name(messages: &[MessageRow], id: MessageId) -> &[u8]
    requires { Rises message_key messages.now }
    ensures { (name : List ℕ) → account_in (message_at id messages.now) ≡ Some name → result.now ≡ name }
{
    let Some(message) = find_message(messages, id) else {
        return &[];
    };
    match &message.originator {
        Originator::Application { account } => account.as_slice(),
        Originator::Handset { .. } => &[],
    }
}

// The message of that number, found by halves.
fn find_message(messages: &[MessageRow], id: MessageId) -> Option<&MessageRow>
    requires { Rises message_key messages.now }
    ensures { option_copied result ≡ message_at id messages.now }
{
    let place = messages.partition_point(
        |message: &MessageRow| -> bool
            ensures { result ≡ nat_lt (message_key message.now) id }
        { message.id.number() < id.number() },
    );
    if place == messages.len() {
        return None;
    }
    if id.number() < messages[place].id.number() {
        return None;
    }
    Some(&messages[place])
}
