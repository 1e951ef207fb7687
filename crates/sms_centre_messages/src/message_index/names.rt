//! What messages share: numbers and the names of accounts.
ghost use Rattle.std.specs.Prelude.{◌≡◌, ◌+◌, ◌*◌, ◌<◌, ◌≤◌, ℕ, List, Some, IfOk, IsOk, OnOk};
ghost use Rattle.sms_base.specs.Msisdn.{IsMsisdn};
ghost use Rattle.sms_rows.specs.interning.Interning.{IsAt, Keeps, TookNumbers, Suffices};
ghost use Rattle.sms_centre_messages.specs.message_index.Entries.{IsEntry, IsOriginator, NamesStay, UsesNames};
ghost use Rattle.sms_centre_messages.specs.message_index.Summaries.{summary_of};
ghost use Rattle.sms_centre_rows.specs.declared.messages.message.MessageRow.{MessageRow as MessageRowOf};
ghost use Rattle.sms_centre_rows.specs.reports.Receipts.{is_account as is_account_of};
ghost use Rattle.sms_base.specs.declared.originator.Originator.{Originator as OriginatorOf};

use crate::message_index::message_entry::{MessageEntry, OriginatorEntry};
use crate::message_index::summary::MessageSummary;
use sms_base::{Address, Msisdn, Octets, Originator};
use sms_centre_rows::messages::MessageRow;
use sms_rows::interning::{Accounts, AccountsReserve, Numbers, NumbersReserve};
use std::alloc::{AllocError, Global};
use std::marker::Model;

// Numbers and the names of accounts, each once.
#[derive(Drop)]
pub(crate) struct Names {
    pub(crate) numbers: Numbers,
    pub(crate) accounts: Accounts,
}

impl Model for Names {
    ghost use Rattle.sms_centre_messages.specs.message_index.Entries.{NamesOf};

    ghost Value = { NamesOf };

    ghost view = { λ n. record { numbers = n.numbers; accounts = n.accounts } };
}

// Memory for numbers and the names of accounts.
#[derive(Drop)]
pub(crate) struct NamesReserve {
    pub(crate) numbers: NumbersReserve,
    pub(crate) accounts: AccountsReserve,
}

impl Names {
    pub(crate) fn new(alloc: Global) -> Names {
        Names {
            numbers: Numbers::new(alloc),
            accounts: Accounts::new(alloc),
        }
    }

    // The originator of the entry; None where a place names nothing.
    fn originator(
        &self,
        alloc: Global,
        entry: &OriginatorEntry,
    ) -> Result<Option<Originator>, AllocError>
        ensures { (o : OriginatorOf) → IsOriginator self.now.accounts.values entry.now o → IfOk result (λ r. r ≡ Some o) }
    {
        match entry {
            OriginatorEntry::Application { account } => {
                let Some(name) = self.accounts.at(*account) else {
                    return Ok(None);
                };
                let account = Octets::copy_of(alloc, name.as_slice())?;
                Ok(Some(Originator::Application { account }))
            }
            OriginatorEntry::Handset { message_reference } => Ok(Some(Originator::Handset {
                message_reference: *message_reference,
            })),
        }
    }

    // The number of the handset under the place; None where it names none.
    fn handset(&self, place: usize) -> Option<Msisdn>
        ensures { (digits : List ℕ) → IsAt digits place self.now.numbers.values → IsMsisdn digits → result ≡ Some digits }
    {
        let digits = self.numbers.at(place)?;
        Msisdn::of_digits(&digits)
    }

    // The row of the entry; None where a place names nothing.
    pub(crate) fn row(
        &self,
        alloc: Global,
        entry: &MessageEntry,
    ) -> Result<Option<MessageRow>, AllocError>
        ensures { (m : MessageRowOf) → IsEntry self.now entry.now m → IfOk result (λ r. r ≡ Some m) }
    {
        let Some(digits) = self.numbers.at(entry.source_digits) else {
            return Ok(None);
        };
        let Some(handset) = self.handset(entry.handset) else {
            return Ok(None);
        };
        let Some(originator) = self.originator(alloc, &entry.originator)? else {
            return Ok(None);
        };
        Ok(Some(MessageRow {
            id: entry.id,
            originator,
            source: Address {
                ton: entry.source_type,
                npi: entry.source_plan,
                digits,
            },
            handset,
            data_coding_scheme: entry.data_coding_scheme,
            protocol_identifier: entry.protocol_identifier,
            wish: entry.wish,
            submitted: entry.submitted,
            limit: entry.limit,
            split_reference: entry.split_reference,
            state: entry.state,
            done: entry.done,
        }))
    }

    // What is reported of the entry's message; None where a place names nothing.
    pub(crate) fn summary(&self, entry: &MessageEntry) -> Option<MessageSummary>
        ensures { (m : MessageRowOf) → IsEntry self.now entry.now m → result ≡ Some (summary_of m) }
    {
        let source = self.numbers.at(entry.source_digits)?;
        let handset = self.handset(entry.handset)?;
        Some(MessageSummary {
            id: entry.id,
            source: Address {
                ton: entry.source_type,
                npi: entry.source_plan,
                digits: source,
            },
            handset,
            state: entry.state,
        })
    }

    // Whether the entry is that of an application of the account with that name.
    pub(crate) fn is_account(&self, entry: &OriginatorEntry, account: &[u8]) -> bool
        ensures { (o : OriginatorOf) → IsOriginator self.now.accounts.values entry.now o → result ≡ is_account_of account.now o }
    {
        match entry {
            OriginatorEntry::Application { account: place } => match self.accounts.at(*place) {
                Some(name) => name.as_slice() == account,
                None => false,
            },
            OriginatorEntry::Handset { .. } => false,
        }
    }

    // The entry of the originator, whose account's name is stored.
    fn originator_entry(&mut self, originator: Originator) -> Result<OriginatorEntry, AllocError>
        ensures own { IfOk result (λ entry. IsOriginator self.new.accounts.values entry originator) }
        ensures numbers { self.new.numbers ≡ self.old.numbers }
        ensures accounts { OnOk result (Keeps self.old.accounts.values self.new.accounts.values) }
        ensures room { OnOk result (self.old.accounts.room ≤ self.new.accounts.room + 1) }
        ensures ready { 0 < self.old.accounts.room → IsOk result }
    {
        match originator {
            Originator::Application { account } => {
                let account = self.accounts.put(account)?;
                Ok(OriginatorEntry::Application { account })
            }
            Originator::Handset { message_reference } => {
                Ok(OriginatorEntry::Handset { message_reference })
            }
        }
    }

    // The entry of the row, whose numbers and names are stored.
    pub(crate) fn entry(&mut self, row: MessageRow) -> Result<MessageEntry, AllocError>
        ensures own { IfOk result (λ entry. IsEntry self.new entry row) }
        ensures others { OnOk result (NamesStay self.old self.new) }
        ensures room { OnOk result (UsesNames self.old self.new) }
        ensures ready { 1 < self.old.numbers.room → 0 < self.old.accounts.room → IsOk result }
    {
        let MessageRow {
            id,
            originator,
            source,
            handset,
            data_coding_scheme,
            protocol_identifier,
            wish,
            submitted,
            limit,
            split_reference,
            state,
            done,
        } = row;
        let originator = self.originator_entry(originator)?;
        let source_digits = self.numbers.put(source.digits)?;
        handset.spells_a_number();
        let handset = self.numbers.put(handset.digits())?;
        Ok(MessageEntry {
            id,
            originator,
            source_type: source.ton,
            source_plan: source.npi,
            source_digits,
            handset,
            data_coding_scheme,
            protocol_identifier,
            wish,
            submitted,
            limit,
            split_reference,
            state,
            done,
        })
    }

    // The same without taking memory.
    pub(crate) fn entry_ready(&mut self, row: MessageRow) -> MessageEntry
        requires numbers { 1 < self.old.numbers.room }
        requires accounts { 0 < self.old.accounts.room }
        ensures own { IsEntry self.new result row }
        ensures others { NamesStay self.old self.new }
        ensures room { UsesNames self.old self.new }
    {
        match self.entry(row) {
            Ok(entry) => entry,
            Err(_) => unreachable!(),
        }
    }

    // Memory for what that many messages bring.
    pub(crate) fn make_reserve(
        &self,
        alloc: Global,
        messages: usize,
    ) -> Result<NamesReserve, AllocError>
        ensures numbers { IfOk result (λ reserve. Suffices (2 * messages) reserve.numbers self.now.numbers) }
        ensures accounts { IfOk result (λ reserve. Suffices messages reserve.accounts self.now.accounts) }
    {
        // A message has two numbers, that of its source and that of its destination.
        let Some(wanted) = messages.checked_add(messages) else {
            return Err(AllocError);
        };
        let numbers = self.numbers.make_reserve(alloc, wanted)?;
        match self.accounts.make_reserve(alloc, messages) {
            Ok(accounts) => Ok(NamesReserve { numbers, accounts }),
            Err(error) => {
                drop(numbers);
                Err(error)
            }
        }
    }

    // Moves all into the memory where it is larger than the own, without taking memory.
    pub(crate) fn use_reserve(&mut self, reserve: NamesReserve)
        ensures numbers { Keeps self.old.numbers.values self.new.numbers.values }
        ensures numbers_room { TookNumbers reserve.numbers self.old.numbers self.new.numbers }
        ensures accounts { Keeps self.old.accounts.values self.new.accounts.values }
        ensures accounts_room { TookNumbers reserve.accounts self.old.accounts self.new.accounts }
    {
        self.numbers.use_reserve(reserve.numbers);
        self.accounts.use_reserve(reserve.accounts);
    }
}
