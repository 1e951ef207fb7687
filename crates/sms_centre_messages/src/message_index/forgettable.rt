//! What is asked of a message before it is forgotten.
ghost use Rattle.std.specs.Prelude.{◌≡◌, ◌+◌, ◌≤◌, ◌++◌, ◌&&◌, List, drop, is_some, length, nat_le, nat_lt, slice_get, slice_range, IfOk, OnOk};
ghost use Rattle.sms_rows.specs.table.Keys.{pair_key};
ghost use Rattle.sms_rows.specs.table.Table.{rows_between, rows_from};
ghost use Rattle.sms_centre_rows.specs.messages.Bars.{claims_of, claims_of_header, claims_of_split};
ghost use Rattle.sms_centre_rows.specs.messages.Messages.{message_key};
ghost use Rattle.sms_centre_rows.specs.messages.PartEntries.{Few, entry_key};
ghost use Rattle.sms_centre_rows.specs.messages.SplitReferences.{unless_split, wide_in};
ghost use Rattle.sms_centre_rows.specs.declared.messages.message.MessageRow.{MessageRow as MessageRowOf};
ghost use Rattle.sms_centre_rows.specs.declared.messages.part.PartRow.{PartRow as PartRowOf};
ghost use Rattle.sms_centre_spec.specs.forgetting.Forget.{next_from};
ghost use Rattle.sms_centre_spec.specs.forgetting.Forgetting.{is_before as is_before_of, leaves_number};
ghost use Rattle.sms_centre_messages.specs.message_index.Forgettable.{claims_of_entries, count_parts};
ghost use Rattle.sms_centre_messages.specs.message_index.MessageIndex.{Represents};

use crate::message_index::index::MessageIndex;
use crate::message_index::message_entry::MessageEntry;
use crate::references::own_reference;
use sms_base::{MessageId, Moment};
use sms_centre_rows::messages::{Claim, MessageRow, is_delivered};
use sms_concat::ConcatKey;
use sms_rows::table::Key;
use std::alloc::{AllocError, Global};

// Where the parts of a message stand among all: from the one place on, before the other.
#[derive(Clone, Copy)]
struct PartPlaces {
    start: usize,
    end: usize,
}

impl MessageIndex {
    /// The place of the first message with that number or a greater one, in the order of numbers, from place 0 on.
    pub fn place_from(&self, number: u64) -> usize
        ensures { (ms : List MessageRowOf) (ps : List PartRowOf) → Represents self.now ms ps → drop result ms ≡ rows_from message_key number ms }
    {
        self.messages.place_of(Key::of(number))
    }

    /// The message at that place, in memory of its own.
    pub fn row(&self, alloc: Global, place: usize) -> Result<Option<MessageRow>, AllocError>
        ensures { (ms : List MessageRowOf) (ps : List PartRowOf) → Represents self.now ms ps → IfOk result (λ row. row ≡ slice_get ms place) }
    {
        match self.messages.get(place) {
            Some(entry) => self.names.row(alloc, entry),
            None => Ok(None),
        }
    }

    /// The number of the first message behind so many from that number on, or 0 where there is none.
    pub fn number_behind(&self, number: u64, most: u16) -> u64
        ensures { (ms : List MessageRowOf) (ps : List PartRowOf) → Represents self.now ms ps → result ≡ next_from number most ms }
    {
        let start = self.messages.place_of(Key::of(number));
        let most = usize::from(most);
        if self.messages.len() - start <= most {
            return 0;
        }
        match self.messages.get(start + most) {
            Some(entry) => entry.id.number(),
            None => 0,
        }
    }

    /// How many parts the message has.
    pub fn count_parts(&self, id: MessageId) -> usize
        ensures { (ms : List MessageRowOf) (ps : List PartRowOf) → Represents self.now ms ps → result ≡ count_parts id ps }
    {
        let places = self.places_of_parts(id);
        places.end - places.start
    }

    // Where the parts of the message stand; their numbers are 1 to 20.
    fn places_of_parts(&self, id: MessageId) -> PartPlaces
        ensures order { result.start ≤ result.end }
        ensures bound { result.end ≤ length self.now.parts.rows }
        ensures rows { rows_between entry_key (pair_key id 0) (pair_key id 255) self.now.parts.rows
            ≡ slice_range self.now.parts.rows result.start result.end }
    {
        let number = id.number();
        let start = self.parts.place_of(Key::pair(number, 0));
        let end = self.parts.place_of(Key::pair(number, 255));
        PartPlaces { start, end }
    }

    /// Whether a later message gives the next number, and was submitted no earlier.
    pub fn leaves_number(&self, message: &MessageRow) -> bool
        ensures { (ms : List MessageRowOf) (ps : List PartRowOf) → Represents self.now ms ps → result ≡ leaves_number message.now ms }
    {
        match self.messages.last() {
            Some(last) => is_before(message, last),
            None => false,
        }
    }

    /// What the message lays claim to, put behind these claims.
    pub fn add_claims(
        &self,
        message: &MessageRow,
        claims: &mut Vec<Claim>,
    ) -> Result<(), AllocError>
        ensures { (ms : List MessageRowOf) (ps : List PartRowOf) → Represents self.now ms ps → Few ps
            → OnOk result (claims.new.items ≡ claims.old.items ++ claims_of message.now ps) }
    {
        add_claim_of_split(message, claims)?;
        self.add_claims_of_parts(message, claims)?;
        Ok(())
    }

    // What its parts lay claim to.
    fn add_claims_of_parts(
        &self,
        message: &MessageRow,
        claims: &mut Vec<Claim>,
    ) -> Result<(), AllocError>
        ensures { OnOk result (claims.new.items ≡ claims.old.items ++ claims_of_entries message.now
            (rows_between entry_key (pair_key message.now.id 0) (pair_key message.now.id 255) self.now.parts.rows)) }
    {
        let places = self.places_of_parts(message.id);
        self.add_claims_at(message, places, claims)?;
        Ok(())
    }

    // What the parts at these places lay claim to.
    fn add_claims_at(
        &self,
        message: &MessageRow,
        places: PartPlaces,
        claims: &mut Vec<Claim>,
    ) -> Result<(), AllocError>
        ensures { OnOk result (claims.new.items ≡ claims.old.items ++ claims_of_entries message.now
            (slice_range self.now.parts.rows places.start places.end)) }
    {
        for place in places.start..places.end {
            self.add_claim_at(message, place, claims)?;
        }
        Ok(())
    }

    // What the part at that place lays claim to, if there is one.
    fn add_claim_at(
        &self,
        message: &MessageRow,
        place: usize,
        claims: &mut Vec<Claim>,
    ) -> Result<(), AllocError>
        ensures { OnOk result (claims.new.items ≡ claims.old.items ++ claims_of_entries message.now
            (slice_range self.now.parts.rows place (place + 1))) }
    {
        match self.parts.get(place) {
            Some(part) => {
                add_claim_of_header(message, &part.key, claims)?;
                Ok(())
            }
            None => Ok(()),
        }
    }
}

// The reference that the centre gave, where not all of it was delivered.
fn add_claim_of_split(message: &MessageRow, claims: &mut Vec<Claim>) -> Result<(), AllocError>
    ensures { OnOk result (claims.new.items ≡ claims.old.items ++ claims_of_split message.now message.now.split_reference) }
{
    let Some(reference) = message.split_reference else {
        return Ok(());
    };
    if is_delivered(message.state) {
        return Ok(());
    }
    claims.push(claim(message, reference, false))?;
    Ok(())
}

// The 16-bit reference of a header that came with it.
fn add_claim_of_header(
    message: &MessageRow,
    key: &Option<ConcatKey>,
    claims: &mut Vec<Claim>,
) -> Result<(), AllocError>
    ensures { OnOk result (claims.new.items ≡ claims.old.items ++ claims_of_header message.now
        (unless_split message.now.split_reference (wide_in key.now))) }
{
    let Some(reference) = own_reference(message, key) else {
        return Ok(());
    };
    claims.push(claim(message, reference, true))?;
    Ok(())
}

fn claim(message: &MessageRow, reference: u16, is_own: bool) -> Claim
    ensures { result ≡ record { source = message.now.source; handset = message.now.handset; reference = reference; is_own = is_own } }
{
    Claim {
        source: message.source,
        handset: message.handset,
        reference,
        is_own,
    }
}

// Its number is lower than that of the other message, and it was submitted no later.
fn is_before(message: &MessageRow, last: &MessageEntry) -> bool
    ensures { result ≡ (nat_lt message.now.id last.now.id && nat_le message.now.submitted last.now.submitted) }
{
    message.id.number() < last.id.number()
        && message.submitted.seconds() <= last.submitted.seconds()
}

/// Whether the message has a final state, from before that moment.
pub fn has_ended(message: &MessageRow, before: Moment) -> bool
    ensures { result ≡ (is_some message.now.state && is_before_of before message.now.done) }
{
    message.state.is_some() && was_before(message.done, before)
}

fn was_before(done: Option<Moment>, before: Moment) -> bool
    ensures { result ≡ is_before_of before done }
{
    match done {
        Some(done) => done.seconds() < before.seconds(),
        None => false,
    }
}
