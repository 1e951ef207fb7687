//! What earlier messages lay claim to, between two events.
ghost use Rattle.std.specs.Prelude.{◌≡◌, ◌%◌, [], ◌++◌, List};
ghost use Rattle.sms_centre_messages.specs.references.ReferenceIndex.{Represents, has_pending};
ghost use Rattle.sms_centre_spec.specs.forgetting.Forgetting.{leaves_split};
ghost use Rattle.sms_centre_rows.specs.messages.SplitReferences.{all_references, held_references, is_among, is_taken, next_split, own_references};
ghost use Rattle.sms_centre_rows.specs.declared.messages.bar.BarRow.{BarRow as BarRowOf};
ghost use Rattle.sms_centre_rows.specs.declared.messages.message.MessageRow.{MessageRow as MessageRowOf};
ghost use Rattle.sms_centre_rows.specs.declared.messages.part.PartRow.{PartRow as PartRowOf};

use crate::references::counts::Counts;
use crate::references::message_ends::MessageEnds;
use sms_base::{Address, Digits, Msisdn};
use sms_centre_rows::messages::MessageRow;
use std::alloc::Global;
use std::marker::Model;

/// What earlier messages lay claim to, between two events.
#[derive(Drop)]
pub struct ReferenceIndex {
    pub(crate) held: Counts,
    pub(crate) own: Counts,
    pub(crate) last: Counts,
    pub(crate) pending: Counts,
    pub(crate) held_bars: Counts,
    pub(crate) own_bars: Counts,
    // The place of the last bar, or 0.
    pub(crate) last_bar: u64,
}

impl Model for ReferenceIndex {
    ghost use Rattle.sms_centre_messages.specs.references.ReferenceIndex.{ReferenceIndexOf};

    ghost Value = { ReferenceIndexOf };

    ghost view = { λ k. record {
      held = k.held;
      own = k.own;
      last = k.last;
      pending = k.pending;
      held_bars = k.held_bars;
      own_bars = k.own_bars;
      last_bar = k.last_bar;
    } };
}

impl ReferenceIndex {
    /// No messages.
    pub fn new(alloc: Global) -> ReferenceIndex
        ensures { Represents result [] [] [] }
    {
        let held = Counts::new(alloc);
        let own = Counts::new(alloc);
        let last = Counts::new(alloc);
        let pending = Counts::new(alloc);
        let held_bars = Counts::new(alloc);
        let own_bars = Counts::new(alloc);
        ReferenceIndex {
            held,
            own,
            last,
            pending,
            held_bars,
            own_bars,
            last_bar: 0,
        }
    }

    /// Whether the reference of a submission's own header was given to a message of its source and handset that isn't
    /// wholly delivered, or to one that was not and is forgotten.
    pub fn is_taken(&self, source: &Address, handset: &Msisdn, reference: Option<u16>) -> bool
        ensures { (bs : List BarRowOf) (ms : List MessageRowOf) (ps : List PartRowOf) → Represents self.now bs ms ps
            → result ≡ is_taken reference (held_references source.now handset.now bs ms) }
    {
        match reference {
            Some(reference) => self.is_held(source, handset, reference),
            None => false,
        }
    }

    // Whether a message that isn't wholly delivered holds the reference, or one did that is forgotten.
    fn is_held(&self, source: &Address, handset: &Msisdn, reference: u16) -> bool
        ensures { (bs : List BarRowOf) (ms : List MessageRowOf) (ps : List PartRowOf) → Represents self.now bs ms ps
            → result ≡ is_among reference (held_references source.now handset.now bs ms) }
    {
        let key = MessageEnds::of(source, handset, reference);
        if self.held_bars.of(&key) > 0 {
            return true;
        }
        self.held.of(&key) > 0
    }

    // Whether one was submitted with the reference.
    fn is_own(&self, source: &Address, handset: &Msisdn, reference: u16) -> bool
        ensures { (bs : List BarRowOf) (ms : List MessageRowOf) (ps : List PartRowOf) → Represents self.now bs ms ps
            → result ≡ is_among reference (own_references source.now handset.now bs ms ps) }
    {
        let key = MessageEnds::of(source, handset, reference);
        if self.own_bars.of(&key) > 0 {
            return true;
        }
        self.own.of(&key) > 0
    }

    // Whether no message may be split under the reference now.
    fn is_barred(&self, source: &Address, handset: &Msisdn, reference: u16) -> bool
        ensures { (bs : List BarRowOf) (ms : List MessageRowOf) (ps : List PartRowOf) → Represents self.now bs ms ps
            → result ≡ is_among reference (held_references source.now handset.now bs ms ++ own_references source.now handset.now bs ms ps) }
    {
        if self.is_held(source, handset, reference) {
            return true;
        }
        self.is_own(source, handset, reference)
    }

    /// The reference under which the next message of that source to that handset is split, if one is free. It costs one
    /// look-up for each reference that is tried.
    pub fn next_split(&self, source: &Address, handset: &Msisdn) -> Option<u16>
        ensures { (bs : List BarRowOf) (ms : List MessageRowOf) (ps : List PartRowOf) → Represents self.now bs ms ps
            → result ≡ next_split source.now handset.now bs ms ps }
    {
        let turns = turns();
        let mut reference = start_after(self.last.of(&MessageEnds::of(source, handset, 0)));
        for _turn in 0..turns {
            if !self.is_barred(source, handset, reference) {
                return Some(reference);
            }
            reference = reference.wrapping_add(1);
        }
        None
    }

    /// Whether the centre did not split the message, or has split another of its source and handset since, under another reference.
    pub fn leaves_split(&self, message: &MessageRow) -> bool
        ensures { (bs : List BarRowOf) (ms : List MessageRowOf) (ps : List PartRowOf) → Represents self.now bs ms ps → result ≡ leaves_split message.now ms }
    {
        match message.split_reference {
            Some(reference) => {
                let last = self
                    .last
                    .of(&MessageEnds::of(&message.source, &message.handset, 0));
                last != u64::from(reference) + 1
            }
            None => true,
        }
    }

    /// Whether a message of that handset is pending under that TP-MR: the digits of its source, those of its destination, and
    /// TP-MR.
    pub fn has_pending(&self, source: &Digits, handset: &Msisdn, message_reference: u8) -> bool
        ensures { (bs : List BarRowOf) (ms : List MessageRowOf) (ps : List PartRowOf) → Represents self.now bs ms ps
            → result ≡ has_pending source.now handset.now message_reference ms }
    {
        self.pending.of(&MessageEnds::of_digits(source, handset, u16::from(message_reference))) > 0
    }
}

// How many references are tried at most.
#[tactic(auto, unfolding(sms_centre_rows::specs::messages::SplitReferences::all_references))]
fn turns() -> u32
    ensures { result ≡ all_references }
{
    65536
}

// The first one that is tried, by the code of the last one that was given.
fn start_after(last: u64) -> u16
    ensures { result ≡ last % 65536 }
{
    (last % 65536) as u16
}
