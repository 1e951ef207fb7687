//! Open groups, as their index has them.
ghost use Rattle.std.specs.Prelude.{◌≡◌, option_copied};
ghost use Rattle.sms_handset_rows.specs.inbox.TakenParts.{with_taken as with_taken_of};

use crate::inbox::entry::Group;
use crate::inbox::taking::with_taken;
use sms_base::Listed;
use sms_concat::Part;
use sms_concat::joiner::Joiner;

/// A stored part of an open group.
#[derive(Clone, Copy, PartialEq, Eq)]
pub struct StoredPart {
    /// The number of its entry.
    pub entry: u32,
    /// Which part it is, 1 to the group's total.
    pub number: u8,
}

/// An open group with its stored parts, those of the lower entry numbers first.
#[derive(Drop)]
pub struct OpenGroup {
    pub group: Group,
    pub parts: Listed<StoredPart>,
    /// What the parts carry, ready to be joined; none once the octets of one are not its part, which those of no sound
    /// row are.
    pub joined: Option<Joiner>,
}

/// What an event changes in the index of open groups.
#[derive(Drop)]
pub enum Regrouping {
    Unchanged,
    /// The group is under the number of its first stored part, in the place of what was there.
    Opened {
        first: u32,
        group: OpenGroup,
    },
    /// The group under that number has these parts, and takes the new one, if its octets are its part.
    Grown {
        first: u32,
        parts: Listed<StoredPart>,
        part: Option<Part>,
    },
    /// The group whose first stored part has that number is open no longer.
    Closed {
        first: u32,
    },
}

impl OpenGroup {
    /// The group has these parts now, of which one is new. Takes no memory.
    pub(crate) fn take_one_more(&mut self, parts: Listed<StoredPart>, part: Option<Part>)
        ensures { self.new ≡ record self.old { parts = parts; joined = with_taken_of self.old.joined part } }
    {
        self.parts = parts;
        let joined = self.joined.take();
        self.joined = with_taken(joined, part);
    }

    /// What the parts carry, if each is its part.
    pub(crate) fn joiner(&self) -> Option<&Joiner>
        ensures { option_copied result ≡ self.now.joined }
    {
        match &self.joined {
            Some(joiner) => Some(joiner),
            None => None,
        }
    }
}
