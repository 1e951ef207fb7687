//! The inbox of a handset: the messages and parts that it has stored (3GPP TS 23.040 9.2.3.24.1 and 10.1).
//!
//! An entry is a message, a part of an open group, or a long message that was joined. `OpenGroups` is the index of the
//! open groups by their first stored parts, and has exactly those of the entries. A change of it, a `Regrouping`, is
//! put in with memory that was taken before. Each open group has what its parts carry in a joiner, so that the parts of
//! a full group aren't read again. `Members` are the stored parts of one group, found by the index. The tests of
//! `sound_inbox` answer whether a handset can have left such rows; they take no memory.

mod discarded_group;
mod entry;
mod groups;
mod joining;
mod last_accepted;
pub mod laws;
mod members;
mod open_group;
mod open_groups;
mod slots;
mod sound_inbox;
mod taking;

pub use discarded_group::DiscardedGroup;
pub use entry::{Entry, Group, Message};
pub use groups::{find_mark, has_every, is_among, is_full, is_same_address, key_of};
pub use joining::joined_content;
pub use last_accepted::{LastAccepted, is_double};
pub use members::Members;
pub use open_group::{OpenGroup, Regrouping, StoredPart};
pub use open_groups::{OpenGroups, OpenGroupsReserve};
pub use slots::slots_in;
pub use sound_inbox::{are_entries, are_last, are_marks, are_of_open_groups, is_apart, is_given};
