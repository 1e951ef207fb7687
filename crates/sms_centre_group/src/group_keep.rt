//! The keep of a group.
ghost use Rattle.std.specs.Prelude.{◌≡◌, ◌≢◌, ◌⊎◌, ⊤, OnOk, IfErr};
ghost use Rattle.sms_rows.specs.declared.keep.error.KeepError.TheVariants.{NotThisStore, OldVersion};
ghost use Rattle.sms_rows.specs.keep.Refusing.{no_refusals};
ghost use Rattle.sms_rows.specs.keep.StoreOutcome.{IfHeld, IsCounted, IsReadCounted, StoreOutcome, WasHonest};
ghost use Rattle.sms_centre_spec.specs.Draft.{no_changes, rows_after};
ghost use Rattle.sms_centre_spec.specs.declared.rows.Changes.{Changes as ChangesOf};
ghost use Rattle.sms_centre_spec.specs.declared.rows.Rows.{Rows as RowsOf};
ghost use Rattle.sms_centre_spec.specs.bodies.Storing.{IfClosed};
ghost use Rattle.sms_centre_group.specs.Grouping.{FlushEnds, Spans, group_state, grouped_body, held_in, store_of};
ghost use Rattle.sms_centre_group.specs.HeldRoom.{HasRoomFor};
ghost use Rattle.sms_centre_group.specs.Joined.{joined};
ghost use Rattle.sms_centre_group.specs.Newest.{put_octets};

use crate::held_changes::HeldChanges;
use crate::looking::octets_put;
use sms_base::Octets;
use sms_centre_spec::bodies::CentreStore;
use sms_centre_spec::{Changes, Rows};
use sms_rows::keep::{BodyKeep, Keep, KeepError, Refusals, RowStore};
use sms_rows::table::Key;
use std::alloc::{AllocError, Global};

/// A centre's store, and what the events of a group changed, which is not committed yet.
#[derive(Drop)]
pub struct GroupKeep<K: CentreStore + Drop> {
    pub(crate) store: K,
    pub(crate) held: HeldChanges,
    pub(crate) refusals: Refusals,
    pub(crate) alloc: Global,
}

impl<K: CentreStore + Drop> GroupKeep<K> {
    /// A group in which nothing has happened yet.
    pub fn over(alloc: Global, store: K) -> GroupKeep<K>
        ensures store { store_of result ≡ store }
        ensures held { held_in result ≡ no_changes }
        ensures refusals { result.refusals ≡ no_refusals }
    {
        GroupKeep {
            store,
            held: HeldChanges::none(alloc),
            refusals: Refusals::none(),
            alloc,
        }
    }

    /// The store. What the group changed is let go.
    pub fn into_store(self) -> K
        ensures { result ≡ store_of self }
    {
        let GroupKeep { store, held, .. } = self;
        drop(held);
        store
    }

    /// Makes room for the changes of one event more.
    pub fn make_room(&mut self, changes: &Changes) -> Result<(), AllocError>
        ensures room { OnOk result (HasRoomFor changes.now self.new.held) }
        ensures store { store_of self.new ≡ store_of self.old }
        ensures held { held_in self.new ≡ held_in self.old }
        ensures refusals { self.new.refusals ≡ self.old.refusals }
    {
        self.held.make_room(changes)
    }

    /// Takes the changes of an event into the group. The store is not asked: nothing durable changes.
    pub fn hold(&mut self, changes: Changes)
        requires { HasRoomFor changes self.old.held }
        ensures store { store_of self.new ≡ store_of self.old }
        ensures held { held_in self.new ≡ joined (held_in self.old) changes }
        ensures rows { (base rows : RowsOf) → Spans (K.state (store_of self.old)) (held_in self.old) base rows
            → Spans (K.state (store_of self.new)) (held_in self.new) base (rows_after changes rows) }
        ensures refusals { self.new.refusals ≡ self.old.refusals }
    {
        self.held.hold(changes);
    }

    /// Commits what the whole group changed, or nothing. Either way no group is open then. Where the group changes nothing,
    /// the store is not asked.
    ///
    /// # Errors
    /// What the store's commit gives. The store has the rows from before the group, or is closed.
    pub fn flush(&mut self) -> Result<(), KeepError>
        ensures outcome { (base rows : RowsOf) → (K.state (store_of self.new)).is_honest → Spans (K.state (store_of self.old)) (held_in self.old) base rows
            → FlushEnds (K.state (store_of self.new)) (held_in self.new) base rows result }
        // A stop inside it leaves the rows from before the group or those after it, if one before it leaves those from before it.
        ensures stop { (base rows : RowsOf) → (K.state (store_of self.new)).is_honest → Spans (K.state (store_of self.old)) (held_in self.old) base rows
            → ((left : RowsOf) → K.may_leave (store_of self.old) left → left ≡ base)
            → (left : RowsOf) → K.may_leave (store_of self.new) left → (left ≡ base) ⊎ (left ≡ rows) }
        ensures closed { held_in self.new ≡ no_changes }
        // It refuses only where there is something to commit.
        ensures asked { IfErr result (λ error. held_in self.old ≢ no_changes) }
        ensures named { IfErr result (λ error. (error ≢ OldVersion) × (error ≢ NotThisStore)) }
        ensures before { WasHonest (K.state (store_of self.old)) (K.state (store_of self.new)) }
        ensures counted { IsCounted (group_state K.state self.old) (group_state K.state self.new) result }
    {
        if self.held.is_empty() {
            return Ok(());
        }
        let changes = self.held.take(self.alloc);
        let committed = self.commit(&changes);
        drop(changes);
        committed
    }

    // Commits these changes, whatever is held.
    fn commit(&mut self, changes: &Changes) -> Result<(), KeepError>
        ensures outcome { (rows : RowsOf)
            → StoreOutcome (λ done. ⊤) rows (rows_after changes.now rows) (K.state (store_of self.old)) (K.state (store_of self.new)) result }
        ensures stop { (rows : RowsOf) → IfHeld rows (K.state (store_of self.old)) (K.state (store_of self.new))
            ((left : RowsOf) → K.may_leave (store_of self.new) left
            → (left ≡ rows) ⊎ (left ≡ rows_after changes.now rows)) }
        ensures named { IfErr result (λ error. (error ≢ OldVersion) × (error ≢ NotThisStore)) }
        ensures before { WasHonest (K.state (store_of self.old)) (K.state (store_of self.new)) }
        ensures held { held_in self.new ≡ held_in self.old }
        ensures counted { IsCounted (group_state K.state self.old) (group_state K.state self.new) result }
    {
        match self.store.commit(changes) {
            Ok(()) => Ok(()),
            Err(error) => {
                self.refusals.call();
                Err(error)
            }
        }
    }

    /// Lets go what the group changed, and gives the rows of what is committed. A store that was closed refuses.
    pub fn gather(&mut self) -> Result<Rows, KeepError>
        ensures outcome { (rows : RowsOf) → StoreOutcome (λ found. found ≡ rows) rows rows (K.state (store_of self.old)) (K.state (store_of self.new)) result }
        ensures closed { IfClosed (K.state (store_of self.old)) (K.state (store_of self.new)) (OnOk result ⊥) }
        ensures held { held_in self.new ≡ no_changes }
        ensures named { IfErr result (λ error. error ≢ OldVersion) }
        ensures before { WasHonest (K.state (store_of self.old)) (K.state (store_of self.new)) }
    {
        let changes = self.held.take(self.alloc);
        drop(changes);
        match self.store.gather() {
            Ok(rows) => Ok(rows),
            Err(error) => {
                self.refusals.call();
                Err(error)
            }
        }
    }

    // The octets of what is committed.
    fn committed_body(&mut self, key: Key) -> Result<Option<Octets>, KeepError>
        ensures outcome { (rows : RowsOf)
            → StoreOutcome (λ body. body ≡ K.body_of rows key) rows rows (K.state (store_of self.old)) (K.state (store_of self.new)) result }
        ensures before { WasHonest (K.state (store_of self.old)) (K.state (store_of self.new)) }
        ensures held { held_in self.new ≡ held_in self.old }
        ensures counted { IsReadCounted key (group_state K.state self.old) (group_state K.state self.new) result }
    {
        match self.store.body(key) {
            Ok(body) => {
                self.refusals.answer();
                Ok(body)
            }
            Err(error) => {
                self.refusals.read(key);
                Err(error)
            }
        }
    }

    // The octets that the group put under the key, or else those of what is committed.
    fn read_put(&mut self, key: Key, put: Option<Octets>) -> Result<Option<Octets>, KeepError>
        requires { put ≡ put_octets (held_in self.old) key }
        ensures outcome { (rows : RowsOf × ChangesOf) → StoreOutcome (λ body. body ≡ grouped_body K.body_of rows key) rows rows
            (group_state K.state self.old) (group_state K.state self.new) result }
        ensures before { WasHonest (group_state K.state self.old) (group_state K.state self.new) }
        ensures counted { IsReadCounted key (group_state K.state self.old) (group_state K.state self.new) result }
    {
        match put {
            Some(octets) => {
                self.refusals.answer();
                Ok(Some(octets))
            }
            None => self.committed_body(key),
        }
    }

    // The octets of the row of that key, as the group leaves it. Want of memory for their copy counts as a refused read.
    fn read(&mut self, key: Key) -> Result<Option<Octets>, KeepError>
        ensures outcome { (rows : RowsOf × ChangesOf) → StoreOutcome (λ body. body ≡ grouped_body K.body_of rows key) rows rows
            (group_state K.state self.old) (group_state K.state self.new) result }
        ensures before { WasHonest (group_state K.state self.old) (group_state K.state self.new) }
        ensures counted { IsReadCounted key (group_state K.state self.old) (group_state K.state self.new) result }
    {
        match octets_put(self.alloc, &self.held, key) {
            Ok(put) => self.read_put(key, put),
            Err(_) => {
                self.refusals.read(key);
                Err(KeepError::NoMemory)
            }
        }
    }
}

impl<K: CentreStore + Drop> RowStore for GroupKeep<K> {
    // What is committed, and what the group changed.
    type Rows = (Rows, Changes);

    ghost state = { λ group. group_state K.state group };
}

impl<K: CentreStore + Drop> BodyKeep for GroupKeep<K> {
    ghost body_of = { λ rows key. grouped_body K.body_of rows key };

    fn body(&mut self, key: Key) -> Result<Option<Octets>, KeepError> {
        self.read(key)
    }
}
