//! Rows in the order of their keys, which a core and its plans share.
//!
//! A plan changes a copy, and adopting it puts the copy in the place of the original. An `Index` is a balanced tree
//! whose parts are shared, so that this costs what the plan touches. A copy costs equally much however many rows it
//! has. A row that is put or removed costs a logarithm, in time and in memory. The first row whose moment is reached,
//! or is still to be reached, is found in a logarithm. Contracts see an index as its rows in order.
ghost use Rattle.std.specs.Prelude.{◌≡◌, [], OnOk, OnErr, IfOk};
ghost use Rattle.sms_rows.specs.index.First.{first_such, is_ahead_from, is_past_from};
ghost use Rattle.sms_rows.specs.index.Picked.{set_at};
ghost use Rattle.sms_rows.specs.table.Table.{Rises, put, row_at, without};

mod bound;
mod dated;
mod tree;

use crate::index::bound::Bound;
use crate::index::tree::Tree;
use crate::table::{Change, Key};
pub use dated::Dated;
use sms_base::Moment;
use std::alloc::{AllocError, Global};
use std::marker::Model;

/// Rows in the order of their keys, at most one a key, which copies share.
#[derive(Drop)]
pub struct Index<T: Copy + Dated> {
    alloc: Global,
    tree: Tree<T>,
}

impl<T: Copy + Dated> Model for Index<T> {
    ghost use Rattle.std.specs.Prelude.{List};
    ghost use Rattle.sms_rows.specs.table.Table.{Rises};

    ghost Value = { List T };

    ghost view = { λ i. i.tree.rows };

    ghost invariant = { λ i. Rises T.key i.tree.rows };
}

impl<T: Copy + Dated> Index<T> {
    /// No rows.
    pub fn new(alloc: Global) -> Index<T>
        ensures { result ≡ [] }
    {
        Index {
            alloc,
            tree: Tree::new(),
        }
    }

    /// A copy that shares all rows. It costs equally much however many there are.
    pub fn share(&self) -> Result<Index<T>, AllocError>
        ensures { IfOk result (λ copy. copy ≡ self.now) }
    {
        let tree = self.tree.share()?;
        Ok(Index {
            alloc: self.alloc,
            tree,
        })
    }

    /// The row of that key, if there is one.
    pub fn find(&self, key: Key) -> Option<T>
        ensures row { result ≡ row_at T.key key self.now }
        ensures order { Rises T.key self.now }
    {
        self.tree.find(key)
    }

    /// Puts the row in the place of that of its key, or where its key belongs. Where memory is wanting, nothing has changed.
    pub fn put(&mut self, row: T) -> Result<(), AllocError>
        ensures ok { OnOk result (self.new ≡ put T.key row self.old) }
        ensures err { OnErr result (self.new ≡ self.old) }
    {
        self.tree = self.tree.changed(self.alloc, &Change::Put(row))?;
        Ok(())
    }

    /// Takes the row of that key out, if there is one. Where memory is wanting, nothing has changed.
    pub fn remove(&mut self, key: Key) -> Result<(), AllocError>
        ensures ok { OnOk result (self.new ≡ without T.key key self.old) }
        ensures err { OnErr result (self.new ≡ self.old) }
    {
        self.tree = self.tree.changed(self.alloc, &Change::Remove(key))?;
        Ok(())
    }

    /// Puts the row under the key, or removes the key's row. Where memory is wanting, nothing has changed.
    pub fn set(&mut self, key: Key, row: Option<T>) -> Result<(), AllocError>
        ensures ok { OnOk result (self.new ≡ set_at T.key key row self.old) }
        ensures err { OnErr result (self.new ≡ self.old) }
    {
        match row {
            Some(row) => self.put(row),
            None => self.remove(key),
        }
    }

    /// The first row from that key on whose moment is reached.
    pub fn first_past(&self, first: Key, now: Moment) -> Option<T>
        ensures { result ≡ first_such (is_past_from T.key T.moment first now) self.now }
    {
        self.tree.first_of(Bound::Past, first, now)
    }

    /// The first row from that key on whose moment is still ahead.
    pub fn first_ahead(&self, first: Key, now: Moment) -> Option<T>
        ensures { result ≡ first_such (is_ahead_from T.key T.moment first now) self.now }
    {
        self.tree.first_of(Bound::Ahead, first, now)
    }
}
