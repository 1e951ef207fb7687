//! Balanced trees whose parts are shared.
ghost use Rattle.std.specs.Prelude.{◌≡◌, ◌≤◌, [], ◌∷◌, ◌++◌, IfOk, IfSome, MatchOption};
ghost use Rattle.sms_rows.specs.index.Bounds.{IsBounded};
ghost use Rattle.sms_rows.specs.index.First.{first_such, is_from};
ghost use Rattle.sms_rows.specs.index.Picked.{before_all};
ghost use Rattle.sms_rows.specs.index.Trees.{empty, forked};
ghost use Rattle.sms_rows.specs.table.Table.{Rises, applied, change_row, row_at};

use crate::index::bound::Bound;
use crate::index::dated::Dated;
use crate::table::{Change, Key};
use sms_base::Moment;
use std::alloc::{AllocError, Global};
use std::marker::Model;
use std::sync::Arc;

/// Rows in order, as a balanced tree that never changes (G. M. Adelson-Velsky and E. M. Landis, 1962). A tree with one
/// row more or less is a new one that shares all sides but those on the way to the row.
///
/// Heights are at most one apart beside each fork. No contract says so, since no result depends on it.
#[cycle(tree)]
#[derive(Drop)]
pub(crate) struct Tree<T: Copy + Dated> {
    root: Option<Arc<Fork<T>>>,
}

// A row, with what comes before it and behind it.
#[cycle(tree)]
#[derive(Drop)]
pub(crate) struct Fork<T: Copy + Dated> {
    pub(crate) left: Tree<T>,
    pub(crate) row: T,
    pub(crate) right: Tree<T>,
    height: u8,
    // No moment of a row is before the one, in seconds, or behind the other.
    pub(crate) earliest: u64,
    pub(crate) latest: u64,
}

impl<T: Copy + Dated> Model for Tree<T> {
    ghost use Rattle.std.specs.Prelude.{length};
    ghost use Rattle.sms_rows.specs.index.Shapes.{TreeOf};

    ghost Value = { TreeOf T };

    ghost use Rattle.sms_rows.specs.index.Bounds.{IsBounded};
    ghost use Rattle.sms_rows.specs.index.Trees.{tree_of};

    ghost view = { λ t. tree_of t.root };

    ghost invariant = { λ t. IsBounded T.moment (tree_of t.root) };

    ghost size = { λ t. length t.rows };

    ghost use Rattle.std.proofs.Common.{arith, length-append};

    ghost size_decreases = { λ a h. Prim.grind (arith, length-append) };
}

impl<T: Copy + Dated> Tree<T> {
    pub(crate) fn new() -> Tree<T>
        ensures { result ≡ empty }
    {
        Tree { root: None }
    }

    /// A copy that shares the whole tree.
    pub(crate) fn share(&self) -> Result<Tree<T>, AllocError>
        ensures { IfOk result (λ copy. copy ≡ self.now) }
    {
        match &self.root {
            None => Ok(Tree { root: None }),
            Some(fork) => {
                let fork = Arc::try_clone(fork)?;
                Ok(Tree { root: Some(fork) })
            }
        }
    }

    // How many forks are below one another.
    fn height(&self) -> u8 {
        match &self.root {
            None => 0,
            Some(fork) => fork.height,
        }
    }

    fn earliest(&self) -> u64
        ensures value { result ≡ self.now.earliest }
        ensures bounds { IsBounded T.moment self.now }
    {
        match &self.root {
            None => u64::MAX,
            Some(fork) => fork.earliest,
        }
    }

    fn latest(&self) -> u64
        ensures { result ≡ self.now.latest }
    {
        match &self.root {
            None => 0,
            Some(fork) => fork.latest,
        }
    }

    // The row between both sides.
    fn fork(alloc: Global, left: Tree<T>, row: T, right: Tree<T>) -> Result<Tree<T>, AllocError>
        ensures { IfOk result (λ t. t ≡ forked T.moment left row right) }
    {
        let height = left.height().max(right.height()).saturating_add(1);
        let moment = row.moment().seconds();
        let earliest = moment.min(left.earliest().min(right.earliest()));
        let latest = moment.max(left.latest().max(right.latest()));
        let fork = Arc::new(
            alloc,
            Fork {
                left,
                row,
                right,
                height,
                earliest,
                latest,
            },
        )?;
        Ok(Tree { root: Some(fork) })
    }
}

// ---- balance

impl<T: Copy + Dated> Tree<T> {
    // The row between both sides, which are shared.
    fn between(
        alloc: Global,
        left: &Tree<T>,
        row: T,
        right: &Tree<T>,
    ) -> Result<Tree<T>, AllocError>
        ensures { IfOk result (λ t. t ≡ forked T.moment left.now row right.now) }
    {
        let left = left.share()?;
        Tree::sharing_right(alloc, left, row, right)
    }

    // The row between both sides, of which the right one is shared.
    fn sharing_right(
        alloc: Global,
        left: Tree<T>,
        row: T,
        right: &Tree<T>,
    ) -> Result<Tree<T>, AllocError>
        ensures { IfOk result (λ t. t ≡ forked T.moment left row right.now) }
    {
        let right = right.share()?;
        Tree::fork(alloc, left, row, right)
    }

    // The row between both sides, of which the left one is shared.
    fn sharing_left(
        alloc: Global,
        left: &Tree<T>,
        row: T,
        right: Tree<T>,
    ) -> Result<Tree<T>, AllocError>
        ensures { IfOk result (λ t. t ≡ forked T.moment left.now row right) }
    {
        let left = left.share()?;
        Tree::fork(alloc, left, row, right)
    }

    /// The row between both sides, balanced where one side is higher by one row more or less than it was.
    pub(crate) fn balanced(
        alloc: Global,
        left: &Tree<T>,
        row: T,
        right: &Tree<T>,
    ) -> Result<Tree<T>, AllocError>
        ensures { IfOk result (λ t. t.rows ≡ left.now.rows ++ row ∷ right.now.rows) }
    {
        let (low, high) = (left.height(), right.height());
        if low > high.saturating_add(1) {
            lean_left(alloc, left, row, right)
        } else if high > low.saturating_add(1) {
            lean_right(alloc, left, row, right)
        } else {
            Tree::between(alloc, left, row, right)
        }
    }
}

// Balanced, where the left side is new and not kept.
fn with_left<T: Copy + Dated>(
    alloc: Global,
    left: Tree<T>,
    row: T,
    right: &Tree<T>,
) -> Result<Tree<T>, AllocError>
    ensures { IfOk result (λ t. t.rows ≡ left.rows ++ row ∷ right.now.rows) }
{
    Tree::balanced(alloc, &left, row, right)
}

// Balanced, where the right side is new and not kept.
fn with_right<T: Copy + Dated>(
    alloc: Global,
    left: &Tree<T>,
    row: T,
    right: Tree<T>,
) -> Result<Tree<T>, AllocError>
    ensures { IfOk result (λ t. t.rows ≡ left.now.rows ++ row ∷ right.rows) }
{
    Tree::balanced(alloc, left, row, &right)
}

// Balanced where the left side is higher.
fn lean_left<T: Copy + Dated>(
    alloc: Global,
    left: &Tree<T>,
    row: T,
    right: &Tree<T>,
) -> Result<Tree<T>, AllocError>
    ensures { IfOk result (λ t. t.rows ≡ left.now.rows ++ row ∷ right.now.rows) }
{
    let Some(fork) = &left.root else {
        return Tree::between(alloc, left, row, right);
    };
    let fork: &Fork<T> = fork;
    if fork.left.height() < fork.right.height() {
        return split(alloc, &fork.left, fork.row, &fork.right, row, right);
    }
    let right = Tree::between(alloc, &fork.right, row, right)?;
    Tree::sharing_left(alloc, &fork.left, fork.row, right)
}

// Balanced where the right side is higher.
fn lean_right<T: Copy + Dated>(
    alloc: Global,
    left: &Tree<T>,
    row: T,
    right: &Tree<T>,
) -> Result<Tree<T>, AllocError>
    ensures { IfOk result (λ t. t.rows ≡ left.now.rows ++ row ∷ right.now.rows) }
{
    let Some(fork) = &right.root else {
        return Tree::between(alloc, left, row, right);
    };
    let fork: &Fork<T> = fork;
    if fork.right.height() < fork.left.height() {
        return split(alloc, left, row, &fork.left, fork.row, &fork.right);
    }
    let left = Tree::between(alloc, left, row, &fork.left)?;
    Tree::sharing_right(alloc, left, fork.row, &fork.right)
}

// Balanced where what stands in the middle is higher: it is split, and its row goes to the root.
fn split<T: Copy + Dated>(
    alloc: Global,
    left: &Tree<T>,
    first: T,
    middle: &Tree<T>,
    second: T,
    right: &Tree<T>,
) -> Result<Tree<T>, AllocError>
    ensures { IfOk result (λ t. t.rows ≡ left.now.rows ++ first ∷ (middle.now.rows ++ second ∷ right.now.rows)) }
{
    let Some(fork) = &middle.root else {
        let left = Tree::between(alloc, left, first, middle)?;
        return Tree::sharing_right(alloc, left, second, right);
    };
    let fork: &Fork<T> = fork;
    let left = Tree::between(alloc, left, first, &fork.left)?;
    ahead(alloc, left, fork.row, &fork.right, second, right)
}

// The left side, the first row, and a fork of the rest.
fn ahead<T: Copy + Dated>(
    alloc: Global,
    left: Tree<T>,
    first: T,
    middle: &Tree<T>,
    second: T,
    right: &Tree<T>,
) -> Result<Tree<T>, AllocError>
    ensures { IfOk result (λ t. t.rows ≡ left.rows ++ first ∷ (middle.now.rows ++ second ∷ right.now.rows)) }
{
    let right = Tree::between(alloc, middle, second, right)?;
    Tree::fork(alloc, left, first, right)
}

// ---- rows

impl<T: Copy + Dated> Tree<T> {
    /// The row of that key, if there is one.
    pub(crate) fn find(&self, key: Key) -> Option<T>
        ensures { Rises T.key self.now.rows → result ≡ row_at T.key key self.now.rows }
    {
        let Some(fork) = &self.root else {
            return None;
        };
        let fork: &Fork<T> = fork;
        if key.number() < fork.row.key().number() {
            fork.left.find(key)
        } else if fork.row.key().number() < key.number() {
            fork.right.find(key)
        } else {
            Some(fork.row)
        }
    }

    /// The tree behind a change: the row in the place of that of its key, or where its key belongs, or the row of a key
    /// out.
    pub(crate) fn changed(&self, alloc: Global, change: &Change<T>) -> Result<Tree<T>, AllocError>
        ensures { IfOk result (λ t. Rises T.key self.now.rows → t.rows ≡ applied T.key change.now self.now.rows) }
    {
        let Some(fork) = &self.root else {
            let none = Tree::new();
            return replaced(alloc, &none, change, &none);
        };
        let fork: &Fork<T> = fork;
        let key = change.key().number();
        if key < fork.row.key().number() {
            let left = fork.left.changed(alloc, change)?;
            with_left(alloc, left, fork.row, &fork.right)
        } else if fork.row.key().number() < key {
            let right = fork.right.changed(alloc, change)?;
            with_right(alloc, &fork.left, fork.row, right)
        } else {
            replaced(alloc, &fork.left, change, &fork.right)
        }
    }

    // The first row, and the tree of all others.
    fn split_first(&self, alloc: Global) -> Result<Option<(T, Tree<T>)>, AllocError>
        ensures { IfOk result (λ o. MatchOption o (self.now.rows ≡ []) (λ split. self.now.rows ≡ split.0 ∷ split.1.rows)) }
    {
        let Some(fork) = &self.root else {
            return Ok(None);
        };
        let fork: &Fork<T> = fork;
        let split = fork.left.split_first(alloc)?;
        match split {
            None => {
                let right = fork.right.share()?;
                Ok(Some((fork.row, right)))
            }
            Some((first, left)) => {
                let rest = with_left(alloc, left, fork.row, &fork.right)?;
                Ok(Some((first, rest)))
            }
        }
    }
}

// The row that a change leaves between both sides, if it leaves one.
fn replaced<T: Copy + Dated>(
    alloc: Global,
    left: &Tree<T>,
    change: &Change<T>,
    right: &Tree<T>,
) -> Result<Tree<T>, AllocError>
    ensures { IfOk result (λ t. t.rows ≡ left.now.rows ++ before_all (change_row change.now) right.now.rows) }
{
    match change {
        Change::Put(row) => Tree::between(alloc, left, *row, right),
        Change::Remove(_) => joined(alloc, left, right),
    }
}

// The rows of both trees.
fn joined<T: Copy + Dated>(
    alloc: Global,
    left: &Tree<T>,
    right: &Tree<T>,
) -> Result<Tree<T>, AllocError>
    ensures { IfOk result (λ t. t.rows ≡ left.now.rows ++ right.now.rows) }
{
    match right.split_first(alloc)? {
        None => left.share(),
        Some((first, rest)) => with_right(alloc, left, first, rest),
    }
}

// ---- moments

impl<T: Copy + Dated> Tree<T> {
    /// The first row from that key on whose moment is reached, or is still ahead.
    pub(crate) fn first_of(&self, bound: Bound, first: Key, now: Moment) -> Option<T>
        ensures { Rises T.key self.now.rows → result ≡ first_such (is_from T.key T.moment bound first now) self.now.rows }
    {
        let Some(fork) = &self.root else {
            return None;
        };
        let fork: &Fork<T> = fork;
        if bound.has_none(now, fork.earliest, fork.latest) {
            return None;
        }
        if fork.row.key().number() < first.number() {
            return fork.right.first_of(bound, first, now);
        }
        match fork.left.first_of(bound, first, now) {
            Some(row) => Some(row),
            None if bound.is_within(now, fork.row.moment()) => Some(fork.row),
            None => fork.right.first_of(bound, first, now),
        }
    }
}
