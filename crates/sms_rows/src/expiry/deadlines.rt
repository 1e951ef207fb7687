//! The deadlines of all messages that are pending.
ghost use Rattle.std.specs.Prelude.{◌≡◌, ◌⊎◌, ◌+◌, ◌-◌, ◌≤◌, ◌<◌, ℕ, [], ◌∷◌, length, max, IfNone, IfSome, Some, OnErr, OnOk, IfOk, IsOk};
ghost use Rattle.std.specs.BinaryHeap.{IsHeap};
ghost use Rattle.std.specs.List.Sorted.{IsNonDecreasing, IsPermutation};
ghost use Rattle.sms_base.specs.Among.{Among};
ghost use Rattle.sms_rows.specs.expiry.Deadlines.{HasOnlyPast, HasPast, IsCollected, IsOf, IsPastIn, first_of, heap_cmp};
ghost use Rattle.sms_rows.specs.declared.expiry.deadline.Deadline.{Deadline as DeadlineOf};

use crate::expiry::deadline::Deadline;
use sms_base::Moment;
use std::alloc::{AllocError, Global};
use std::cmp::Reverse;
use std::collections::BinaryHeap;
use std::marker::Model;

/// The deadlines of messages, seen by contracts as a list in no particular order and how many its memory holds.
#[derive(Drop)]
pub struct Deadlines {
    heap: BinaryHeap<Reverse<Deadline>>,
}

impl Model for Deadlines {
    ghost use Rattle.std.specs.Prelude.{map};
    ghost use Rattle.std.specs.BinaryHeap.{IsHeap, heap_capacity, heap_items};
    ghost use Rattle.sms_rows.specs.expiry.Deadlines.{DeadlinesOf, heap_cmp, inside};

    ghost Value = { DeadlinesOf };

    ghost view = { λ d. record { items = map inside (heap_items d.heap); capacity = heap_capacity d.heap } };

    ghost invariant = { λ d. IsHeap heap_cmp (heap_items d.heap) };
}

/// Memory for deadlines that no heap uses yet, seen by contracts as how many it holds.
#[derive(Drop)]
pub struct DeadlinesReserve {
    heap: BinaryHeap<Reverse<Deadline>>,
}

impl Model for DeadlinesReserve {
    ghost use Rattle.std.specs.Prelude.{◌≡◌, ℕ, []};
    ghost use Rattle.std.specs.BinaryHeap.{heap_capacity, heap_items};

    ghost Value = { ℕ };

    ghost view = { λ d. heap_capacity d.heap };

    ghost invariant = { λ d. heap_items d.heap ≡ [] };
}

impl Deadlines {
    /// No deadlines.
    pub fn new(alloc: Global) -> Deadlines
        ensures { result.items ≡ [] }
    {
        Deadlines {
            heap: BinaryHeap::new(alloc),
        }
    }

    /// Adds a deadline. Where memory is wanting, nothing has changed.
    pub fn push(&mut self, deadline: Deadline) -> Result<(), AllocError>
        ensures own { OnOk result (Among deadline self.new.items) }
        ensures others { (other : DeadlineOf) → Among other self.old.items → Among other self.new.items }
        ensures len { OnOk result (length self.new.items ≡ length self.old.items + 1) }
        ensures exact { OnOk result (IsPermutation (deadline ∷ self.old.items) self.new.items) }
        ensures err { OnErr result (self.new.items ≡ self.old.items) }
        ensures capacity { self.old.capacity ≤ self.new.capacity }
        ensures ready { length self.old.items + 1 ≤ self.old.capacity → IsOk result }
    {
        self.heap.push(Reverse(deadline))?;
        Ok(())
    }

    /// Adds a deadline without taking memory.
    pub fn push_ready(&mut self, deadline: Deadline)
        requires { length self.old.items + 1 ≤ self.old.capacity }
        ensures own { Among deadline self.new.items }
        ensures others { (other : DeadlineOf) → Among other self.old.items → Among other self.new.items }
        ensures len { length self.new.items ≡ length self.old.items + 1 }
        ensures exact { IsPermutation (deadline ∷ self.old.items) self.new.items }
        ensures capacity { self.old.capacity ≤ self.new.capacity }
    {
        match self.push(deadline) {
            Ok(()) => (),
            Err(_) => (),
        }
    }

    /// The first deadline of the heap, if there is one.
    pub fn first(&self) -> Option<Deadline>
        ensures { result ≡ first_of self.now.items }
    {
        match self.heap.peek() {
            Some(first) => Some(first.0),
            None => None,
        }
    }

    /// Removes the first deadline of the heap.
    pub fn drop_first(&mut self)
        ensures others { (other : DeadlineOf) → Among other self.old.items → (Some other ≡ first_of self.old.items) ⊎ Among other self.new.items }
        ensures len { length self.new.items ≤ length self.old.items }
        ensures less { length self.new.items ≡ length self.old.items - 1 }
        ensures exact { IfSome (first_of self.old.items) (λ first. IsPermutation self.old.items (first ∷ self.new.items)) }
        ensures capacity { self.new.capacity ≡ self.old.capacity }
    {
        self.heap.pop();
    }

    /// Memory for that many deadlines more where the own is too small for them, else none.
    pub fn make_reserve(&self, alloc: Global, extra: usize) -> Result<DeadlinesReserve, AllocError>
        ensures { IfOk result (λ reserve. length self.now.items + extra ≤ max self.now.capacity reserve) }
    {
        let len = self.heap.len();
        if extra <= self.heap.capacity() - len {
            let heap = BinaryHeap::new(alloc);
            return Ok(DeadlinesReserve { heap });
        }
        let Some(wanted) = len.checked_add(extra) else {
            return Err(AllocError);
        };
        let Some(capacity) = len.checked_add(wanted) else {
            return Err(AllocError);
        };
        let heap = BinaryHeap::with_capacity(alloc, capacity)?;
        Ok(DeadlinesReserve { heap })
    }

    /// Moves the deadlines into the memory where it is larger than the own, without taking memory.
    pub fn use_reserve(&mut self, reserve: DeadlinesReserve)
        ensures items { (deadline : DeadlineOf) → Among deadline self.old.items → Among deadline self.new.items }
        ensures len { length self.new.items ≡ length self.old.items }
        ensures exact { IsPermutation self.old.items self.new.items }
        ensures capacity { max self.old.capacity reserve ≤ self.new.capacity }
    {
        let mut heap = reserve.heap;
        if self.heap.capacity() < heap.capacity() {
            match heap.append(&mut self.heap) {
                Ok(()) => self.heap = heap,
                Err(_) => (),
            }
        }
    }

    /// The numbers of messages whose moment is reached, none of them missing and no other, in order. A number may be
    /// there twice. It costs a logarithm for each.
    pub fn past(&self, alloc: Global, now: Moment) -> Result<Vec<u64>, AllocError>
        ensures all { IfOk result (λ ids. HasPast now self.now.items ids.items) }
        ensures only { IfOk result (λ ids. HasOnlyPast now self.now.items ids.items) }
        ensures order { IfOk result (λ ids. IsNonDecreasing ids.items) }
    {
        let mut ids = Vec::new(alloc);
        collect(self.heap.as_slice(), 0, now, &mut ids)?;
        ids.sort()?;
        Ok(ids)
    }
}

// The number of the message whose deadline stands at that place of a heap, if its moment has come. Else below the place
// there is none whose moment has.
fn due(heap: &[Reverse<Deadline>], place: usize, now: Moment) -> Option<u64>
    requires { IsHeap heap_cmp heap.now }
    ensures inside { IfSome result (λ id. place < length heap.now) }
    ensures due { IfSome result (λ id. IsPastIn now heap.now id) }
    ensures own { IfSome result (λ id. IsOf heap.now place id) }
    ensures none { IfNone result (IsCollected now heap.now place []) }
{
    if place >= heap.len() {
        return None;
    }
    let deadline = heap[place].0;
    if now < deadline.limit {
        return None;
    }
    Some(deadline.id.number())
}

// The numbers of messages whose moment has come, from that place of a heap on downwards: below a place whose moment is to
// come there is none.
fn collect(
    heap: &[Reverse<Deadline>],
    place: usize,
    now: Moment,
    ids: &mut Vec<u64>,
) -> Result<(), AllocError>
    requires { IsHeap heap_cmp heap.now }
    ensures earlier { OnOk result ((n : ℕ) → Among n ids.old.items → Among n ids.new.items) }
    ensures found { OnOk result (IsCollected now heap.now place ids.new.items) }
    ensures only { OnOk result ((n : ℕ) → Among n ids.new.items → Among n ids.old.items ⊎ IsPastIn now heap.now n) }
{
    let Some(id) = due(heap, place, now) else {
        return Ok(());
    };
    ids.push(id)?;
    collect(heap, 2 * place + 1, now, ids)?;
    collect(heap, 2 * place + 2, now, ids)
}
