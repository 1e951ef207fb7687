//! Memory for more claims.
ghost use Rattle.std.specs.Prelude.{◌≡◌, IfOk, OnOk};
ghost use Rattle.sms_centre_messages.specs.references.Counts.{TookCounts, Suffices, counted};
ghost use Rattle.sms_centre_messages.specs.references.Moves.{FitsTheReferences, TakesInReferences};
ghost use Rattle.sms_centre_messages.specs.declared.references.message_ends.MessageEnds.{MessageEnds as BetweenOf};

use crate::references::counts::Counts;
use crate::references::message_ends::MessageEnds;
use crate::references::reference_index::ReferenceIndex;
use indexmap::IndexMap;
use sms_base::lending::put;
use std::alloc::{AllocError, Global};
use std::marker::Model;

// Memory for counts that no map uses yet, seen by contracts as how many it holds.
#[derive(Drop)]
pub(crate) struct CountsReserve {
    map: IndexMap<MessageEnds, u64>,
}

impl Model for CountsReserve {
    ghost use Rattle.std.specs.Prelude.{◌≡◌, ℕ, []};
    ghost use Rattle.indexmap.specs.IndexMap.{spare};

    ghost Value = { ℕ };

    ghost view = { λ s. spare s.map };

    ghost invariant = { λ s. s.map.entries ≡ [] };
}

impl CountsReserve {
    // No memory.
    fn new(alloc: Global) -> CountsReserve {
        CountsReserve {
            map: IndexMap::new(alloc),
        }
    }
}

impl Counts {
    // Memory for that many keys more where the own is too small for them, else none.
    pub(crate) fn make_reserve(
        &self,
        alloc: Global,
        extra: usize,
    ) -> Result<CountsReserve, AllocError>
        ensures { IfOk result (λ reserve. Suffices extra reserve self.now) }
    {
        let len = self.map.len();
        if extra <= self.map.capacity() - len {
            let map = IndexMap::new(alloc);
            return Ok(CountsReserve { map });
        }
        // A map's memory doubles by itself: its sizes go by powers of two.
        let Some(capacity) = len.checked_add(extra) else {
            return Err(AllocError);
        };
        let map = IndexMap::with_capacity(alloc, capacity)?;
        Ok(CountsReserve { map })
    }

    // Such memory takes the place of other such memory.
    pub(crate) fn make_reserve_in(
        &self,
        alloc: Global,
        extra: usize,
        place: &mut CountsReserve,
    ) -> Result<(), AllocError>
        ensures { OnOk result (Suffices extra place.new self.now) }
    {
        let reserve = self.make_reserve(alloc, extra)?;
        put(place, reserve);
        Ok(())
    }

    // Moves the counts into the memory where it is larger than the own, without taking memory.
    pub(crate) fn use_reserve(&mut self, reserve: CountsReserve)
        ensures counts { (key : BetweenOf) → counted key self.new ≡ counted key self.old }
        ensures room { TookCounts reserve self.old self.new }
    {
        let mut map = reserve.map;
        // The call says that no key is there twice.
        let _len = self.map.len();
        if self.map.capacity() < map.capacity() {
            match map.append(&mut self.map) {
                Ok(()) => put(&mut self.map, map),
                Err(_) => drop(map),
            }
        } else {
            drop(map);
        }
    }
}

/// Memory for what an event brings, which is put in with its changes.
#[derive(Drop)]
pub struct ReferenceIndexReserve {
    held: CountsReserve,
    own: CountsReserve,
    last: CountsReserve,
    pending: CountsReserve,
    held_bars: CountsReserve,
    own_bars: CountsReserve,
}

impl Model for ReferenceIndexReserve {
    ghost use Rattle.sms_centre_messages.specs.references.Moves.{ReferenceIndexReserveOf};

    ghost Value = { ReferenceIndexReserveOf };

    ghost view = { λ s. record {
      held = s.held;
      own = s.own;
      last = s.last;
      pending = s.pending;
      held_bars = s.held_bars;
      own_bars = s.own_bars;
    } };
}

impl ReferenceIndexReserve {
    // No memory.
    fn new(alloc: Global) -> ReferenceIndexReserve {
        let held = CountsReserve::new(alloc);
        let own = CountsReserve::new(alloc);
        let last = CountsReserve::new(alloc);
        let pending = CountsReserve::new(alloc);
        let held_bars = CountsReserve::new(alloc);
        let own_bars = CountsReserve::new(alloc);
        ReferenceIndexReserve {
            held,
            own,
            last,
            pending,
            held_bars,
            own_bars,
        }
    }
}

impl ReferenceIndex {
    /// Memory for that many changes of messages, of parts and of bars.
    pub fn make_reserve(
        &self,
        alloc: Global,
        messages: usize,
        parts: usize,
        bars: usize,
    ) -> Result<ReferenceIndexReserve, AllocError>
        ensures { IfOk result (λ reserve. FitsTheReferences reserve messages parts bars self.now) }
    {
        let mut reserve = ReferenceIndexReserve::new(alloc);
        match self.fill_reserve(alloc, messages, parts, bars, &mut reserve) {
            Ok(()) => Ok(reserve),
            Err(error) => {
                drop(reserve);
                Err(error)
            }
        }
    }

    // Such memory takes the place of other such memory.
    fn fill_reserve(
        &self,
        alloc: Global,
        messages: usize,
        parts: usize,
        bars: usize,
        reserve: &mut ReferenceIndexReserve,
    ) -> Result<(), AllocError>
        ensures { OnOk result (FitsTheReferences reserve.new messages parts bars self.now) }
    {
        self.held
            .make_reserve_in(alloc, messages, &mut reserve.held)?;
        self.own.make_reserve_in(alloc, parts, &mut reserve.own)?;
        self.last
            .make_reserve_in(alloc, messages, &mut reserve.last)?;
        self.pending
            .make_reserve_in(alloc, messages, &mut reserve.pending)?;
        self.held_bars
            .make_reserve_in(alloc, bars, &mut reserve.held_bars)?;
        self.own_bars
            .make_reserve_in(alloc, bars, &mut reserve.own_bars)?;
        Ok(())
    }

    // Takes the memory in.
    pub(crate) fn take_in(&mut self, reserve: ReferenceIndexReserve)
        ensures { TakesInReferences reserve self.old self.new }
    {
        self.held.use_reserve(reserve.held);
        self.own.use_reserve(reserve.own);
        self.last.use_reserve(reserve.last);
        self.pending.use_reserve(reserve.pending);
        self.held_bars.use_reserve(reserve.held_bars);
        self.own_bars.use_reserve(reserve.own_bars);
    }
}
