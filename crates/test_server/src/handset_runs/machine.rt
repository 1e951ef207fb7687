//! The handset 447700900456 with three slots.
ghost use Rattle.std.specs.Prelude.{IfOk};
ghost use Rattle.sms_base.specs.Address.{IsAddress};
ghost use Rattle.sms_handset.specs.SoundRows.{IsSetup};

use sms_base::lending::lend;
use sms_base::{Address, Moment};
use sms_handset::machine::HandsetMachine;
use sms_handset::{Handset, Rows, Setup};
use sms_handset_link::Clock;
use sms_store_memory::handset::MemoryKeep;
use std::alloc::Global;
use std::sync::atomic::{AtomicU64, Ordering};
use std::test::Fail;

// 2024-02-29 23:59:58.
const START: u64 = 1_709_251_198;

/// A clock that always shows one moment.
#[derive(Clone, Copy)]
pub(crate) struct Still(Moment);

impl Clock for Still {
    ghost use Rattle.std.specs.Prelude.{◌≡◌};

    ghost reads = { λ c m. m ≡ c.0 };

    fn now(&self) -> Moment {
        self.0
    }
}

/// A clock that shows a later moment each time, by so many seconds.
#[derive(Drop)]
pub(crate) struct Moving {
    start: Moment,
    seconds: u64,
    asked: AtomicU64,
}

impl Clock for Moving {
    ghost use Rattle.std.specs.Prelude.{◌≤◌};

    ghost reads = { λ c m. c.start ≤ m };

    fn now(&self) -> Moment {
        // The clause speaks of its range.
        let _range = self.start.seconds();
        let times = self.asked.fetch_add(1, Ordering::SeqCst);
        self.start.plus(times.saturating_mul(self.seconds))
    }
}

/// A clock that begins at the start.
pub(crate) fn moving_clock(seconds: u64) -> Result<Moving, Fail> {
    Ok(Moving {
        start: Moment::from_seconds(START)?,
        seconds,
        asked: AtomicU64::new(0),
    })
}

/// A clock that always shows the start.
pub(crate) fn clock() -> Result<Still, Fail> {
    Ok(Still(Moment::from_seconds(START)?))
}

fn address(digits: &str) -> Result<Address, Fail>
    ensures { IfOk result (λ address. IsAddress address) }
{
    match Address::new(1, 1, digits) {
        Ok(address) => Ok(address),
        Err(_) => Err(Fail::new("an address")),
    }
}

/// The number of the handset.
pub(crate) fn number() -> Result<Address, Fail>
    ensures { IfOk result (λ number. IsAddress number) }
{
    address("447700900456")
}

fn setup() -> Result<Setup, Fail>
    ensures { IfOk result (λ setup. IsSetup setup) }
{
    let number = number()?;
    let centre = address("447700900999")?;
    let start = Moment::from_seconds(START)?;
    Ok(Setup {
        number,
        slots: 3,
        centre,
        start,
    })
}

fn first_handset(alloc: Global) -> Result<Handset, Fail> {
    let setup = setup()?;
    match Handset::recover(alloc, Rows::first(alloc, setup)) {
        Ok(handset) => Ok(handset),
        Err(_) => Err(Fail::new("a handset")),
    }
}

fn machine(alloc: Global) -> Result<HandsetMachine<MemoryKeep>, Fail> {
    let setup = setup()?;
    let handset = first_handset(alloc)?;
    Ok(HandsetMachine::new(MemoryKeep::new(alloc, setup), handset))
}

// Lends what was made, whatever it is, so that one owner drops it.
fn lend_made<T: Drop, R, W: FnOnce(&mut T) -> Result<R, Fail>>(
    made: Result<T, Fail>,
    work: W,
) -> Result<R, Fail>
    requires { W.IsAlwaysCallable work }
{
    lend(made?, work)
}

/// Lends a new handset to the work.
pub(crate) fn with_machine<R, W: FnOnce(&mut HandsetMachine<MemoryKeep>) -> Result<R, Fail>>(
    alloc: Global,
    work: W,
) -> Result<R, Fail>
    requires { W.IsAlwaysCallable work }
{
    lend_made(machine(alloc), work)
}
