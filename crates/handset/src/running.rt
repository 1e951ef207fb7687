//! A run over a link to the centre.
ghost use Rattle.sms_handset.specs.SoundRows.{IsSetup};
ghost use Rattle.sms_handset.specs.machine.Stepping.{MakesTheChanges};

use crate::clock::SystemClock;
use crate::failure::Failure;
use crate::misbehaving::{Incoming, OutgoingLink, is_any};
use crate::secret::octets_of;
use sms_handset::machine::{HandsetMachine, StartError, recover_from};
use sms_handset::{Changes, Rows, Setup};
use sms_handset_link::{RunEnd, RunError, run_handset};
use sms_rows::keep::Keep;
use sms_script::ScriptFault;
use sms_script::owner::{OwnersAct, read_acts};
use sms_store::HandsetKeep;
use smsc_cli::words::Misbehaviour;
use std::alloc::Global;
use std::io::{self, Print, Read, Write};
use std::net::{Ipv4Addr, TcpStream};
use std::time::Duration;

// How long a read of the link waits before time goes on, in milliseconds.
const PAUSE_MILLISECONDS: u64 = 200;

// Octets of all lines, at most, and one more: 10,000 lines of 16,384 octets and their ends.
const ENOUGH: usize = 163_850_001;

/// What a run is given.
#[derive(Drop)]
pub(crate) struct Run<'a> {
    pub(crate) setup: Setup,
    /// The path of the store.
    pub(crate) store: &'a str,
    /// The port of the centre, on this machine.
    pub(crate) port: u16,
    /// The run ends after so many frames.
    pub(crate) frames: u32,
    /// What it is to do wrong.
    pub(crate) wrong: Misbehaviour,
    /// The secret of its links.
    pub(crate) secret: Option<String>,
}

// All that stands on standard input, or as much of it as shows that it is too much.
fn read_lines(rt: &HostRuntime) -> Result<Vec<u8>, Failure> {
    let mut lines = Vec::new(rt.alloc());
    let mut stdin = rt.stdin();
    let mut room = [0; 4096];
    for _ in 0..u64::MAX {
        let count = stdin.read(&mut room).map_err(Failure::Standard)?;
        if count == 0 || lines.len() > ENOUGH {
            break;
        }
        lines
            .extend_from_slice(&room[..count])
            .map_err(|_| Failure::NoMemory)?;
    }
    Ok(lines)
}

/// Reads the owner's lines, opens the store, connects to the centre, and runs the handset. It ends after so many
/// frames, or when the link closes.
pub(crate) fn run_lines(rt: &HostRuntime, run: &Run<'_>) -> Result<(), Failure>
    requires { IsSetup run.now.setup }
{
    let lines = read_lines(rt)?;
    do_lines(rt, run, lines.as_slice())
}

fn do_lines(rt: &HostRuntime, run: &Run<'_>, lines: &[u8]) -> Result<(), Failure>
    requires { IsSetup run.now.setup }
{
    match read_acts(rt.alloc(), lines) {
        Ok(acts) => do_acts(rt, run, acts.as_slice()),
        Err(ScriptFault::BadLine(line)) => Err(Failure::BadLine(line)),
        Err(ScriptFault::NoMemory) => Err(Failure::NoMemory),
    }
}

fn do_acts(rt: &HostRuntime, run: &Run<'_>, acts: &[OwnersAct<'_>]) -> Result<(), Failure>
    requires { IsSetup run.now.setup }
{
    match HandsetKeep::open(rt, run.store, run.setup) {
        Ok(keep) => run_over(rt, keep, run, acts),
        Err((error, _)) => Err(Failure::from(error)),
    }
}

// What comes from here on is the same over any keep, so that its proof need not look into the store.
fn machine_over<K: Keep<Rows = Rows, Changes = Changes> + Drop>(
    alloc: Global,
    keep: K,
    setup: Setup,
) -> Result<HandsetMachine<K>, StartError>
    requires { IsSetup setup }
{
    let mut keep = keep;
    let handset = recover_from(alloc, &mut keep, setup)?;
    Ok(HandsetMachine::new(keep, handset))
}

fn run_over<K: Keep<Rows = Rows, Changes = Changes> + Drop>(
    rt: &HostRuntime,
    keep: K,
    run: &Run<'_>,
    acts: &[OwnersAct<'_>],
) -> Result<(), Failure>
    requires setup { IsSetup run.now.setup }
    requires changes { MakesTheChanges K.after }
{
    let mut machine = machine_over(rt.alloc(), keep, run.setup)?;
    run_machine(rt, &mut machine, run, acts)
}

fn link_to(rt: &HostRuntime, port: u16) -> io::Result<TcpStream> {
    let link = TcpStream::connect(rt, (Ipv4Addr::LOCALHOST, port))?;
    link.set_read_timeout(Some(Duration::from_millis(PAUSE_MILLISECONDS)))?;
    link.set_nodelay(true)?;
    Ok(link)
}

fn run_machine<K: Keep<Rows = Rows, Changes = Changes> + Drop>(
    rt: &HostRuntime,
    machine: &mut HandsetMachine<K>,
    run: &Run<'_>,
    acts: &[OwnersAct<'_>],
) -> Result<(), Failure>
    requires { MakesTheChanges K.after }
{
    let link = link_to(rt, run.port).map_err(Failure::Connecting)?;
    run_link(rt, machine, run, &link, acts)
}

fn run_link<K: Keep<Rows = Rows, Changes = Changes> + Drop>(
    rt: &HostRuntime,
    machine: &mut HandsetMachine<K>,
    run: &Run<'_>,
    link: &TcpStream,
    acts: &[OwnersAct<'_>],
) -> Result<(), Failure>
    requires { MakesTheChanges K.after }
{
    let port = run.port;
    eprint!(rt; "handset: connected to port {port}\n").map_err(Failure::Standard)?;
    let end = attend(rt, machine, run, link, acts)?;
    say_end(rt, end).map_err(Failure::Standard)
}

fn say_end(rt: &HostRuntime, end: RunEnd) -> io::Result<()> {
    match end {
        RunEnd::Done => eprint!(rt; "handset: ended: all frames came, or the link closed\n"),
        RunEnd::Broken => eprint!(rt; "handset: ended: the link broke\n"),
    }
}

fn attend<K: Keep<Rows = Rows, Changes = Changes> + Drop>(
    rt: &HostRuntime,
    machine: &mut HandsetMachine<K>,
    run: &Run<'_>,
    link: &TcpStream,
    acts: &[OwnersAct<'_>],
) -> Result<RunEnd, Failure>
    requires { MakesTheChanges K.after }
{
    if is_any(&run.wrong) {
        let mut link_in = Incoming::new(rt, link, run.wrong);
        let mut link_out = OutgoingLink::new(rt, link, &run.wrong);
        return attend_over(rt, machine, run, &mut link_in, &mut link_out, acts);
    }
    let (mut link_in, mut link_out) = (link, link);
    attend_over(rt, machine, run, &mut link_in, &mut link_out, acts)
}

fn attend_over<K: Keep<Rows = Rows, Changes = Changes> + Drop, R: Read, W: Write>(
    rt: &HostRuntime,
    machine: &mut HandsetMachine<K>,
    run: &Run<'_>,
    link_in: &mut R,
    link_out: &mut W,
    acts: &[OwnersAct<'_>],
) -> Result<RunEnd, Failure>
    requires { MakesTheChanges K.after }
{
    let mut stdout = rt.stdout();
    let clock = SystemClock { rt };
    match run_handset(
        rt.alloc(),
        machine,
        &run.setup.number,
        octets_of(&run.secret),
        acts,
        link_in,
        link_out,
        &mut stdout,
        &clock,
        run.frames,
    ) {
        Ok(end) => Ok(end),
        Err(RunError::NoMemory) => Err(Failure::NoMemory),
        Err(RunError::Store(error)) => Err(Failure::from(error)),
        Err(RunError::Answers(error)) => Err(Failure::Standard(error)),
        Err(RunError::Framing(_)) => Err(Failure::Link),
    }
}
