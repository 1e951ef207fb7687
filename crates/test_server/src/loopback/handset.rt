//! A handset over a link of this machine.
use crate::handset_runs::machine::{clock, number};
use crate::rows::holds;
use sms_handset::machine::HandsetMachine;
use sms_handset_link::{RunEnd, run_handset};
use sms_store_memory::handset::MemoryKeep;
use std::alloc::Global;
use std::io;
use std::net::{Net, SocketAddr, TcpStream};
use std::test::Fail;
use std::time::Duration;

fn linked<N: Net<Stream = TcpStream>>(net: &N, server: SocketAddr) -> io::Result<TcpStream> {
    let link = TcpStream::connect(net, server)?;
    link.set_read_timeout(Some(Duration::from_millis(20)))?;
    Ok(link)
}

/// The handset takes so many frames of its link.
pub(crate) fn attends<N: Net<Stream = TcpStream>>(
    net: &N,
    alloc: Global,
    machine: &mut HandsetMachine<MemoryKeep>,
    server: SocketAddr,
    frames: u32,
) -> Result<(), Fail> {
    let clock = clock()?;
    let number = number()?;
    let link = linked(net, server)?;
    let mut answers = Vec::new(alloc);
    let (mut link_in, mut link_out) = (&link, &link);
    let end = run_handset(
        alloc,
        machine,
        &number,
        None,
        &[],
        &mut link_in,
        &mut link_out,
        &mut answers,
        &clock,
        frames,
    );
    holds(matches!(end, Ok(RunEnd::Done)), "all frames came")
}
