//! A client of the server, over a socket.
use std::io::{self, ErrorKind, Read, Write};
use std::net::{Net, SocketAddr, TcpStream};
use std::time::Duration;

// A client waits so many seconds for an answer at most.
const MOST_SECONDS: u64 = 40;

fn set(stream: &TcpStream) -> io::Result<()> {
    stream.set_read_timeout(Some(Duration::from_secs(MOST_SECONDS)))?;
    stream.set_nodelay(true)
}

/// A connection to the server.
#[derive(Drop)]
pub(crate) struct Client {
    stream: TcpStream,
}

impl Client {
    /// Connects to this address.
    pub(crate) fn to<N: Net<Stream = TcpStream>>(
        net: &N,
        server: SocketAddr,
    ) -> io::Result<Client> {
        let stream = TcpStream::connect(net, server)?;
        set(&stream)?;
        Ok(Client { stream })
    }

    /// Sends these octets.
    pub(crate) fn says(&mut self, octets: &[u8]) -> io::Result<()> {
        self.stream.write_all(octets)
    }

    /// Sends a request under this sequence number.
    pub(crate) fn asks(&mut self, pdu: &[u8], number: u32) -> io::Result<()> {
        if pdu.len() < 16 {
            return Err(io::Error::from(ErrorKind::InvalidInput));
        }
        self.stream.write_all(&pdu[..12])?;
        self.stream.write_all(&number.to_be_bytes())?;
        self.stream.write_all(&pdu[16..])
    }

    /// Reads these octets, and no others.
    pub(crate) fn hears(&mut self, octets: &[u8]) -> io::Result<()> {
        let mut room = [0u8; 64];
        if octets.len() > 64 {
            return Err(io::Error::from(ErrorKind::InvalidInput));
        }
        let answer = &mut room[..octets.len()];
        self.stream.read_exact(answer)?;
        // Other octets than these are a failure.
        if room.starts_with(octets) {
            Ok(())
        } else {
            Err(io::Error::from(ErrorKind::InvalidData))
        }
    }

    /// Reads the next PDU, of at most 256 octets. Gives the header behind its length.
    pub(crate) fn next_head(&mut self) -> io::Result<[u8; 12]> {
        let mut length = [0u8; 4];
        let mut head = [0u8; 12];
        let mut body = [0u8; 256];
        self.stream.read_exact(&mut length)?;
        self.stream.read_exact(&mut head)?;
        let [_, _, _, count] = length;
        let rest = usize::from(count.saturating_sub(16));
        self.stream.read_exact(&mut body[..rest])?;
        Ok(head)
    }
}
