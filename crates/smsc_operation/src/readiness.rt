//! What whoever started the server is told of it: that it listens, and that it begins to end (sd_notify(3)).
//!
//! The manager of services names a Unix datagram socket in the environment, and takes lines there. Without one nobody is told.
ghost use Rattle.std.specs.Prelude.{◌≤◌, IfSome};

use libc::net as system;
use std::env;

/// All ports are open.
pub const LISTENS: &[u8] = b"READY=1\n";

/// A stop was ordered.
pub const ENDS: &[u8] = b"STOPPING=1\n";

// Where the environment names the socket.
const NAME: &str = "NOTIFY_SOCKET";

// A path has so many octets at most, beside its end (unix(7)).
const MOST_OCTETS: usize = 107;

// Its path stands behind the family.
const HEAD: usize = 2;

// Puts down the address of the socket at an absolute path, or of that name where an at sign stands first, and gives its length.
fn put_address(address: &mut [u8; 128], name: &[u8]) -> Option<u32>
    ensures { IfSome result (λ length. length ≤ 128) }
{
    if name.len() < 2 || name.len() > MOST_OCTETS {
        return None;
    }
    address[..HEAD].copy_from_slice(&(system::AF_UNIX as u16).to_ne_bytes());
    address[HEAD..HEAD + name.len()].copy_from_slice(name);
    match name[0] {
        b'/' => (),
        b'@' => address[HEAD] = 0,
        _ => return None,
    }
    Some((HEAD + name.len()) as u32)
}

fn send_to(address: &[u8; 128], length: u32, line: &[u8])
    requires { length ≤ 128 }
{
    let kind = system::SOCK_DGRAM | system::SOCK_CLOEXEC;
    let fd = unsafe { system::socket(system::AF_UNIX, kind, 0) };
    if fd < 0 {
        return;
    }
    let flags = system::MSG_NOSIGNAL | system::MSG_DONTWAIT;
    let _ = unsafe { system::sendto(fd, line, flags, address, length) };
    let _ = libc::close(fd);
}

fn send(name: &[u8], line: &[u8]) {
    let mut address = [0u8; 128];
    let Some(length) = put_address(&mut address, name) else {
        return;
    };
    send_to(&address, length, line);
}

/// Sends the line to the manager of services, if there is one that wants it.
pub fn tell(rt: &HostRuntime, line: &[u8]) {
    if let Ok(name) = env::var(rt, NAME) {
        send(name.as_str().as_bytes(), line);
    }
}
