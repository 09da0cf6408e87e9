//! The sockets of a server that stays.
use crate::socket_server::{ServerFault, prepare};
use crate::staying::journal::{tell_no_address, tell_unbound};
use libc::net::{SO_KEEPALIVE, SOL_SOCKET, setsockopt};
use log::Log;
use std::io::{self, ErrorKind};
use std::net::{Net, SocketAddrV4, TcpListener, TcpStream};
use std::os::fd::AsRawFd;

/// The address of a text. Where it is none the log is told.
pub fn address_of<G: Log>(text: &str, log: &G) -> Result<SocketAddrV4, ServerFault> {
    match text.parse::<SocketAddrV4>() {
        Ok(address) => Ok(address),
        Err(_) => {
            tell_no_address(log, text);
            Err(ServerFault::Network)
        }
    }
}

/// Binds an address. Where it can't the log is told why.
pub fn bind<R: Net<Listener = TcpListener, Stream = TcpStream>, G: Log>(
    rt: &R,
    text: &str,
    log: &G,
) -> Result<TcpListener, ServerFault> {
    match TcpListener::bind(rt, address_of(text, log)?) {
        Ok(listener) => Ok(listener),
        Err(error) => {
            tell_unbound(log, text, &error);
            Err(ServerFault::Network)
        }
    }
}

/// Has the system ask now and then whether the other end is there (RFC 9293, 3.8.4).
fn keep_alive(stream: &TcpStream) -> io::Result<()> {
    let mut value = [0u8; 16];
    value[..4].copy_from_slice(&1i32.to_ne_bytes());
    if unsafe { setsockopt(stream.as_raw_fd(), SOL_SOCKET, SO_KEEPALIVE, &value, 4) } < 0 {
        return Err(io::Error::from(ErrorKind::Other));
    }
    Ok(())
}

/// Small messages are sent at once, a write doesn't wait for ever, and the system keeps the connection alive.
pub fn ready(stream: &TcpStream) -> io::Result<()> {
    prepare(stream)?;
    keep_alive(stream)
}
