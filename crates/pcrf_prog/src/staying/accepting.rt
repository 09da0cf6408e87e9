//! Connections are accepted for ever, and those closed for which there is no seat.
use crate::staying::journal::{tell_crowded, tell_no_memory, tell_unaccepted, tell_unbegun};
use crate::staying::machine::Machine;
use crate::staying::sockets::ready;
use log::Log;
use site_status::Counter;
use std::net::{SocketAddr, TcpListener, TcpStream};
use std::time::{Duration, Instant};
use std::{io, thread};
use watched_links::{Arrived, Hall, Quiet};

/// For how many seconds a line of one kind isn't told again.
pub const QUIET_SECONDS: u64 = 1;

/// How many milliseconds a server waits before it accepts again where it couldn't.
const PAUSE_MILLIS: u64 = 100;

/// Accepts connections and lets them in, as long as the server runs.
pub fn accept_all<M: Machine, G: Log>(
    rt: &M,
    hall: &Hall,
    seats: usize,
    listener: &TcpListener,
    refused: &Counter,
    log: &G,
) {
    let mut crowded = Quiet::of(QUIET_SECONDS);
    let mut failed = Quiet::of(QUIET_SECONDS);
    for _ in rt.forever() {
        match listener.accept() {
            Ok((stream, address)) => {
                admit(rt, hall, seats, stream, address, refused, &mut crowded, log);
            }
            Err(error) => rest(rt, &error, &mut failed, log),
        }
    }
}

/// Tells that no connection could be accepted, not too often, and waits a moment.
pub fn rest<M: Machine, G: Log>(rt: &M, error: &io::Error, failed: &mut Quiet, log: &G) {
    if failed.is_due(rt) {
        tell_unaccepted(log, error);
    }
    thread::sleep(rt, Duration::from_millis(PAUSE_MILLIS));
}

/// A connection that arrived now, made ready.
pub fn arrived<M: Machine>(rt: &M, stream: TcpStream, address: SocketAddr) -> io::Result<Arrived> {
    ready(&stream)?;
    Ok(Arrived {
        stream,
        address,
        since: Instant::now(rt)?,
    })
}

/// Lets a connection in, or closes it.
fn admit<M: Machine, G: Log>(
    rt: &M,
    hall: &Hall,
    seats: usize,
    stream: TcpStream,
    address: SocketAddr,
    refused: &Counter,
    crowded: &mut Quiet,
    log: &G,
) {
    let arrived = match arrived(rt, stream, address) {
        Ok(arrived) => arrived,
        Err(error) => return tell_unbegun(log, address, &error),
    };
    match hall.admit(rt, arrived) {
        Ok(true) => {}
        Ok(false) => {
            refused.add();
            if crowded.is_due(rt) {
                tell_crowded(log, address, seats);
            }
        }
        Err(_) => tell_no_memory(log, address),
    }
}
