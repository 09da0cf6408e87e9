//! Connections are accepted whose requests are answered, and those closed of which there are too many.
use crate::staying::accepting::arrived;
use crate::staying::machine::Machine;
use crate::staying::working::Shared;
use log::Log;
use pcrf_serve::SharedSite;
use std::net::TcpListener;
use std::sync::Wait;
use std::thread;
use std::time::Duration;

/// How many milliseconds pass before it is accepted again where that failed.
const PAUSE_MILLIS: u64 = 100;

/// Accepts connections whose requests are to be answered, as long as the server runs. Where too many are there a further one is closed at once.
pub fn accept_asks<'s, 'r, S: SharedSite, M: Machine, G: Log>(
    rt: &'s M,
    all: &'s Shared<'s, 'r, S, M, G>,
    listener: &'s TcpListener,
) {
    for _ in rt.forever() {
        match listener.accept() {
            Ok((stream, address)) => {
                if let Ok(arrived) = arrived(rt, stream, address) {
                    let _ = all.furniture.asking.admit(rt, arrived);
                }
            }
            Err(_) => thread::sleep(rt, Duration::from_millis(PAUSE_MILLIS)),
        }
    }
}
