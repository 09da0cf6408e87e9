//! A connection that a seat serves in memory, from its first message to its end.
use crate::trials::answers::follows;
use crate::trials::given::Given;
use crate::trials::seats::{Keeper, Room};
use pcrf_serve::{Gate, Gateways, Half, LinkEnd, Server, Unrepeated, serve_connection};
use site_book::{Receipt, Seat};
use site_core::Reply;
use std::io::{self, Print, Write};
use std::sync::ledger::Ledger;
use std::sync::{Arc, Mutex, Wait};
use std::thread::Threads;

/// The first message.
const FIRST: &str = "an exchange, and a push between its operation and its request's bytes";

/// R and P, and Re-Auth, in the header of a re-authorisation request (TS 29.212, 5.6.4).
const REQUEST: &[u8] = &[0xC0, 0, 1, 2];

/// A peer, which keeps what is written, but for the identifiers of a re-authorisation request: these are its place in the history.
#[derive(Drop)]
struct Peer<'a, R> {
    given: &'a Given<'a, R>,
    place: &'a Mutex<Vec<u8>>,
}

impl<R: Wait> Write for Peer<'_, R> {
    fn write(&mut self, buf: &[u8]) -> io::Result<usize> {
        let mut guard = self.place.lock(self.given.rt);
        let held = &mut *guard;
        if buf.len() < 20 || &buf[4..8] != REQUEST {
            held.extend_from_slice(buf)?;
            return Ok(buf.len());
        }
        held.extend_from_slice(&buf[..12])?;
        held.extend_from_slice(&[0; 8])?;
        held.extend_from_slice(&buf[20..])?;
        Ok(buf.len())
    }

    fn flush(&mut self) -> io::Result<()> {
        Ok(())
    }
}

/// It tells of each message that it sends.
impl<R: Print> Gate for Peer<'_, R> {
    fn enter(&self, _connection: usize, message: u64) -> bool {
        let what = if message == 0 { FIRST } else { "a message" };
        self.given.begin("serve_connection", what);
        true
    }

    fn leave(&self, _connection: usize, _message: u64) -> bool {
        true
    }
}

impl<R: Threads + Wait + Sync + Print, L: Ledger> Room<'_, R, L> {
    /// A seat serves messages to their end, and comes back with how they ended.
    fn serve(&self, seat: Seat<L>, messages: &[u8]) -> Option<(Seat<L>, LinkEnd)> {
        let Keeper::Locked(site) = &self.keeper else {
            return None;
        };
        let (given, place) = (self.given, &self.place);
        let half = Arc::new(given.alloc, Half::start()).ok()?;
        half.open(given.rt, Peer { given, place });
        let server = Server {
            alloc: given.alloc,
            site,
            gateways: &Gateways::start(given.alloc),
            gate: &Peer { given, place },
            repeats: &Unrepeated,
        };
        given.begin("serve_connection", "a connection");
        let (seat, how) = serve_connection(given.rt, &server, seat, messages, half);
        given.end(how == LinkEnd::NoMemory);
        Some((seat, how))
    }

    /// This was written, or a part of it where memory was refused; it is kept no more.
    fn is_written(&self, wanted: &[u8], how: LinkEnd) -> bool {
        let mut guard = self.place.lock(self.given.rt);
        let held = &mut *guard;
        let is_part = wanted.starts_with(held.as_slice());
        let is_all = held.len() == wanted.len() && how == LinkEnd::Disconnected;
        held.clear();
        is_part && (is_all || how == LinkEnd::NoMemory)
    }

    /// The seat serves a connection, whether nothing was refused: what it pushed past so many receipts is pushed no more.
    pub fn connect(&mut self, from: usize) -> Option<bool> {
        let given = self.given;
        let messages = given.bytes("messages")?;
        let receipts = self.seats.first()?.receipts();
        let before = receipts.len();
        let mut word = "answers";
        for receipt in receipts.get(from..)? {
            if let Reply::Pushed(Some(_)) = receipt.reply() {
                word = "answers-alone";
            }
        }
        let answers = given.bytes(word)?;
        let seat = self.seats.pop()?;
        let (seat, how) = self.serve(seat, messages.as_slice())?;
        let made = seat.receipts().get(before..).unwrap_or(&[]);
        given.judge(follows(&mut self.sound, made));
        self.seats.push(seat).ok()?;
        given.judge(Some(self.is_written(answers.as_slice(), how)));
        Some(self.try_call("whole")? && self.try_call("own")? && how != LinkEnd::NoMemory)
    }
}
