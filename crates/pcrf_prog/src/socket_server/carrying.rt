//! A connection to a peer site that tells what the letters bring which are sent on it.
use crate::socket_server::journal::{tell_sending, tell_sending_all};
use log::Log;
use std::io::{self, Read, Write};
use std::net::{SocketAddr, TcpStream};

/// Where a letter's bytes have its kind (docs/LETTERS.md).
const KIND: usize = 12;

/// Where those of a range have the number of its operations.
const COUNT: usize = 21;

/// The kind of a range.
const RANGE: u8 = 1;

/// The kind of a snapshot.
const SNAPSHOT: u8 = 2;

/// What a letter brings.
#[derive(Clone, Copy)]
enum Brought {
    /// So many operations that its site made.
    Operations(u32),
    /// All that its site holds.
    All,
    /// Neither: it acknowledges.
    Nothing,
}

impl Brought {
    /// What the bytes of a letter say that it brings.
    fn by(letter: &[u8]) -> Brought {
        if letter.len() < COUNT + 4 {
            return Brought::Nothing;
        }
        match letter[KIND] {
            RANGE => Brought::Operations(u32::from_be_bytes([
                letter[COUNT],
                letter[COUNT + 1],
                letter[COUNT + 2],
                letter[COUNT + 3],
            ])),
            SNAPSHOT => Brought::All,
            _ => Brought::Nothing,
        }
    }
}

/// A connection to a peer site. A letter is written whole, and then flushed.
#[derive(Drop)]
pub struct Carrying<'a, G> {
    pub(crate) stream: TcpStream,
    pub(crate) peer: SocketAddr,
    pub(crate) log: &'a G,
    /// A letter was begun.
    pub(crate) is_begun: bool,
}

impl<G: Log> Carrying<'_, G> {
    /// Tells what a letter brings.
    fn tell(&self, letter: &[u8]) {
        match Brought::by(letter) {
            Brought::Operations(count) => tell_sending(self.log, count, self.peer),
            Brought::All => tell_sending_all(self.log, self.peer),
            Brought::Nothing => {}
        }
    }
}

impl<G: Log> Read for Carrying<'_, G> {
    fn read(&mut self, buf: &mut [u8]) -> io::Result<usize> {
        self.stream.read(buf)
    }
}

impl<G: Log> Write for Carrying<'_, G> {
    fn write(&mut self, buf: &[u8]) -> io::Result<usize> {
        if !self.is_begun {
            self.is_begun = true;
            self.tell(buf);
        }
        self.stream.write(buf)
    }

    fn flush(&mut self) -> io::Result<()> {
        self.is_begun = false;
        Ok(())
    }
}
