//! A link as letters are exchanged over it: the heads of what comes are judged, and it is noted how far the letters tell that go.
ghost use Rattle.std.specs.Prelude.{◌≤◌, length};

use crate::ends::{Ends, Input};
use crate::heads::{Expected, HeadFault, Sender};
use crate::hearing::Hearing;
use crate::letters::{LetterTraffic, head_of};
use crate::line::Line;
use crate::notice::Notice;
use crate::sieve::{Sieve, Sieved};
use crate::teller::Teller;
use std::alloc::{AllocError, Global};
use std::io::{self, ErrorKind, Read, Write};
use std::mem::replace;
use std::sync::{Arc, Wait};
use std::time::Clock;

/// How many bytes are read at once before the first letter's head is judged.
const PIECE_BYTES: usize = 512;

/// How many reads may be made for it.
const READS: u32 = 512;

/// Where the bytes of a letter have its kind, and of a range the position of its first operation and their number, and of a whole state
/// the length of the log.
const KIND: usize = 12;

const FROM: usize = 13;

const COUNT: usize = 21;

const LOG_LENGTH: usize = 21;

/// The kinds of letters that tell what their site made.
const RANGE: u8 = 1;

const SNAPSHOT: u8 = 2;

/// The number at a place.
fn long_at(letter: &[u8], place: usize) -> Option<u64> {
    let eight = letter.get(place..)?.first_chunk::<8>()?;
    Some(u64::from_be_bytes(*eight))
}

/// How many of its site's operations a letter tells with those before it; none where it acknowledges.
fn told_by(letter: &[u8]) -> Option<u64> {
    match *letter.get(KIND)? {
        RANGE => {
            let count = letter.get(COUNT..)?.first_chunk::<4>()?;
            Some(long_at(letter, FROM)?.saturating_add(u64::from(u32::from_be_bytes(*count))))
        }
        SNAPSHOT => long_at(letter, LOG_LENGTH),
        _ => None,
    }
}

/// A link.
#[derive(Drop)]
pub struct Link<'r, C: Clock> {
    alloc: Global,
    rt: &'r C,
    input: Input<'r, C>,
    teller: Arc<Teller>,
    line: Arc<Line>,
    sieve: Sieve,
    /// What came and isn't given yet.
    came: Sieved,
    /// How much of its letters was given.
    given: usize,
    /// Who hears the notices of a site, and of which.
    hearing: Option<(&'r Hearing, u8)>,
    /// Where its letters are counted.
    traffic: Option<&'r LetterTraffic>,
    /// A letter is being written.
    is_writing: bool,
}

/// Copies as many of the first bytes as there is room for, and tells how many.
fn copy_front(buf: &mut [u8], bytes: &[u8]) -> usize
    ensures { result ≤ length buf.new }
{
    let count = buf.len().min(bytes.len());
    buf[..count].copy_from_slice(&bytes[..count]);
    count
}

/// Why a link was closed.
#[derive(Clone, Copy, Debug, PartialEq, Eq)]
pub enum Unlinked {
    /// What came is none of the letters that may.
    Head(HeadFault),
    /// It was closed, broke, or had nothing to say in time.
    Lost(ErrorKind),
}

impl Unlinked {
    /// Whether the sites don't agree on what an operator gives them.
    pub fn is_disagreement(self) -> bool {
        matches!(
            self,
            Unlinked::Head(HeadFault::Version(_) | HeadFault::Edition(_) | HeadFault::OwnNumber)
        )
    }
}

impl<'r, C: Clock> Link<'r, C> {
    /// Over these directions of a line.
    pub(crate) fn of(
        alloc: Global,
        rt: &'r C,
        ends: Ends<'r, C>,
        line: Arc<Line>,
        expected: Expected,
    ) -> Result<Link<'r, C>, AllocError> {
        let Ends {
            input,
            output,
            proved,
        } = ends;
        let teller = Arc::new(alloc, Teller::of(output))?;
        Ok(Link {
            alloc,
            rt,
            input,
            teller,
            line,
            sieve: Sieve::beside(alloc, expected, proved),
            came: Sieved::nothing(alloc),
            given: 0,
            hearing: None,
            traffic: None,
            is_writing: false,
        })
    }

    /// By what notices go out over it.
    pub fn teller(&self) -> Result<Arc<Teller>, AllocError> {
        Arc::try_clone(&self.teller)
    }

    /// Has the notices that come heard as those of a site.
    pub fn hear(&mut self, hearing: &'r Hearing, site: u8) {
        self.hearing = Some((hearing, site));
    }

    /// Has its letters counted, those that came too.
    pub fn count(&mut self, traffic: &'r LetterTraffic) {
        self.traffic = Some(traffic);
        self.count_taken();
    }

    /// Counts the letters that came since it did so last, if they are to be counted.
    fn count_taken(&mut self) {
        for head in self.sieve.uncounted() {
            if let Some(traffic) = self.traffic {
                traffic.taken.count(&head);
            }
        }
    }

    /// Counts a letter that is written, if they are to be counted.
    fn count_sent(&self, letter: &[u8]) {
        if let (Some(traffic), Some(head)) = (self.traffic, head_of(letter)) {
            traffic.sent.count(&head);
        }
    }

    /// Reads until the head of the first letter is there: who sends it.
    pub fn first_sender(&mut self) -> Result<Sender, Unlinked> {
        for _ in 0..READS {
            if let Some(sender) = self.sieve.sender() {
                return Ok(sender);
            }
            self.begin()?;
        }
        Err(Unlinked::Head(HeadFault::NoLetter))
    }

    /// Reads some of what comes first.
    fn begin(&mut self) -> Result<(), Unlinked> {
        let mut piece = [0u8; PIECE_BYTES];
        let count = match self.input.read(&mut piece) {
            Ok(0) => return Err(Unlinked::Lost(ErrorKind::UnexpectedEof)),
            Ok(count) => count,
            Err(error) => return Err(Unlinked::Lost(error.kind())),
        };
        let bytes = piece.get(..count).unwrap_or(&[]);
        if let Err(fault) = self.sieve.take(bytes, &mut self.came) {
            return Err(Unlinked::Head(fault));
        }
        Ok(())
    }

    /// Gives letters that came, as much as there is room for.
    fn give(&mut self, buf: &mut [u8]) -> usize
        ensures { result ≤ length buf.new }
    {
        let Some(rest) = self.came.letters.as_slice().get(self.given..) else {
            return 0;
        };
        let count = copy_front(buf, rest);
        self.given = self.given.saturating_add(count);
        count
    }
}

impl<C: Clock + Wait> Link<'_, C> {
    /// Has what notices came be heard, if somebody hears them.
    fn pass_notices(&mut self) -> Result<(), AllocError> {
        if self.came.notices.is_empty() {
            return Ok(());
        }
        let notices = replace(&mut self.came.notices, Vec::new(self.alloc));
        match self.hearing {
            Some((hearing, site)) => hear_all(self.rt, hearing, site, notices),
            None => Ok(()),
        }
    }

    /// Reads some of what comes next: whether something came.
    fn go_on(&mut self, room: &mut [u8]) -> io::Result<bool> {
        self.came.letters.clear();
        self.given = 0;
        let count = self.input.read(room)?;
        let bytes = room.get(..count).unwrap_or(&[]);
        if self.sieve.take(bytes, &mut self.came).is_err() {
            return Err(io::Error::from(ErrorKind::InvalidData));
        }
        self.count_taken();
        match self.pass_notices() {
            Ok(()) => Ok(count > 0),
            Err(_) => Err(io::Error::from(ErrorKind::OutOfMemory)),
        }
    }
}

/// Has notices of a site be heard, in order.
fn hear_all(
    rt: &impl Wait,
    hearing: &Hearing,
    site: u8,
    notices: Vec<Notice>,
) -> Result<(), AllocError> {
    for notice in notices {
        hearing.hear(rt, site, notice)?;
    }
    Ok(())
}

impl<C: Clock + Wait> Read for Link<'_, C> {
    fn read(&mut self, buf: &mut [u8]) -> io::Result<usize> {
        if buf.is_empty() {
            return Ok(0);
        }
        for _ in self.rt.forever() {
            if self.given < self.came.letters.len() {
                return Ok(self.give(buf));
            }
            if !self.go_on(buf)? {
                return Ok(0);
            }
        }
        unreachable!()
    }
}

impl<C: Clock + Wait> Write for Link<'_, C> {
    fn write(&mut self, buf: &[u8]) -> io::Result<usize> {
        if !self.is_writing {
            self.is_writing = true;
            self.count_sent(buf);
            if let Some(told) = told_by(buf) {
                self.line.tell(told);
            }
        }
        self.teller.write(self.rt, buf)
    }

    fn flush(&mut self) -> io::Result<()> {
        self.is_writing = false;
        self.teller.flush(self.rt)
    }
}
