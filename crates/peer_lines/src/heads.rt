//! The heads of letters in a stream, judged as soon as they are there (docs/LETTERS.md, "The frame and the head").
ghost use Rattle.std.specs.Prelude.{◌≡◌, IfOk, IfSome};
ghost use Rattle.std.specs.Option.{ForSome};

use crate::letters::{Head, head_of};
use pcrf_values::limits::SITE_LIMIT;
use std::alloc::Global;
use std::mem::replace;
use thiserror::Error;

/// How many bytes the length and the head of a letter have.
pub const HEAD_BYTES: usize = 13;

/// How many of them the length doesn't count.
const LENGTH_BYTES: usize = 4;

/// The most that a length says.
const MOST: usize = 1 << 30;

/// The last version of letters that is read.
const VERSION: u8 = 3;

/// The last kind of letter.
const LAST_KIND: u8 = 3;

/// Why a link of a peer site is closed.
#[derive(Clone, Copy, Debug, PartialEq, Eq, Error)]
pub enum HeadFault {
    #[error("it sent what is no letter")]
    NoLetter,
    #[error("its letters are of version {0}, and this site reads those of versions 1 to 3: run the same program at all sites")]
    Version(u8),
    #[error("its operator tables are of edition {0}: run all sites with the same tables")]
    Edition(u32),
    #[error("it says that it is this very site: give each site another number")]
    OwnNumber,
    #[error("its letters are of more than one site")]
    OtherSite,
    #[error("its letters are of another site than the one that proved that it has the secret")]
    Unproved,
    #[error("it sent what is no notice")]
    NoNotice,
    #[error("memory ran out")]
    NoMemory,
}

/// What a site is judged by.
#[derive(Clone, Copy)]
pub struct Expected {
    /// The edition of this site's operator tables.
    pub edition: u32,
    /// The number of this site.
    pub number: u8,
}

/// Who sends letters: the number of a site, and its epoch.
#[derive(Clone, Copy, Debug, PartialEq, Eq)]
pub struct Sender {
    pub site: u8,
    pub epoch: u16,
}

/// The length that the front of a letter says.
fn length_of(head: &[u8; HEAD_BYTES]) -> usize {
    u32::from_be_bytes([head[0], head[1], head[2], head[3]]) as usize
}

/// Who sends the letter with that head: on a link that the proof of a site opened, that site.
fn judge_head(
    head: &[u8; HEAD_BYTES],
    expected: Expected,
    proved: Option<u8>,
) -> Result<Sender, HeadFault>
    ensures { IfOk result (λ sender. IfSome proved (λ site. sender.site ≡ site)) }
{
    let length = length_of(head);
    if length < HEAD_BYTES - LENGTH_BYTES || length > MOST {
        return Err(HeadFault::NoLetter);
    }
    if head[4] == 0 || head[4] > VERSION {
        return Err(HeadFault::Version(head[4]));
    }
    let edition = u32::from_be_bytes([head[5], head[6], head[7], head[8]]);
    if edition != expected.edition {
        return Err(HeadFault::Edition(edition));
    }
    let (site, epoch, kind) = (head[9], u16::from_be_bytes([head[10], head[11]]), head[12]);
    if site == expected.number {
        return Err(HeadFault::OwnNumber);
    }
    if site >= SITE_LIMIT || epoch == 0 || kind == 0 || kind > LAST_KIND {
        return Err(HeadFault::NoLetter);
    }
    if let Some(proved) = proved {
        if site != proved {
            return Err(HeadFault::Unproved);
        }
    }
    Ok(Sender { site, epoch })
}

/// Where a stream of letters stands.
#[derive(Drop)]
pub struct Heads {
    expected: Expected,
    /// The site whose proof opened the link, if it is sealed.
    pub(crate) proved: Option<u8>,
    /// A head that isn't whole yet.
    begun: Vec<u8>,
    /// How many bytes of a letter's body come next.
    left: usize,
    /// Who sent the letters so far.
    sender: Option<Sender>,
    /// The heads of the letters that came and weren't counted yet.
    uncounted: Vec<Head>,
    ghost of_proved: { ForSome sender (λ s. ForSome proved (λ site. s.site ≡ site)) },
}

/// So many bytes at most.
pub(crate) fn up_to(bytes: &[u8], most: usize) -> &[u8] {
    bytes.get(..most).unwrap_or(bytes)
}

impl Heads {
    /// Before the first letter of a link that the proof of that site opened, if one did.
    pub fn start(alloc: Global, expected: Expected, proved: Option<u8>) -> Heads
        ensures { result.proved ≡ proved }
    {
        Heads {
            expected,
            proved,
            begun: Vec::new(alloc),
            left: 0,
            sender: None,
            uncounted: Vec::new(alloc),
        }
    }

    /// Who sent the letters so far.
    pub fn sender(&self) -> Option<Sender>
        ensures { IfSome result (λ sender. IfSome self.now.proved (λ site. sender.site ≡ site)) }
    {
        self.sender
    }

    /// The heads of the letters that came since this was asked last.
    pub(crate) fn uncounted(&mut self, alloc: Global) -> Vec<Head> {
        replace(&mut self.uncounted, Vec::new(alloc))
    }

    /// Judges the heads among the bytes that come next.
    pub fn judge(&mut self, bytes: &[u8]) -> Result<(), HeadFault> {
        let mut rest = bytes;
        for _ in 0..bytes.len() {
            if rest.is_empty() {
                return Ok(());
            }
            let count = self.take(rest)?;
            rest = rest.get(count..).unwrap_or(&[]);
        }
        Ok(())
    }

    /// Whether the next byte is the first of a letter.
    pub(crate) fn is_between(&self) -> bool {
        self.left == 0 && self.begun.is_empty()
    }

    /// Takes some of the next bytes, and tells how many.
    pub(crate) fn take(&mut self, bytes: &[u8]) -> Result<usize, HeadFault> {
        if self.left > 0 {
            let piece = up_to(bytes, self.left);
            self.left = self.left.saturating_sub(piece.len());
            return Ok(piece.len());
        }
        let piece = up_to(bytes, HEAD_BYTES.saturating_sub(self.begun.len()));
        if self.begun.extend_from_slice(piece).is_err() {
            return Err(HeadFault::NoMemory);
        }
        self.finish_head()?;
        Ok(piece.len())
    }

    /// Judges a head, if it is whole.
    fn finish_head(&mut self) -> Result<(), HeadFault> {
        let Some(head) = self.begun.as_slice().first_chunk::<HEAD_BYTES>() else {
            return Ok(());
        };
        let sender = judge_head(head, self.expected, self.proved)?;
        if self.sender.is_some_and(|first| first.site != sender.site) {
            return Err(HeadFault::OtherSite);
        }
        if let Some(begun) = head_of(head) {
            if self.uncounted.push(begun).is_err() {
                return Err(HeadFault::NoMemory);
            }
        }
        self.left = length_of(head).saturating_sub(HEAD_BYTES - LENGTH_BYTES);
        self.sender = Some(sender);
        self.begun.clear();
        Ok(())
    }
}
