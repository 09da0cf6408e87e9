//! Notices are taken out of what comes over a link, and letters handed on.
ghost use Rattle.std.specs.Prelude.{◌≡◌, IfSome};

use crate::heads::{Expected, HeadFault, Heads, Sender, up_to};
use crate::joining::Joining;
use crate::letters::Head;
use crate::notice::{FRONT_BYTES, MARK, Notice, read_notice, said_bytes};
use std::alloc::Global;

/// Where a stream of letters and notices stands.
#[derive(Drop)]
pub struct Sieve {
    alloc: Global,
    heads: Heads,
    /// The first bytes of what may be a letter or a notice.
    front: Vec<u8>,
    /// How many bytes of a notice are to come behind its front, if one is being read.
    awaited: Option<usize>,
    /// Those that came.
    said: Vec<u8>,
    /// What notices told of which others are to tell more.
    joining: Joining,
}

/// What came over a link.
#[derive(Drop)]
pub struct Sieved {
    /// The bytes of letters.
    pub letters: Vec<u8>,
    /// The notices, those joined that stand for one.
    pub notices: Vec<Notice>,
}

impl Sieved {
    /// Nothing.
    pub fn nothing(alloc: Global) -> Sieved {
        Sieved {
            letters: Vec::new(alloc),
            notices: Vec::new(alloc),
        }
    }
}

impl Sieve {
    /// Before the first letter.
    pub fn start(alloc: Global, expected: Expected) -> Sieve {
        Sieve::beside(alloc, expected, None)
    }

    /// Before the first letter of a link that the proof of that site opened, if one did.
    pub fn beside(alloc: Global, expected: Expected, proved: Option<u8>) -> Sieve
        ensures { result.heads.proved ≡ proved }
    {
        Sieve {
            alloc,
            heads: Heads::start(alloc, expected, proved),
            front: Vec::new(alloc),
            awaited: None,
            said: Vec::new(alloc),
            joining: Joining::start(alloc),
        }
    }

    /// Who sent the letters so far.
    pub fn sender(&self) -> Option<Sender>
        ensures { IfSome result (λ sender.
            IfSome self.now.heads.proved (λ site. sender.site ≡ site)) }
    {
        self.heads.sender()
    }

    /// The heads of the letters that came since this was asked last.
    pub fn uncounted(&mut self) -> Vec<Head> {
        self.heads.uncounted(self.alloc)
    }

    /// Takes the bytes that come next.
    pub fn take(&mut self, bytes: &[u8], sieved: &mut Sieved) -> Result<(), HeadFault> {
        let mut rest = bytes;
        for _ in 0..bytes.len() {
            if rest.is_empty() {
                return Ok(());
            }
            let count = self.take_some(rest, sieved)?;
            rest = rest.get(count..).unwrap_or(&[]);
        }
        Ok(())
    }

    /// Takes some of them, and tells how many.
    fn take_some(&mut self, bytes: &[u8], sieved: &mut Sieved) -> Result<usize, HeadFault> {
        if let Some(awaited) = self.awaited {
            return self.take_said(bytes, awaited, sieved);
        }
        if self.heads.is_between() {
            return self.take_front(bytes, sieved);
        }
        let count = self.heads.take(bytes)?;
        hand_on(sieved, up_to(bytes, count))?;
        Ok(count)
    }

    /// Takes some of the first bytes of what may be a letter or a notice.
    fn take_front(&mut self, bytes: &[u8], sieved: &mut Sieved) -> Result<usize, HeadFault> {
        let piece = up_to(bytes, FRONT_BYTES.saturating_sub(self.front.len()));
        if self.front.extend_from_slice(piece).is_err() {
            return Err(HeadFault::NoMemory);
        }
        let Some(front) = self.front.as_slice().first_chunk::<FRONT_BYTES>() else {
            return Ok(piece.len());
        };
        if front[4] == MARK {
            let Some(awaited) = said_bytes(front) else {
                return Err(HeadFault::NoNotice);
            };
            self.awaited = Some(awaited);
            self.said.clear();
        } else {
            self.heads.judge(front)?;
            hand_on(sieved, front)?;
        }
        self.front.clear();
        Ok(piece.len())
    }

    /// Takes some of what a notice says.
    fn take_said(
        &mut self,
        bytes: &[u8],
        awaited: usize,
        sieved: &mut Sieved,
    ) -> Result<usize, HeadFault> {
        let piece = up_to(bytes, awaited.saturating_sub(self.said.len()));
        if self.said.extend_from_slice(piece).is_err() {
            return Err(HeadFault::NoMemory);
        }
        if self.said.len() < awaited {
            return Ok(piece.len());
        }
        self.awaited = None;
        let notice = read_notice(self.alloc, self.said.as_slice())?;
        let Some(notice) = self.joining.join(notice)? else {
            return Ok(piece.len());
        };
        match sieved.notices.push(notice) {
            Ok(()) => Ok(piece.len()),
            Err(_) => Err(HeadFault::NoMemory),
        }
    }
}

/// Hands bytes of a letter on.
fn hand_on(sieved: &mut Sieved, bytes: &[u8]) -> Result<(), HeadFault> {
    match sieved.letters.extend_from_slice(bytes) {
        Ok(()) => Ok(()),
        Err(_) => Err(HeadFault::NoMemory),
    }
}
