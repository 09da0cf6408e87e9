//! One direction of a sealed link: under which key its records are coded, who writes them, and how many there were.
ghost use Rattle.std.specs.Prelude.{◌≡◌, ◌<◌, nat_lt};
ghost use Rattle.peer_lines.specs.Limits.{last_position};
ghost use Rattle.peer_lines.specs.Records.{code_of, next, other_side, position_bytes, side_byte};

use crate::sealed::hmac::{CODE_BYTES, Key};

/// How many bytes of a record say its length.
pub const HEAD_BYTES: usize = 2;

/// How many bytes that were written a record has at most.
pub const MOST_PIECE: usize = 16_384;

/// An end of a link.
#[derive(Clone, Copy, Debug, PartialEq, Eq)]
pub enum Side {
    /// Who dialled.
    Dialler,
    /// Who was dialled.
    Listener,
}

impl Side {
    /// The other end.
    pub fn other(self) -> Side
        ensures { result ≡ other_side self }
    {
        match self {
            Side::Dialler => Side::Listener,
            Side::Listener => Side::Dialler,
        }
    }

    /// What stands for it in what codes are over.
    pub(crate) fn byte(self) -> u8
        ensures { result ≡ side_byte self }
    {
        match self {
            Side::Dialler => 1,
            Side::Listener => 2,
        }
    }
}

/// One direction of a link: its next record is coded under this key, as one that this side writes at this position.
#[derive(Clone, Copy)]
pub struct Course {
    pub(crate) key: Key,
    pub(crate) from: Side,
    pub(crate) position: u64,
}

impl Course {
    /// The direction of what a side writes, before its first record.
    pub fn start(key: Key, from: Side) -> Course
        ensures { result ≡ record { key = key; from = from; position = 0 } }
    {
        Course {
            key,
            from,
            position: 0,
        }
    }

    /// The code of a piece as the next record.
    #[tactic(auto, unfolding(crate::specs::Records::position_bytes))]
    pub(crate) fn code(&self, piece: &[u8]) -> [u8; CODE_BYTES]
        ensures { result ≡ code_of self.now piece.now }
    {
        let position = self.position.to_be_bytes();
        self.key.code(&[self.from.byte()], &position, piece)
    }

    /// Whether there is a position for one more record.
    pub(crate) fn has_room(&self) -> bool
        ensures { result ≡ nat_lt self.now.position last_position }
    {
        self.position < u64::MAX
    }

    /// Counts a record.
    pub(crate) fn advance(&mut self)
        requires { self.old.position < last_position }
        ensures { self.new ≡ next self.old }
    {
        self.position += 1;
    }
}
