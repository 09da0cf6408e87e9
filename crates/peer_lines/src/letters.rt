//! Letters are counted by their kinds (docs/LETTERS.md, "The frame and the head"), each with all its bytes as soon as its head is there.
use site_status::Counter;

/// The bytes in front of a letter's head, which say how many come behind them.
const LENGTH_BYTES: u64 = 4;

/// What a letter brings.
#[derive(Clone, Copy, Debug, PartialEq, Eq)]
pub enum LetterKind {
    /// Operations that its site made, one behind the other.
    Range,
    /// All that its site holds.
    Snapshot,
    /// How much its site has of what the other one made.
    Acknowledgement,
}

/// All of them.
pub const LETTER_KINDS: [LetterKind; 3] = [
    LetterKind::Range,
    LetterKind::Snapshot,
    LetterKind::Acknowledgement,
];

impl LetterKind {
    /// That of this number in a head.
    fn of(number: u8) -> Option<LetterKind> {
        match number {
            1 => Some(LetterKind::Range),
            2 => Some(LetterKind::Snapshot),
            3 => Some(LetterKind::Acknowledgement),
            _ => None,
        }
    }

    /// What it is called.
    pub fn name(self) -> &'static str {
        match self {
            LetterKind::Range => "range",
            LetterKind::Snapshot => "snapshot",
            LetterKind::Acknowledgement => "acknowledgement",
        }
    }
}

/// What is counted of letters of one kind.
#[derive(Drop)]
pub struct LetterCount {
    pub letters: Counter,
    /// Their bytes, those in front of their heads too.
    pub bytes: Counter,
}

impl LetterCount {
    /// There was none.
    fn start() -> LetterCount {
        LetterCount {
            letters: Counter::start(),
            bytes: Counter::start(),
        }
    }
}

/// What is counted of the letters that go one way.
#[derive(Drop)]
pub struct LetterCounts {
    ranges: LetterCount,
    snapshots: LetterCount,
    acknowledgements: LetterCount,
}

impl LetterCounts {
    /// There was none.
    fn start() -> LetterCounts {
        LetterCounts {
            ranges: LetterCount::start(),
            snapshots: LetterCount::start(),
            acknowledgements: LetterCount::start(),
        }
    }

    /// Those of a kind.
    pub fn of(&self, kind: LetterKind) -> &LetterCount {
        match kind {
            LetterKind::Range => &self.ranges,
            LetterKind::Snapshot => &self.snapshots,
            LetterKind::Acknowledgement => &self.acknowledgements,
        }
    }

    /// A letter that begins so goes this way; what is no letter isn't counted.
    pub fn count(&self, head: &Head) {
        if let Some(kind) = LetterKind::of(head.kind) {
            let count = self.of(kind);
            count.letters.add();
            count
                .bytes
                .add_many(LENGTH_BYTES.saturating_add(u64::from(head.length)));
        }
    }
}

/// What is counted of all letters of a site.
#[derive(Drop)]
pub struct LetterTraffic {
    /// Those that it sent.
    pub sent: LetterCounts,
    /// Those that came.
    pub taken: LetterCounts,
}

impl LetterTraffic {
    /// There was none.
    pub fn start() -> LetterTraffic {
        LetterTraffic {
            sent: LetterCounts::start(),
            taken: LetterCounts::start(),
        }
    }
}

/// What the front of a letter says of it: how many bytes come behind its length, and its kind.
#[derive(Clone, Copy)]
pub struct Head {
    pub length: u32,
    pub kind: u8,
}

/// Where the front of a letter says its kind.
const KIND: usize = 12;

/// What the front of a letter says of it, if that is whole.
pub fn head_of(letter: &[u8]) -> Option<Head> {
    let four = letter.first_chunk::<4>()?;
    let kind = letter.get(KIND)?;
    Some(Head {
        length: u32::from_be_bytes(*four),
        kind: *kind,
    })
}
