//! Links of peer sites as they come and go: a line is opened, under a secret or without one; the heads of its letters are judged as soon
//! as they are there; each peer site has one seat, of which its newest link takes the place of the one before; and between letters a site
//! tells which hosts it reaches. A link under a secret is sealed, a layer below whatever is written on it (`sealed`).
#![tactic(auto)]

mod board;
mod ends;
mod heads;
mod hearing;
mod hosts;
mod joining;
mod letters;
mod line;
mod link;
mod notice;
pub mod notice_laws;
mod opening;
mod said;
pub mod sealed;
mod sieve;
mod teller;

pub use board::{Board, Claim, Slot};
pub use heads::{Expected, HeadFault, Sender};
pub use hearing::Hearing;
pub use hosts::{Moment, ReachedHosts};
pub use letters::{
    Head, LETTER_KINDS, LetterCount, LetterCounts, LetterKind, LetterTraffic, head_of,
};
pub use line::Line;
pub use link::{Link, Unlinked};
pub use notice::{Notice, put_all, put_change};
pub use opening::Opening;
pub use sealed::{
    CHALLENGE_BYTES, CODE_BYTES, Challenges, Course, GREETING_BYTES, Greeting, Greetings,
    HEAD_BYTES, Key, MOST_PIECE, SealFault, SealedReader, SealedWriter, SecretFault, Side,
    are_same, hmac_sha256, prove_dialling, prove_listening, secret_of,
};
pub use sieve::{Sieve, Sieved};
pub use teller::Teller;
