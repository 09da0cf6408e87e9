//! Links that are sealed, a layer below whatever is written on them (docs/LETTERS.md, "Sealed links"): both ends prove that they have
//! one secret, and what is written is cut into records that carry codes, so that nobody between can add, drop, repeat or change a
//! part.

mod challenge;
mod course;
mod fault;
mod hmac;
pub mod laws;
mod proving;
mod reading;
mod secret;
mod writing;

pub use challenge::Challenges;
pub use course::{Course, HEAD_BYTES, MOST_PIECE, Side};
pub use fault::SealFault;
pub use hmac::{CODE_BYTES, Key, are_same, hmac_sha256};
pub use proving::{
    CHALLENGE_BYTES, GREETING_BYTES, Greeting, Greetings, prove_dialling, prove_listening,
};
pub use reading::SealedReader;
pub use secret::{SecretFault, secret_of};
pub use writing::SealedWriter;
