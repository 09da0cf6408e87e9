//! What facts say, and facts, as the bytes that letters carry: one spelling of each, read at the front of longer ones.
#![tactic(auto)]

mod facts;
mod fault;
mod held_facts;
pub mod laws;
mod letter_fact;
mod numbers;
mod put_values;
mod rules;
mod said;
mod texts;
mod values;
mod version;

pub use facts::{af_facts_at, gx_facts_at};
pub use fault::{Unread, Unwritten};
pub use held_facts::{held_af_facts_at, held_gx_facts_at};
pub use letter_fact::{LetterFact, put_facts, put_held_facts};
pub use numbers::{byte_at, bytes_at, long_at, short_at, word_at};
pub use put_values::{put_long, put_short, put_text, put_word};
pub use texts::text_at;
pub use version::{LETTER_VERSION, LetterVersion};
