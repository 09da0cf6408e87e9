//! The benchmark program: it obeys the lines of standard input, and prints a line for each figure.
//!
//! The first argument is a file of operator tables. `oracle/bench_input.py` writes the lines, by a measure's name and sizes
//! (docs/PERFORMANCE.md). A line of hexadecimal digits is a message of a gateway or of an application function, or a letter of
//! a site, and such lines in a row are a block; in a block `-` stands for a push to any gateway. A line behind a block says
//! what is done with it, at a site with the tables and at a state:
//!
//! - `site`, `state`: the site, or the state, forgets all
//! - `ask NAME`: the site answers the messages as one stream
//! - `part NAME`: the site answers each message: reading, serving and writing apart
//! - `read COUNT NAME`: the messages are read so often, each time all before what they say is dropped
//! - `push HOST COUNT due NAME`, `push HOST COUNT none NAME`: the site makes so many pushes to a gateway, each of which is due,
//!   or none of which is
//! - `whole HOST NAME`: another site takes the whole state of the site, twice, and then makes a push, where none is due
//! - `listed COUNT NAME`: the sessions that the site's index lists under so many addresses and subscribers are counted
//! - `renew NAME`: the rules of all sessions of the site are made, one by one and at once
//! - `steps COUNT NAME`: a site like this one takes the messages so often
//! - `living COUNT NAME`: a site like this one that lives takes them so often, by one seat
//! - `calls THREADS COUNT settled NAME`, `calls THREADS COUNT left NAME`: by threads that share a locked site like this one,
//!   whose history settles then, or doesn't
//! - `pass KIND taken COUNT NAME`, `pass KIND told COUNT NAME`: a site like this one, alone (`bare`), under the lock of one that keeps
//!   its history (`locked`) or of one that lives (`living`), takes the whole state of this one so often, or tells its own
//! - `take state NAME`, `take site NAME`: the state, or the site, takes the operations of the letters
//! - `records COUNT NAME`: records of the facts of two operations of one session are made, and joined, so often
//! - `merge NAME`: the state is merged with an equal one
//! - `carry NAME`: the state is copied, and carried by a letter
//! - `tables COUNT NAME`: the operator tables are read and copied so often
//! - `look COUNT NAMES..`: these access points are looked up so often
//! - `print HEADING`: the heading is printed, and each figure since the last one
//! - `# TEXT`: nothing
//!
//! Where a NAME is `-` it makes no figure. Of one NAME all that is done up to `print` is one figure. Without a second
//! argument, `timed`, a figure tells how often a thing was done, but not how long that took.
mod bench;
mod book;
mod figures;
mod listings;
mod living;
mod pushes;
mod records;
mod renewals;
mod states;
mod streams;
mod tables;
mod words;

use crate::fault::Fault;
use crate::host::Host;
pub use crate::measures::bench::Bench;
use pcrf_world::words::Further;

/// Begins with the operator tables of a file, and tells times where a second word says so.
pub fn begin(rt: &impl Host, further: Further<'_>) -> Result<Bench, Fault> {
    let (file, is_timed) = match further {
        (Some(file), None, _, _) => (file, false),
        (Some(file), Some("timed"), None, _) => (file, true),
        _ => return Err(Fault::NoValue),
    };
    let text = rt.text_of(file)?;
    Bench::start(rt.alloc(), text, is_timed)
}
