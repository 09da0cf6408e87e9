//! Lines of a script, and questions about its world, which print as the lines of a script do.
//!
//! | Line | What it prints |
//! |---|---|
//! | `post HEX` | a letter that comes from elsewhere: `letter K`, by which number sites take it, or why these bytes are none |
//! | `bytes K` | letter K as bytes, which have all that is known of each session |
//! | `same I J` | `same` where sites I and J hold the same, and `other` where they don't |
//! | `bindings I` | each live session of an application function at site I, and to which gateway's session it is bound |
//! | `at I ADDRESS`, `of I TYPE:NAME`, `covering I PREFIX` | `gx SID` for each live session of a gateway with this address, with this subscriber, with a prefix that covers this one |
//! | `turns I AT HEX` | a request of which the byte behind AT others is each byte in turn, given to site I: its answers as one number |
//! | `times N LINE` | what the line prints last when it is obeyed N times |
use crate::fault::Fault;
use crate::makers::subscriber_of;
use bind_index::{sessions_at, sessions_covering, sessions_of};
use dia_codec::Obey;
use indexed_state::{bindings, put_text};
use pcrf_values::{GxSid, Ipv6Prefix, Subscriber, SubscriptionType};
use pcrf_world::words::{Further, bytes, number, one, three, two, words_of};
use pcrf_world::{BadLine, Console, World};
use peer_exchange::{LetterFault, read_letter, write_letter};
use site_core::Site;
use std::alloc::{AllocError, Global};
use std::fmt::Write as _;
use std::net::Ipv4Addr;

/// Bytes as one number of 32 bits (Fowler, Noll and Vo, FNV-1a).
pub fn mixed(bytes: &[u8]) -> u32 {
    let mut mixed = 0x811c_9dc5u32;
    for byte in bytes {
        mixed = (mixed ^ u32::from(*byte)).wrapping_mul(0x0100_0193);
    }
    mixed
}

/// Adds a letter that comes from elsewhere to the letters of a world.
fn put_post(alloc: Global, world: &mut World, digits: &str, out: &mut String) -> Result<(), Fault> {
    let frame = bytes(alloc, digits)?;
    match read_letter(alloc, frame.as_slice(), world.tables().edition()) {
        Ok(letter) => {
            let number = world.post(letter)?;
            writeln!(out, "letter {number}")?;
        }
        Err(LetterFault::NoMemory) => return Err(Fault::NoMemory),
        Err(fault) => writeln!(out, "{fault}")?,
    }
    Ok(())
}

/// A letter as bytes.
fn put_bytes(alloc: Global, world: &World, word: &str, out: &mut String) -> Result<(), Fault> {
    let Some(letter) = world.letter(number(word)?) else {
        return Ok(out.push_str("refused NoSuchLetter\n")?);
    };
    let Ok(bytes) = write_letter(alloc, letter) else {
        return Err(Fault::NoMemory);
    };
    let digits = hex::encode(alloc, bytes.as_slice())?;
    Ok(writeln!(out, "{digits}")?)
}

/// Whether two sites hold the same.
fn put_same(world: &World, further: Further<'_>, out: &mut String) -> Result<(), Fault> {
    let (i, j) = two(further)?;
    let (Some(ours), Some(theirs)) = (world.site(number(i)?), world.site(number(j)?)) else {
        return Ok(out.push_str("refused NoSuchSite\n")?);
    };
    let is_same = ours.sessions().equal(theirs.sessions());
    Ok(out.push_str(if is_same { "same\n" } else { "other\n" })?)
}

/// A kind of session, and a Session-Id.
fn put_session(out: &mut String, kind: &str, id: &[u8]) -> Result<(), AllocError> {
    out.push_str(kind)?;
    put_text(out, id)
}

/// Each live session of an application function, with the gateway's session to which it is bound.
fn put_bindings(alloc: Global, site: &Site, out: &mut String) -> Result<(), Fault> {
    for (session, bound) in &bindings(alloc, site.sessions())? {
        put_session(out, "af ", session.as_slice())?;
        match bound {
            Some(gateway) => put_session(out, " bound ", gateway.as_slice())?,
            None => out.push_str(" unbound")?,
        }
        out.push_str("\n")?;
    }
    Ok(())
}

/// The subscriber of a type and a name.
fn subscriber(alloc: Global, word: &str) -> Result<Subscriber, Fault> {
    let (kind, name) = word.split_once(':').unwrap_or((word, ""));
    let Some(kind) = SubscriptionType::from_number(kind.parse::<u32>().unwrap_or(u32::MAX)) else {
        return Err(Fault::NoValue);
    };
    subscriber_of(alloc, kind, name)?.ok_or(Fault::NoValue)
}

/// The prefix of these digits, and of its length in bits behind a stroke.
fn prefix(alloc: Global, word: &str) -> Result<Ipv6Prefix, Fault> {
    let (digits, bits) = word.split_once('/').unwrap_or((word, ""));
    let (Ok(octets), Ok(bits)) = (hex::decode(alloc, digits), bits.parse::<u8>()) else {
        return Err(Fault::NoValue);
    };
    Ipv6Prefix::of(bits, octets.as_slice()).ok_or(Fault::NoValue)
}

/// The live sessions of gateways that a line asks for.
fn sessions(alloc: Global, site: &Site, first: &str, word: &str) -> Result<Vec<GxSid>, Fault> {
    let state = site.sessions();
    Ok(match first {
        "of" => sessions_of(alloc, state, &subscriber(alloc, word)?)?,
        "covering" => sessions_covering(alloc, state, &prefix(alloc, word)?)?,
        _ => match word.parse::<Ipv4Addr>() {
            Ok(address) => sessions_at(alloc, state, address)?,
            Err(_) => return Err(Fault::NoValue),
        },
    })
}

/// What is asked of a site.
fn put_of_site(
    alloc: Global,
    world: &World,
    first: &str,
    further: Further<'_>,
    out: &mut String,
) -> Result<(), Fault> {
    let (site, word) = if first == "bindings" {
        (one(further)?, "")
    } else {
        two(further)?
    };
    let Some(site) = world.site(number(site)?) else {
        return Ok(out.push_str("refused NoSuchSite\n")?);
    };
    if first == "bindings" {
        return put_bindings(alloc, site, out);
    }
    for session in &sessions(alloc, site, first, word)? {
        put_session(out, "gx ", session.as_slice())?;
        out.push_str("\n")?;
    }
    Ok(())
}

/// Obeys a line of a script.
fn put_obeyed(console: &mut Console, line: &str, out: &mut String) -> Result<(), Fault> {
    if console.obey(line.as_bytes(), out).is_ok() {
        return Ok(());
    }
    match console.refused() {
        Some(reason) => Err(Fault::Line(reason)),
        None => Err(Fault::NoMemory),
    }
}

/// Gives a site a request of which one byte is each byte in turn.
fn put_turns(
    alloc: Global,
    console: &mut Console,
    further: Further<'_>,
    out: &mut String,
) -> Result<(), Fault> {
    let (site, at, digits) = three(further)?;
    let (at, mut frame) = (number(at)?, bytes(alloc, digits)?);
    let mut said = String::new(alloc);
    for byte in 0..=u8::MAX {
        if let Some(place) = frame.get_mut(at) {
            *place = byte;
        }
        let digits = hex::encode(alloc, frame.as_slice())?;
        let line = format!(in alloc; "msg {site} {digits}")?;
        put_obeyed(console, line.as_str(), &mut said)?;
    }
    Ok(writeln!(out, "{:08x}", mixed(said.as_bytes()))?)
}

/// Obeys a line of a script so many times.
fn put_times(
    alloc: Global,
    console: &mut Console,
    words: &str,
    out: &mut String,
) -> Result<(), Fault> {
    let (count, line) = words.split_once(' ').unwrap_or((words, ""));
    let mut said = String::new(alloc);
    for _ in 0..number(count)? {
        said.clear();
        put_obeyed(console, line, &mut said)?;
    }
    Ok(out.push_str(said.as_str())?)
}

/// What is asked of a world.
fn put_of_world(
    alloc: Global,
    console: &mut Console,
    first: &str,
    further: Further<'_>,
    out: &mut String,
) -> Result<(), Fault> {
    let Some(world) = console.world_mut() else {
        return Err(Fault::Line(BadLine::NoWorld));
    };
    match first {
        "post" => put_post(alloc, world, one(further)?, out),
        "bytes" => put_bytes(alloc, world, one(further)?, out),
        "same" => put_same(world, further, out),
        _ => put_of_site(alloc, world, first, further, out),
    }
}

/// Adds what a line of a script or a question prints.
pub fn put_asked(
    alloc: Global,
    console: &mut Console,
    line: &str,
    out: &mut String,
) -> Result<(), Fault> {
    let (first, further) = words_of(line);
    match first {
        "post" | "bytes" | "same" | "bindings" | "at" | "of" | "covering" => {
            put_of_world(alloc, console, first, further, out)
        }
        "turns" => put_turns(alloc, console, further, out),
        "times" => put_times(
            alloc,
            console,
            line.strip_prefix("times ").unwrap_or(""),
            out,
        ),
        _ => put_obeyed(console, line, out),
    }
}
