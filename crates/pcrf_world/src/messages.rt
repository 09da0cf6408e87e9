//! A stream of messages that a script gives to a site, and the site's answers.
ghost use Rattle.dia_codec.specs.Spelling.{IsFrame};

use crate::addressed::{AddressedSite, Unaddressed};
use crate::fault::Unobeyed;
use crate::printing::put_answer;
use crate::world::World;
use dia_base::MessageForm;
use dia_codec::{FrameFault, StreamEnd, frames_of};
use site_core::{Serve, answer_frame};
use std::alloc::{AllocError, Global};

/// Gives a site of a world, which answers in this form, the bytes of a stream: prints a line for each message, and one for what is
/// left of the stream. An unknown site is told once, whatever the bytes. The world comes back.
pub(crate) fn put_stream(
    alloc: Global,
    world: World,
    i: usize,
    form: MessageForm,
    bytes: &[u8],
    out: &mut String,
) -> (World, Result<(), Unobeyed>) {
    match AddressedSite::of(world, i, form) {
        Ok(mut site) => {
            let put = put_messages(alloc, &mut site, bytes, out);
            (site.into_world(), put)
        }
        Err(Unaddressed::NoSuchSite(world)) => (world, put_no_site(out)),
        Err(Unaddressed::NoMemory(world)) => (world, Err(Unobeyed::NoMemory)),
    }
}

/// Prints that there is no such site.
fn put_no_site(out: &mut String) -> Result<(), Unobeyed> {
    Ok(out.push_str("refused NoSuchSite\n")?)
}

/// Prints the answers that a site gives to the messages of a stream, and what is left of it.
pub fn put_messages<S: Serve>(
    alloc: Global,
    site: &mut S,
    bytes: &[u8],
    out: &mut String,
) -> Result<(), Unobeyed> {
    let stream = frames_of(alloc, &[bytes])?;
    for frame in &stream.frames {
        put_message(alloc, site, frame.as_slice(), out)?;
    }
    Ok(put_end(stream.end, out)?)
}

/// Gives a message to a site, and prints its answer.
fn put_message<S: Serve>(
    alloc: Global,
    site: &mut S,
    frame: &[u8],
    out: &mut String,
) -> Result<(), AllocError>
    requires { IsFrame frame.now }
{
    let answer = answer_frame(alloc, site, frame)?;
    put_answer(out, answer.bytes.as_slice())
}

/// Prints what is left of a stream, if anything.
fn put_end(end: StreamEnd, out: &mut String) -> Result<(), AllocError> {
    match end {
        StreamEnd::Whole => Ok(()),
        StreamEnd::Cut => out.push_str("frame Cut\n"),
        StreamEnd::Bad(FrameFault::ShortLength) => out.push_str("frame ShortLength\n"),
        StreamEnd::Bad(FrameFault::OddLength) => out.push_str("frame OddLength\n"),
        StreamEnd::Bad(FrameFault::TooLong) => out.push_str("frame TooLong\n"),
        StreamEnd::Bad(FrameFault::NoMemory) => Err(AllocError),
    }
}
