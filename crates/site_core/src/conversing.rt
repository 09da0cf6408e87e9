//! A stream is read, and its frames are answered one after another.
ghost use Rattle.std.specs.Prelude.{◌≡◌, ◌≤◌, ◌+◌, ◌-◌, ◌^◌, ◌⊎◌, min, true, false, Some, None, Ok, IfSome, IfNone};
ghost use Rattle.std.specs.Io.KnownBytes.{Appends};
ghost use Rattle.dia_codec.specs.Spelling.{IsFrame};
ghost use Rattle.dia_codec.specs.Stream.{front_of};
ghost use Rattle.dia_codec.specs.Counted.{most_calls};
ghost use Rattle.site_core.specs.Conversations.{IsEnd, ServesSome, conversation_of};
ghost use Rattle.site_core.specs.Conversing.{Conversed, IsMidway, Turned, Went};
ghost use Rattle.site_core.specs.Limits.{most_reads};

use crate::answering::answer_frame;
use crate::ended::Ended;
use dia_codec::{Assembler, Counted, FrameFault};
use site_machine::Site;
use std::alloc::Global;
use std::io::{Read, Write};

/// How many reads a conversation may take.
const READ_LIMIT: u64 = 1 << 40;

/// The code's limit is the profile's number.
pub fn read_limit_is_the_profiles()
    ensures { READ_LIMIT ≡ most_reads }
{}

/// How many bytes are read at once.
const PIECE_BYTES: usize = 4096;

/// Serves one frame, and writes its answer. It tells how the stream ends, if it ends here.
fn serve_frame<W: Write>(
    alloc: Global,
    site: &mut Site,
    frame: &[u8],
    writer: &mut Counted<W>,
) -> Option<Ended>
    requires { IsFrame frame.now }
    ensures turned { Turned site.old frame.now (W.contents writer.old.inner)
        result site.new (W.contents writer.new.inner) }
    ensures write_failed { result ≡ Some Ended.WriteFailed → writer.new.failed ≡ true }
{
    let Ok(answer) = answer_frame(alloc, site, frame) else {
        return Some(Ended::NoMemory);
    };
    if writer.put(answer.bytes.as_slice()).is_err() {
        return Some(Ended::WriteFailed);
    }
    if answer.last {
        return Some(Ended::Disconnected);
    }
    None
}

/// Serves each whole frame that was fed. It tells how the stream ends, if it ends among them.
fn drain<W: Write>(
    alloc: Global,
    site: &mut Site,
    assembler: &mut Assembler,
    writer: &mut Counted<W>,
) -> Option<Ended>
    requires { assembler.old.fault ≡ None }
    ensures went { IfNone result (Went site.old assembler.old.bytes
        (W.contents writer.old.inner) assembler.new.bytes
        site.new (W.contents writer.new.inner)) }
    ensures none { IfNone result (front_of assembler.new.bytes ≡ Ok None) }
    ensures sound { IfNone result (assembler.new.fault ≡ None) }
    ensures conversed { IfSome result (λ end. Conversed site.old assembler.old.bytes
        (W.contents writer.old.inner) end site.new (W.contents writer.new.inner)) }
    ensures midway { IfSome result IsMidway }
    ensures write_failed { result ≡ Some Ended.WriteFailed → writer.new.failed ≡ true }
{
    loop {
        match assembler.next() {
            Ok(Some(frame)) => {
                if let Some(end) = serve_frame(alloc, site, frame.as_slice(), writer) {
                    return Some(end);
                }
            }
            Ok(None) => return None,
            Err(FrameFault::NoMemory) => return Some(Ended::NoMemory),
            Err(fault) => return Some(Ended::Frame(fault)),
        }
    }
}

/// Reads the stream piece by piece, and answers it. Between two reads less than one frame is kept.
fn answer_all<R: Read, W: Write>(
    alloc: Global,
    site: &mut Site,
    reader: &mut Counted<R>,
    writer: &mut Counted<W>,
) -> Ended
    ensures conversed { IfSome (R.remaining reader.old.inner) (λ input.
        Conversed site.old input (W.contents writer.old.inner)
        result site.new (W.contents writer.new.inner)) }
    ensures read_failed { result ≡ Ended.ReadFailed → (reader.new.failed ≡ true)
        ⊎ (min (reader.old.calls + most_reads) most_calls ≤ reader.new.calls) }
    ensures reads { reader.new.calls ≤ reader.old.calls + most_reads }
    ensures write_failed { result ≡ Ended.WriteFailed → writer.new.failed ≡ true }
{
    let mut assembler = Assembler::start(alloc);
    let mut piece = [0u8; PIECE_BYTES];
    for _turn in 0..READ_LIMIT {
        let Ok(count) = reader.read(&mut piece) else {
            return Ended::ReadFailed;
        };
        if count == 0 {
            if assembler.is_empty() {
                return Ended::Closed;
            }
            return Ended::Cut;
        }
        if assembler.feed(&piece[..count]).is_err() {
            return Ended::NoMemory;
        }
        if let Some(end) = drain(alloc, site, &mut assembler, writer) {
            return end;
        }
    }
    Ended::ReadFailed
}

/// Answers a whole stream, whose messages may come in any pieces. Its bytes and those that are written are known where the
/// reader's and the writer's are. What was served before a failure stands.
pub fn converse<R: Read, W: Write>(
    alloc: Global,
    site: &mut Site,
    reader: &mut Counted<R>,
    writer: &mut Counted<W>,
) -> Ended
    requires reader { reader.old.failed ≡ false }
    requires writer { writer.old.failed ≡ false }

    // The stream's own end.
    ensures ended { IfSome (R.remaining reader.old.inner) (λ input. IsEnd result →
        result ≡ (conversation_of site.old input).ended) }
    ensures written { IfSome (R.remaining reader.old.inner) (λ input. IsEnd result →
        Appends (W.contents writer.old.inner) (W.contents writer.new.inner)
        (conversation_of site.old input).bytes) }
    ensures site { IfSome (R.remaining reader.old.inner) (λ input. IsEnd result →
        site.new ≡ (conversation_of site.old input).site) }

    // Any end.
    ensures served { IfSome (R.remaining reader.old.inner) (λ input.
        ServesSome site.old input site.new
        (W.contents writer.old.inner) (W.contents writer.new.inner)) }
    ensures reads { reader.new.calls ≤ reader.old.calls + most_reads }

    // A failure.
    ensures read_failed { result ≡ Ended.ReadFailed → (reader.new.failed ≡ true)
        ⊎ (min (reader.old.calls + most_reads) most_calls ≤ reader.new.calls) }
    ensures write_failed { result ≡ Ended.WriteFailed → writer.new.failed ≡ true }
{
    answer_all(alloc, site, reader, writer)
}
