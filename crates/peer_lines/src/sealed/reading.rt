//! What is read is opened.
ghost use Rattle.std.specs.Prelude.{◌≡◌, ◌≢◌, ◌≤◌, ◌<◌, ◌+◌, ◌*◌, ◌==◌, length, min, take, drop, [], true, false, IfOk, IfErr, OnOk, OnErr, IsTrue, IsSome, IsErr, Some, None};
ghost use Rattle.std.specs.Option.{ForNone};
ghost use Rattle.std.specs.Io.{ReadsAtMost, StartsWith};
ghost use Rattle.std.specs.Io.KnownBytes.{Consumes, IsAtEnd, Keeps, ReadConsumes, prepend_known};
ghost use Rattle.peer_lines.specs.Limits.{head_bytes, most_piece};
ghost use Rattle.peer_lines.specs.Reading.{is_length, is_right, piece_at, record_bytes, said_length};
ghost use Rattle.peer_lines.specs.Records.{next};
ghost use Rattle.peer_lines.specs.Streams.{left};
ghost use Rattle.peer_lines.specs.declared.sealed.fault.SealFault.TheVariants as faults;

use crate::sealed::course::{Course, HEAD_BYTES, MOST_PIECE};
use crate::sealed::fault::SealFault;
use crate::sealed::hmac::{CODE_BYTES, are_same};
use bytes::BytesMut;
use std::alloc::Global;
use std::io::{self, Read};

/// How many bytes are read at once at most.
const READ_BYTES: usize = 4096;

/// Reads some bytes behind those that are there, so many at most.
fn read_some<R: Read>(reader: &mut R, begun: &mut Vec<u8>, most: usize) -> Result<usize, SealFault>
    ensures stream { Keeps (prepend_known begun.old.items (R.remaining reader.old))
        (prepend_known begun.new.items (R.remaining reader.new)) }
    ensures front { StartsWith begun.new.items begun.old.items }
    ensures count { IfOk result (λ n. length begun.new.items ≡ length begun.old.items + n) }
    ensures most { IfOk result (λ n. n ≤ most) }
    ensures end { IfOk result (λ n. n ≡ 0 → 0 < most → IsAtEnd (R.remaining reader.new)) }
    ensures fault { IfErr result (λ e. e ≢ faults.BadLength) }
{
    let mut piece = [0u8; READ_BYTES];
    let most = most.min(READ_BYTES);
    begun.reserve(most)?;
    let Ok(count) = reader.read(&mut piece[..most]) else {
        return Err(SealFault::ReadFailed);
    };
    begun.extend_from_slice(&piece[..count])?;
    Ok(count)
}

/// Reads until so many bytes are there. Whether they are: if not, the input has ended.
fn read_up_to<R: Read>(
    reader: &mut R,
    begun: &mut Vec<u8>,
    wanted: usize,
) -> Result<bool, SealFault>
    requires { length begun.old.items ≤ wanted }
    ensures stream { Keeps (prepend_known begun.old.items (R.remaining reader.old))
        (prepend_known begun.new.items (R.remaining reader.new)) }
    ensures front { StartsWith begun.new.items begun.old.items }
    ensures whole { IfOk result (λ is_whole. IsTrue is_whole
        → length begun.new.items ≡ wanted) }
    ensures end { IfOk result (λ is_whole. is_whole ≡ false
        → IsAtEnd (R.remaining reader.new)) }
    ensures fault { IfErr result (λ e. e ≢ faults.BadLength) }
{
    while begun.len() < wanted {
        let lacking = wanted - begun.len();
        if read_some(reader, begun, lacking)? == 0 {
            return Ok(false);
        }
    }
    Ok(true)
}

/// The length that the first two bytes say.
fn said_length(begun: &[u8]) -> usize
    requires { head_bytes ≤ length begun.now }
    ensures { result ≡ said_length begun.now }
{
    256 * usize::from(begun[0]) + usize::from(begun[1])
}

/// Reads a record whole. Whether there is one: if not, the input has ended before it. Its length is judged once its first two bytes
/// are there.
fn read_record<R: Read>(reader: &mut R, begun: &mut Vec<u8>) -> Result<bool, SealFault>
    requires { begun.old.items ≡ [] }
    ensures stream { Keeps (prepend_known begun.old.items (R.remaining reader.old))
        (prepend_known begun.new.items (R.remaining reader.new)) }

    // A record is there.
    ensures length { IfOk result (λ is_there. IsTrue is_there
        → IsTrue (is_length (said_length begun.new.items))) }
    ensures whole { IfOk result (λ is_there. IsTrue is_there
        → length begun.new.items ≡ record_bytes (said_length begun.new.items)) }

    // None is there.
    ensures end { IfOk result (λ is_there. is_there ≡ false
        → IsAtEnd (R.remaining reader.new)) }
    ensures none { IfOk result (λ is_there. is_there ≡ false → begun.new.items ≡ []) }
    ensures bad { IfErr result (λ e. e ≡ faults.BadLength
        → is_length (said_length begun.new.items) ≡ false) }
{
    if !read_up_to(reader, begun, HEAD_BYTES)? {
        if begun.is_empty() {
            return Ok(false);
        }
        return Err(SealFault::Cut);
    }
    let length = said_length(begun.as_slice());
    if length == 0 || length > MOST_PIECE {
        return Err(SealFault::BadLength);
    }
    if !read_up_to(reader, begun, HEAD_BYTES + length + CODE_BYTES)? {
        return Err(SealFault::Cut);
    }
    Ok(true)
}

/// Opens a record that is there whole.
fn open_record(
    course: &mut Course,
    begun: &mut Vec<u8>,
    ready: &mut BytesMut,
) -> Result<(), SealFault>
    requires whole { length begun.old.items ≡ record_bytes (said_length begun.old.items) }
    requires length { IsTrue (is_length (said_length begun.old.items)) }
    requires idle { ready.old.items ≡ [] }
    ensures right { OnOk result (is_right course.old begun.old.items ≡ true) }
    ensures ready { OnOk result (ready.new.items ≡ piece_at begun.old.items) }
    ensures course { OnOk result (course.new ≡ next course.old) }
    ensures taken { OnOk result (begun.new.items ≡ []) }

    // It is refused where it isn't right, and nothing changes.
    ensures wrong { IfErr result (λ e. e ≢ faults.NoMemory
        → is_right course.old begun.old.items ≡ false) }
    ensures same_course { OnErr result (course.new ≡ course.old) }
    ensures same_begun { OnErr result (begun.new.items ≡ begun.old.items) }
    ensures same_ready { OnErr result (ready.new.items ≡ ready.old.items) }
{
    if !course.has_room() {
        return Err(SealFault::Spent);
    }
    let end = begun.len() - CODE_BYTES;
    let bytes = begun.as_slice();
    let piece = &bytes[HEAD_BYTES..end];
    let code = course.code(piece);
    if !are_same(&bytes[end..], &code) {
        return Err(SealFault::WrongCode);
    }
    ready.extend_from_slice(piece)?;
    course.advance();
    begun.clear();
    Ok(())
}

/// Reads the next record and opens it. At the end of the input nothing is ready.
fn open_next<R: Read>(
    reader: &mut R,
    course: &mut Course,
    begun: &mut Vec<u8>,
    ready: &mut BytesMut,
) -> Result<(), SealFault>
    requires border { begun.old.items ≡ [] }
    requires idle { ready.old.items ≡ [] }
    ensures stream { Keeps
        (left course.old begun.old.items ready.old.items (R.remaining reader.old))
        (left course.new begun.new.items ready.new.items (R.remaining reader.new)) }
    ensures border { OnOk result (begun.new.items ≡ []) }
    ensures end { OnOk result (ready.new.items ≡ [] → IsAtEnd (R.remaining reader.new)) }
    ensures none_ready { OnErr result (ready.new.items ≡ []) }
{
    if !read_record(reader, begun)? {
        return Ok(());
    }
    open_record(course, begun, ready)
}

/// Hands on what is ready, as much as there is room for.
fn hand_on(ready: &mut BytesMut, buf: &mut [u8]) -> usize
    ensures count { result ≡ min (length buf.new) (length ready.old.items) }
    ensures given { take result buf.new ≡ take result ready.old.items }
    ensures rest { ready.new.items ≡ drop result ready.old.items }
{
    let count = buf.len().min(ready.len());
    buf[..count].copy_from_slice(&ready.as_slice()[..count]);
    ready.advance(count);
    count
}

/// Gives some of what is ready; where nothing is, the next record is read and opened first.
fn give<R: Read>(
    reader: &mut R,
    course: &mut Course,
    begun: &mut Vec<u8>,
    ready: &mut BytesMut,
    buf: &mut [u8],
) -> Result<usize, SealFault>
    requires { begun.old.items ≡ [] }
    ensures bound { ReadsAtMost result buf.new }
    ensures bytes { ReadConsumes
        (left course.old begun.old.items ready.old.items (R.remaining reader.old))
        (left course.new begun.new.items ready.new.items (R.remaining reader.new))
        result buf.new }
    ensures end { IfOk result (λ n. n ≡ 0 → 0 < length buf.new
        → IsAtEnd (R.remaining reader.new)) }
    ensures border { OnOk result (begun.new.items ≡ []) }
{
    if buf.is_empty() || !ready.is_empty() {
        return Ok(hand_on(ready, buf));
    }
    open_next(reader, course, begun, ready)?;
    Ok(hand_on(ready, buf))
}

/// A reader over another one, which gives what was written of the records that it reads: of a record whose code isn't the one of
/// its bytes at its position, and of all behind it, it gives nothing. The first fault is kept, and answered by each later call.
#[derive(Drop)]
pub struct SealedReader<R> {
    reader: R,
    course: Course,
    begun: Vec<u8>,
    ready: BytesMut,
    fault: Option<SealFault>,
    ghost at_border: { ForNone fault (begun.items ≡ []) },
}

impl<R: Read> SealedReader<R> {
    /// A reader of the records of that course, of which none was read yet.
    pub fn start(alloc: Global, reader: R, course: Course) -> SealedReader<R>
        ensures reader { result.reader ≡ reader }
        ensures course { result.course ≡ course }
        ensures begun { result.begun.items ≡ [] }
        ensures ready { result.ready.items ≡ [] }
        ensures fault { result.fault ≡ None }
    {
        SealedReader {
            reader,
            course,
            begun: Vec::new(alloc),
            ready: BytesMut::new(alloc),
            fault: None,
        }
    }

    /// The first fault, if there was one.
    pub fn fault(&self) -> Option<SealFault>
        ensures { result ≡ self.now.fault }
    {
        self.fault
    }

    /// The reader below.
    pub fn inner(&self) -> &R
        ensures { result.now ≡ self.now.reader }
    {
        &self.reader
    }
}

impl<R: Read> Read for SealedReader<R> {
    // What was written, up to the first record that isn't right.
    ghost remaining = { λ r. left r.course r.begun.items r.ready.items (R.remaining r.reader) };

    fn read(&mut self, buf: &mut [u8]) -> io::Result<usize>
        ensures bound { ReadsAtMost result buf.new }
        ensures bytes { ReadConsumes
            (left self.old.course self.old.begun.items self.old.ready.items
            (R.remaining self.old.reader))
            (left self.new.course self.new.begun.items self.new.ready.items
            (R.remaining self.new.reader))
            result buf.new }

        // The end is told at the end of the input alone, and between records.
        ensures end { IfOk result (λ n. n ≡ 0 → 0 < length buf.new
            → IsAtEnd (R.remaining self.new.reader)) }
        ensures border { OnOk result (self.new.begun.items ≡ []) }

        // A fault is for good.
        ensures sound { OnOk result ((self.old.fault ≡ None) × (self.new.fault ≡ None)) }
        ensures remembered { OnErr result (IsSome self.new.fault) }
        ensures sticky { IsSome self.old.fault → IsErr result }
    {
        if let Some(fault) = self.fault {
            return Err(io::Error::from(fault));
        }
        let given = give(
            &mut self.reader,
            &mut self.course,
            &mut self.begun,
            &mut self.ready,
            buf,
        );
        match given {
            Ok(count) => Ok(count),
            Err(fault) => {
                self.fault = Some(fault);
                Err(io::Error::from(fault))
            }
        }
    }
}
