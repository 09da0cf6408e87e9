//! What is written is sealed.
ghost use Rattle.std.specs.Prelude.{◌≡◌, ◌≤◌, ◌<◌, length, min, take, IfOk, IfErr, OnOk, OnErr, IsSome, IsErr, ◌≢◌, Some, None};
ghost use Rattle.std.specs.Io.{WritesAtMost};
ghost use Rattle.std.specs.Io.KnownBytes.{Appends, Keeps};
ghost use Rattle.peer_lines.specs.Limits.{most_piece};
ghost use Rattle.peer_lines.specs.Records.{next, record_of};
ghost use Rattle.peer_lines.specs.Writing.{WritesRecords};
ghost use Rattle.peer_lines.specs.declared.sealed.fault.SealFault.TheVariants as faults;

use crate::sealed::course::{Course, MOST_PIECE};
use crate::sealed::fault::SealFault;
use std::alloc::{AllocError, Global};
use std::io::{self, Write};

/// The record of a piece.
fn record_of(alloc: Global, course: &Course, piece: &[u8]) -> Result<Vec<u8>, AllocError>
    requires { length piece.now ≤ most_piece }
    ensures { IfOk result (λ bytes. bytes.items ≡ record_of course.now piece.now) }
{
    let mut record = Vec::new(alloc);
    let length = piece.len();
    record.push((length / 256) as u8)?;
    record.push((length % 256) as u8)?;
    record.extend_from_slice(piece)?;
    let code = course.code(piece);
    record.extend_from_slice(&code)?;
    Ok(record)
}

/// A writer over another one. What is written is cut into pieces of 16,384 bytes at most, and of each its record is written. The
/// first fault is kept, and answered by each later call: nothing is written behind it.
#[derive(Drop)]
pub struct SealedWriter<W> {
    writer: W,
    course: Course,
    fault: Option<SealFault>,
    alloc: Global,
}

impl<W: Write> SealedWriter<W> {
    /// A writer of the records of that course, of which none was written yet.
    pub fn start(alloc: Global, writer: W, course: Course) -> SealedWriter<W>
        ensures { result
            ≡ record { writer = writer; course = course; fault = None; alloc = alloc } }
    {
        SealedWriter {
            writer,
            course,
            fault: None,
            alloc,
        }
    }

    /// The first fault, if there was one.
    pub fn fault(&self) -> Option<SealFault>
        ensures { result ≡ self.now.fault }
    {
        self.fault
    }

    /// The writer below.
    pub fn inner(&self) -> &W
        ensures { result.now ≡ self.now.writer }
    {
        &self.writer
    }

    /// Writes the record of a piece.
    fn seal(&mut self, piece: &[u8]) -> Result<(), SealFault>
        requires { length piece.now ≤ most_piece }
        ensures written { OnOk result (Appends (W.contents self.old.writer)
            (W.contents self.new.writer) (record_of self.old.course piece.now)) }
        ensures course { OnOk result (self.new.course ≡ next self.old.course) }
        ensures fault { self.new.fault ≡ self.old.fault }

        // Where it isn't the writer's fault nothing was written.
        ensures kept { IfErr result (λ e. e ≢ faults.WriteFailed
            → self.new ≡ self.old) }
    {
        if !self.course.has_room() {
            return Err(SealFault::Spent);
        }
        let record = record_of(self.alloc, &self.course, piece)?;
        if self.writer.write_all(record.as_slice()).is_err() {
            return Err(SealFault::WriteFailed);
        }
        self.course.advance();
        Ok(())
    }

    /// Keeps a fault, and answers it.
    fn fail<T>(&mut self, fault: SealFault) -> io::Result<T>
        ensures err { IsErr result }
        ensures kept { self.new ≡ record self.old { fault = Some fault } }
    {
        self.fault = Some(fault);
        Err(io::Error::from(fault))
    }
}

impl<W: Write> Write for SealedWriter<W> {
    fn write(&mut self, buf: &[u8]) -> io::Result<usize>
        ensures bound { WritesAtMost result buf.now }
        ensures count { IfOk result (λ n. n ≡ min (length buf.now) most_piece) }
        ensures written { IfOk result (λ n. 0 < n → Appends (W.contents self.old.writer)
            (W.contents self.new.writer) (record_of self.old.course (take n buf.now))) }
        ensures course { IfOk result (λ n. 0 < n → self.new.course ≡ next self.old.course) }
        ensures nothing { IfOk result (λ n. n ≡ 0 → self.new ≡ self.old) }

        // A fault is for good.
        ensures sound { OnOk result ((self.old.fault ≡ None) × (self.new.fault ≡ None)) }
        ensures remembered { OnErr result (IsSome self.new.fault) }
        ensures sticky { IsSome self.old.fault → IsErr result }
        ensures silent { IsSome self.old.fault → self.new ≡ self.old }
    {
        if let Some(fault) = self.fault {
            return Err(io::Error::from(fault));
        }
        if buf.is_empty() {
            return Ok(0);
        }
        let count = buf.len().min(MOST_PIECE);
        if let Err(fault) = self.seal(&buf[..count]) {
            return self.fail(fault);
        }
        Ok(count)
    }

    fn flush(&mut self) -> io::Result<()>
        ensures contents { Keeps (W.contents self.old.writer) (W.contents self.new.writer) }
        ensures course { self.new.course ≡ self.old.course }
        ensures sound { OnOk result ((self.old.fault ≡ None) × (self.new.fault ≡ None)) }
        ensures remembered { OnErr result (IsSome self.new.fault) }
        ensures sticky { IsSome self.old.fault → IsErr result }
        ensures silent { IsSome self.old.fault → self.new ≡ self.old }
    {
        if let Some(fault) = self.fault {
            return Err(io::Error::from(fault));
        }
        if self.writer.flush().is_err() {
            return self.fail(SealFault::WriteFailed);
        }
        Ok(())
    }

    fn write_all(&mut self, buf: &[u8]) -> io::Result<()>
        ensures written { OnOk result (WritesRecords (W.contents self.old.writer)
            (W.contents self.new.writer) self.old.course self.new.course buf.now) }
        ensures sound { OnOk result (self.new.fault ≡ None) }
        ensures remembered { OnErr result (IsSome self.new.fault) }
        ensures sticky { IsSome self.old.fault → IsErr result }
        ensures silent { IsSome self.old.fault → self.new ≡ self.old }
    {
        if let Some(fault) = self.fault {
            return Err(io::Error::from(fault));
        }
        let mut taken = 0;
        while taken < buf.len() {
            taken += self.write(&buf[taken..])?;
        }
        Ok(())
    }
}
