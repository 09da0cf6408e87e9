//! Readers and writers that remember whether a call has failed, and whether the last read found the end.

ghost use Rattle.std.specs.Prelude.{◌≡◌, ◌+◌, ◌<◌, min, true, false, length, IfOk, OnOk, OnErr};
ghost use Rattle.std.specs.Io.{ReadsAtMost, WritesAtMost};
ghost use Rattle.std.specs.Io.KnownBytes.{Appends, Keeps, ReadConsumes, WriteAppends};
ghost use Rattle.dia_codec.specs.Counted.{most_calls, is_end};

use std::io;
use std::io::{ErrorKind, Read, Write};

/// A reader or a writer, with a flag that a failed call sets, the number of its reads, and whether the last of them
/// found the end.
///
/// The flag of failed calls is never cleared. An interrupted call counts as failed, as does a write that takes no byte.
/// A read finds the end where it gives no byte though it has room for one.
#[derive(Debug, Drop)]
pub struct Counted<D> {
    inner: D,
    failed: bool,
    calls: u64,
    ended: bool,
}

impl<D> Counted<D> {
    /// Wraps a reader or a writer before its first call.
    pub fn start(inner: D) -> Counted<D>
        ensures { result ≡ record { inner = inner; failed = false; calls = 0; ended = false } }
    {
        Counted {
            inner,
            failed: false,
            calls: 0,
            ended: false,
        }
    }

    /// Whether a call has failed.
    pub fn failed(&self) -> bool
        ensures { result ≡ self.now.failed }
    {
        self.failed
    }

    /// How many reads were made, which stops at `u64::MAX`.
    pub fn calls(&self) -> u64
        ensures { result ≡ self.now.calls }
    {
        self.calls
    }

    /// Whether the last read found the end.
    pub fn ended(&self) -> bool
        ensures { result ≡ self.now.ended }
    {
        self.ended
    }

    /// Remembers a call that has failed.
    fn noted<T>(&mut self, given: io::Result<T>) -> io::Result<T>
        ensures same { result ≡ given }
        ensures failed { OnErr given (self.new.failed ≡ true) }
        ensures kept { OnOk given (self.new.failed ≡ self.old.failed) }
        ensures inner { self.new.inner ≡ self.old.inner }
        ensures calls { self.new.calls ≡ self.old.calls }
        ensures ended { self.new.ended ≡ self.old.ended }
    {
        if given.is_err() {
            self.failed = true;
        }
        given
    }
}

impl<R: Read> Read for Counted<R> {
    ghost remaining = { λ c. R.remaining c.inner };

    fn read(&mut self, buf: &mut [u8]) -> io::Result<usize>
        ensures bound { ReadsAtMost result buf.new }
        ensures bytes { ReadConsumes (R.remaining self.old.inner) (R.remaining self.new.inner)
            result buf.new }
        ensures failed { OnErr result (self.new.failed ≡ true) }
        ensures kept { OnOk result (self.new.failed ≡ self.old.failed) }
        ensures calls { self.new.calls ≡ min (self.old.calls + 1) most_calls }
        ensures ended { IfOk result (λ n. self.new.ended ≡ is_end n (length buf.new)) }
        ensures goes_on { OnErr result (self.new.ended ≡ false) }
    {
        self.calls = self.calls.saturating_add(1);
        let result = self.inner.read(buf);
        self.ended = match &result {
            Ok(count) => *count == 0 && !buf.is_empty(),
            Err(_) => false,
        };
        self.noted(result)
    }
}

impl<W: Write> Write for Counted<W> {
    ghost use Rattle.dia_codec.specs.Counted.{AppendsPart};

    ghost contents = { λ c. W.contents c.inner };

    fn write(&mut self, buf: &[u8]) -> io::Result<usize>
        ensures bound { WritesAtMost result buf.now }
        ensures bytes { WriteAppends (W.contents self.old.inner) (W.contents self.new.inner)
            result buf.now }
        ensures takes { IfOk result (λ n. 0 < length buf.now → 0 < n) }
        ensures failed { OnErr result (self.new.failed ≡ true) }
        ensures kept { OnOk result (self.new.failed ≡ self.old.failed) }
        ensures calls { self.new.calls ≡ self.old.calls }
        ensures ended { self.new.ended ≡ self.old.ended }
    {
        let result = match self.inner.write(buf) {
            Ok(0) if !buf.is_empty() => Err(io::Error::from(ErrorKind::WriteZero)),
            result => result,
        };
        self.noted(result)
    }

    fn flush(&mut self) -> io::Result<()>
        ensures bytes { Keeps (W.contents self.old.inner) (W.contents self.new.inner) }
        ensures failed { OnErr result (self.new.failed ≡ true) }
        ensures kept { OnOk result (self.new.failed ≡ self.old.failed) }
        ensures calls { self.new.calls ≡ self.old.calls }
        ensures ended { self.new.ended ≡ self.old.ended }
    {
        let result = self.inner.flush();
        self.noted(result)
    }

    fn write_all(&mut self, buf: &[u8]) -> io::Result<()>
        ensures bytes { OnOk result
            (Appends (W.contents self.old.inner) (W.contents self.new.inner) buf.now) }
        ensures part { OnErr result
            (AppendsPart (W.contents self.old.inner) (W.contents self.new.inner) buf.now) }
        ensures failed { OnErr result (self.new.failed ≡ true) }
        ensures kept { OnOk result (self.new.failed ≡ self.old.failed) }
        ensures calls { self.new.calls ≡ self.old.calls }
        ensures ended { self.new.ended ≡ self.old.ended }
    {
        let mut taken = 0;
        while taken < buf.len() {
            taken += self.write(&buf[taken..])?;
        }
        Ok(())
    }
}

impl<W: Write> Counted<W> {
    ghost use Rattle.dia_codec.specs.Counted.{AppendsPart};

    /// Writes all of the bytes, or fails with some first part of them written.
    pub fn put(&mut self, bytes: &[u8]) -> io::Result<()>
        ensures bytes { OnOk result
            (Appends (W.contents self.old.inner) (W.contents self.new.inner) bytes.now) }
        ensures part { OnErr result
            (AppendsPart (W.contents self.old.inner) (W.contents self.new.inner) bytes.now) }
        ensures failed { OnErr result (self.new.failed ≡ true) }
        ensures kept { OnOk result (self.new.failed ≡ self.old.failed) }
        ensures calls { self.new.calls ≡ self.old.calls }
        ensures ended { self.new.ended ≡ self.old.ended }
    {
        self.write_all(bytes)
    }
}
