//! A script is read to its end, line after line is obeyed, and what each prints is written.
ghost use Rattle.std.specs.Prelude.{◌≡◌, ◌≢◌, ◌≤◌, ◌+◌, ◌⊎◌, min, true, false, OnOk, IfErr, IsErrOf};
ghost use Rattle.dia_codec.specs.Counted.{most_calls};
ghost use Rattle.dia_codec.specs.ScriptLimits.{read_limit};

use crate::counted::Counted;
use crate::line_fault::LineFault;
use std::alloc::Global;
use std::io::{Read, Write};

/// How a script ended.
#[derive(Clone, Copy, Debug, PartialEq, Eq)]
pub enum ScriptEnd {
    /// Each line was obeyed.
    Done,
    /// The line of this number, from 1, fits no form; the output so far stands.
    BadLine(u64),
    /// The reader failed, or gave no end within 2^40 reads.
    ReadFailed,
    /// The writer failed.
    WriteFailed,
    /// Memory ran out.
    NoMemory,
}

/// How many reads a script may take.
const READ_LIMIT: u64 = 1 << 40;

/// The code's limit is the profile's number.
pub fn read_limit_is_the_profiles()
    ensures { READ_LIMIT ≡ read_limit }
{}

/// How many bytes a line may have without its end.
const LINE_LIMIT: usize = 200_000;

/// Who obeys the lines of scripts.
pub trait Obey {
    /// Obeys a line, which is given without its end, and puts what it prints behind what stands there.
    fn obey(&mut self, line: &[u8], out: &mut String) -> Result<(), LineFault>;
}

/// A script under way.
#[derive(Drop)]
struct Script {
    line: Vec<u8>,
    number: u64,
    out: String,
}

impl Script {
    fn start(alloc: Global) -> Script {
        Script {
            line: Vec::new(alloc),
            number: 0,
            out: String::new(alloc),
        }
    }

    /// The line is whole: obeys it, and writes what it prints.
    fn end_line<O: Obey, W: Write>(
        &mut self,
        obeyer: &mut O,
        writer: &mut Counted<W>,
    ) -> Result<(), ScriptEnd>
        ensures write_failed { IsErrOf result ScriptEnd.WriteFailed → writer.new.failed ≡ true }
        ensures written { OnOk result (writer.new.failed ≡ writer.old.failed) }
        ensures not_done { IfErr result (λ e. e ≢ ScriptEnd.Done) }
        ensures other { IfErr result (λ e. e ≢ ScriptEnd.ReadFailed) }
    {
        self.number = self.number.saturating_add(1);
        let obeyed = obeyer.obey(self.line.as_slice(), &mut self.out);
        let written = writer.put(self.out.as_bytes());
        self.out.clear();
        self.line.clear();
        if written.is_err() {
            return Err(ScriptEnd::WriteFailed);
        }
        match obeyed {
            Ok(()) => Ok(()),
            Err(LineFault::Bad) => Err(ScriptEnd::BadLine(self.number)),
            Err(LineFault::NoMemory) => Err(ScriptEnd::NoMemory),
        }
    }

    /// Takes the next byte of the script.
    fn take<O: Obey, W: Write>(
        &mut self,
        obeyer: &mut O,
        byte: u8,
        writer: &mut Counted<W>,
    ) -> Result<(), ScriptEnd>
        ensures write_failed { IsErrOf result ScriptEnd.WriteFailed → writer.new.failed ≡ true }
        ensures written { OnOk result (writer.new.failed ≡ writer.old.failed) }
        ensures not_done { IfErr result (λ e. e ≢ ScriptEnd.Done) }
        ensures other { IfErr result (λ e. e ≢ ScriptEnd.ReadFailed) }
    {
        if byte == b'\n' {
            return self.end_line(obeyer, writer);
        }
        if self.line.len() >= LINE_LIMIT {
            return Err(ScriptEnd::BadLine(self.number.saturating_add(1)));
        }
        if self.line.push(byte).is_err() {
            return Err(ScriptEnd::NoMemory);
        }
        Ok(())
    }

    /// The script has ended: obeys what stands behind the last line end, if anything.
    fn last_line<O: Obey, W: Write>(&mut self, obeyer: &mut O, writer: &mut Counted<W>) -> ScriptEnd
        ensures write_failed { result ≡ ScriptEnd.WriteFailed → writer.new.failed ≡ true }
        ensures written { result ≡ ScriptEnd.Done → writer.new.failed ≡ writer.old.failed }
        ensures other { result ≢ ScriptEnd.ReadFailed }
    {
        if self.line.is_empty() {
            return ScriptEnd::Done;
        }
        match self.end_line(obeyer, writer) {
            Ok(()) => ScriptEnd::Done,
            Err(end) => end,
        }
    }
}

/// Reads a script to its end, in 2^40 reads at most, has line after line obeyed, and writes what each prints.
pub fn run_lines<O: Obey, R: Read, W: Write>(
    alloc: Global,
    obeyer: &mut O,
    reader: &mut Counted<R>,
    writer: &mut Counted<W>,
) -> ScriptEnd
    requires reader { reader.old.failed ≡ false }
    requires writer { writer.old.failed ≡ false }
    ensures reads { reader.new.calls ≤ reader.old.calls + read_limit }
    ensures read_failed { result ≡ ScriptEnd.ReadFailed → (reader.new.failed ≡ true)
        ⊎ (min (reader.old.calls + read_limit) most_calls ≤ reader.new.calls) }
    ensures write_failed { result ≡ ScriptEnd.WriteFailed → writer.new.failed ≡ true }

    // All was read, to its end, and written.
    ensures ended { result ≡ ScriptEnd.Done → reader.new.ended ≡ true }
    ensures no_read_failed { result ≡ ScriptEnd.Done → reader.new.failed ≡ reader.old.failed }
    ensures written { result ≡ ScriptEnd.Done → writer.new.failed ≡ writer.old.failed }
{
    let mut script = Script::start(alloc);
    let mut piece = [0u8; 4096];
    for _turn in 0..READ_LIMIT {
        let Ok(count) = reader.read(&mut piece) else {
            return ScriptEnd::ReadFailed;
        };
        if count == 0 {
            return script.last_line(obeyer, writer);
        }
        for byte in &piece[..count] {
            if let Err(end) = script.take(obeyer, *byte, writer) {
                return end;
            }
        }
    }
    ScriptEnd::ReadFailed
}
