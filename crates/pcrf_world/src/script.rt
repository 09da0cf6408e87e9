//! Scripts of a world: one command a line, and what it prints.
ghost use Rattle.std.specs.Prelude.{◌≡◌, ◌≤◌, ◌+◌, ◌⊎◌, min, true, false};
ghost use Rattle.dia_codec.specs.Counted.{most_calls};
ghost use Rattle.dia_codec.specs.ScriptLimits.{read_limit};

use crate::console::Console;
use crate::fault::BadLine;
use dia_base::MessageForm;
use dia_codec::{Counted, ScriptEnd, run_lines};
use op_tables::Tables;
use std::alloc::Global;
use std::io::{Read, Write};

/// How a script ended, and why its last line was refused, if it was.
#[derive(Clone, Copy, Debug, PartialEq, Eq)]
pub struct ScriptRun {
    /// How it ended.
    pub end: ScriptEnd,
    /// Why the line that ended it was refused; `None` where no line did.
    pub refused: Option<BadLine>,
}

/// Why the last line was refused. One that no console was given is longer than a line may be.
fn refusal(end: ScriptEnd, console: &Console) -> Option<BadLine> {
    match end {
        ScriptEnd::BadLine(_) => Some(console.refused().unwrap_or(BadLine::TooLong)),
        _ => None,
    }
}

/// Runs a script whose sites have these tables and answer in this form: reads it to its end, in 2^40 reads at most, obeys line after
/// line, and writes what each prints. Answers how it ended, and why a line was refused.
pub fn run_told<R: Read, W: Write>(
    alloc: Global,
    tables: Tables,
    form: MessageForm,
    reader: &mut Counted<R>,
    writer: &mut Counted<W>,
) -> ScriptRun
    requires reader { reader.old.failed ≡ false }
    requires writer { writer.old.failed ≡ false }
    ensures reads { reader.new.calls ≤ reader.old.calls + read_limit }
    ensures read_failed { result.end ≡ ScriptEnd.ReadFailed → (reader.new.failed ≡ true)
        ⊎ (min (reader.old.calls + read_limit) most_calls ≤ reader.new.calls) }
    ensures write_failed { result.end ≡ ScriptEnd.WriteFailed → writer.new.failed ≡ true }

    // All was read, to its end, and written.
    ensures ended { result.end ≡ ScriptEnd.Done → reader.new.ended ≡ true }
    ensures no_read_failed { result.end ≡ ScriptEnd.Done → reader.new.failed ≡ reader.old.failed }
    ensures written { result.end ≡ ScriptEnd.Done → writer.new.failed ≡ writer.old.failed }
{
    let mut console = Console::start(alloc, tables, form);
    let end = run_lines(alloc, &mut console, reader, writer);
    let refused = refusal(end, &console);
    ScriptRun { end, refused }
}

/// Runs a script as `run_told` does, with answers of this project's own form, and answers how it ended.
pub fn run_script<R: Read, W: Write>(
    alloc: Global,
    tables: Tables,
    reader: &mut Counted<R>,
    writer: &mut Counted<W>,
) -> ScriptEnd
    requires reader { reader.old.failed ≡ false }
    requires writer { writer.old.failed ≡ false }
    ensures reads { reader.new.calls ≤ reader.old.calls + read_limit }
    ensures read_failed { result ≡ ScriptEnd.ReadFailed → (reader.new.failed ≡ true)
        ⊎ (min (reader.old.calls + read_limit) most_calls ≤ reader.new.calls) }
    ensures write_failed { result ≡ ScriptEnd.WriteFailed → writer.new.failed ≡ true }

    // All was read, to its end, and written.
    ensures ended { result ≡ ScriptEnd.Done → reader.new.ended ≡ true }
    ensures no_read_failed { result ≡ ScriptEnd.Done → reader.new.failed ≡ reader.old.failed }
    ensures written { result ≡ ScriptEnd.Done → writer.new.failed ≡ writer.old.failed }
{
    run_told(alloc, tables, MessageForm::Own, reader, writer).end
}
