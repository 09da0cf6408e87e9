//! Scripts of worlds: of a file (`script`), of a line and of a comment. `lines TEXT` runs the text, in which each byte may stand as `\x` and two
//! digits, as where a script prints it: it prints what the script does, and then `done`, or the number of the line that ended it and why it
//! was refused. `comment N` runs a comment of N bytes in the same way.
use crate::fault::Fault;
use dia_base::MessageForm;
use dia_codec::Counted;
use op_tables::Tables;
use pcrf_world::words::{Further, number, one};
use pcrf_world::{ScriptEnd, ScriptRun, read_bytes, run_told};
use std::alloc::{AllocError, Global};
use std::fmt::Write as _;

/// Runs a script, adds what it prints, and answers how it ended.
fn put_run(
    alloc: Global,
    tables: Tables,
    script: &[u8],
    out: &mut String,
) -> Result<ScriptRun, Fault> {
    let mut printed = Vec::new(alloc);
    let ran = {
        let mut reader = Counted::start(script);
        let mut writer = Counted::start(&mut printed);
        run_told(alloc, tables, MessageForm::Own, &mut reader, &mut writer)
    };
    match std::str::from_utf8(printed.as_slice()) {
        Ok(text) => out.push_str(text)?,
        Err(_) => return Err(Fault::NoEnd),
    }
    Ok(ran)
}

/// Runs a script that ends well, and adds what it prints.
pub fn put_script(
    alloc: Global,
    tables: Tables,
    script: &[u8],
    out: &mut String,
) -> Result<(), Fault> {
    match put_run(alloc, tables, script, out)?.end {
        ScriptEnd::Done => Ok(()),
        _ => Err(Fault::NoEnd),
    }
}

/// Runs a script, and adds what it prints and how it ends.
fn put_ended(alloc: Global, tables: &Tables, script: &[u8], out: &mut String) -> Result<(), Fault> {
    let ran = put_run(alloc, tables.try_copy(alloc)?, script, out)?;
    put_end(out, ran)?;
    Ok(())
}

/// Adds how a script ended.
fn put_end(out: &mut String, ran: ScriptRun) -> Result<(), AllocError> {
    match (ran.end, ran.refused) {
        (ScriptEnd::Done, None) => out.push_str("done\n"),
        (ScriptEnd::BadLine(line), Some(why)) => writeln!(out, "line {line}: {why}"),
        _ => out.push_str("otherwise\n"),
    }
}

/// The bytes of the text behind a line's first word.
fn script_of(alloc: Global, line: &str) -> Result<Vec<u8>, Fault> {
    let mut script = Vec::new(alloc);
    for (place, word) in line.split(' ').skip(1).enumerate() {
        if place > 0 {
            script.push(b' ')?;
        }
        let Some(bytes) = read_bytes(alloc, word)? else {
            return Err(Fault::NoValue);
        };
        script.extend_from_slice(bytes.as_slice())?;
    }
    Ok(script)
}

/// Runs the script of a line, and adds what it prints and how it ends.
pub fn put_lines(
    alloc: Global,
    tables: &Tables,
    line: &str,
    out: &mut String,
) -> Result<(), Fault> {
    let script = script_of(alloc, line)?;
    put_ended(alloc, tables, script.as_slice(), out)
}

/// Runs a comment of so many bytes, and adds how it ends.
pub fn put_comment(
    alloc: Global,
    tables: &Tables,
    further: Further<'_>,
    out: &mut String,
) -> Result<(), Fault> {
    let mut script = Vec::new(alloc);
    for _ in 0..number(one(further)?)? {
        script.push(b'#')?;
    }
    put_ended(alloc, tables, script.as_slice(), out)
}
