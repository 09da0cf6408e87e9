//! Cases that lines hold, with what comes of each.
//!
//! The lines are those of a script of a world (docs/SCRIPTS.md), read and obeyed by the same parts as those of `pcrf world`, with
//! the tables of the file for calls; and questions, whose words are read in the same way (`questions`). An empty line ends a case:
//! behind it no world stands. Lines of standard input that begin with `> ` are what was printed by the line before them when it was
//! written: they are passed over. Every other line is written again, and behind it what it prints, in lines that begin with `> `.
//! So the input has its answers in it, where a person reads them, and what is written has to be the input again. The answers come
//! from the definitions, the profile and the plain model in `oracle/`, not from the program.
mod carried;
mod failed;
mod letters;
mod passes;
mod questions;
mod replays;
mod scripts;
mod streams;
mod tables;
mod worlds;

use crate::fault::Fault;
use crate::host::Host;
use crate::makers::{TABLES, tables_of};
use dia_base::MessageForm;
use op_tables::Tables;
use pcrf_world::Console;
use pcrf_world::words::{Further, two, words_of};
use std::alloc::Global;

/// The tables with which lines are obeyed, and the world that they started.
#[derive(Drop)]
pub struct Cases {
    tables: Tables,
    console: Console,
}

/// No world yet.
fn new_console(alloc: Global, tables: &Tables) -> Result<Console, Fault> {
    let tables = tables.try_copy(alloc)?;
    Ok(Console::start(alloc, tables, MessageForm::Own))
}

/// Obeys a line that names two files: operator tables, and what is asked with them.
fn put_files(
    rt: &impl Host,
    first: &str,
    further: Further<'_>,
    out: &mut String,
) -> Result<(), Fault> {
    let (tables, file) = two(further)?;
    let tables = tables_of(rt, tables)?;
    let file = rt.text_of(file)?;
    match first {
        "script" => scripts::put_script(rt.alloc(), tables, file.as_str().as_bytes(), out),
        "worlds" => worlds::put_worlds(rt.alloc(), &tables, file.as_str(), out),
        _ => streams::put_streams(rt.alloc(), &tables, file.as_str(), out),
    }
}

impl Cases {
    /// The tables of the file for calls, and no world.
    pub fn start(rt: &impl Host) -> Result<Cases, Fault> {
        let tables = tables_of(rt, TABLES)?;
        let console = new_console(rt.alloc(), &tables)?;
        Ok(Cases { tables, console })
    }

    /// Forgets the world.
    fn start_again(&mut self, alloc: Global) -> Result<(), Fault> {
        self.console = new_console(alloc, &self.tables)?;
        Ok(())
    }

    /// Obeys a line, and adds what it prints.
    fn obey(&mut self, rt: &impl Host, line: &str, out: &mut String) -> Result<(), Fault> {
        let alloc = rt.alloc();
        let (first, further) = words_of(line);
        match first {
            "" => self.start_again(alloc),
            "script" | "worlds" | "streams" => put_files(rt, first, further, out),
            "lines" => scripts::put_lines(alloc, &self.tables, line, out),
            "comment" => scripts::put_comment(alloc, &self.tables, further, out),
            "failed" => failed::put_failed(alloc, further, out),
            "read" | "text" => tables::put_read(rt, line, out),
            "cut" | "random" | "changes" => letters::put_said(alloc, first, further, out),
            _ => questions::put_asked(alloc, &mut self.console, line, out),
        }
    }
    /// Writes a line, and what it prints, where it isn't what an earlier one printed.
    pub fn take(&mut self, rt: &impl Host, line: &str) -> Result<(), Fault> {
        if line.starts_with("> ") {
            return Ok(());
        }
        println!(rt; "{line}")?;
        let mut out = String::new(rt.alloc());
        self.obey(rt, line, &mut out)?;
        for printed in out.lines() {
            println!(rt; "> {printed}")?;
        }
        Ok(())
    }
}
