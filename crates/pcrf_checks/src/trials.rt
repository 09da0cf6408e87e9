//! Tries the calls that allocate, where one allocation may be refused (`.ci/refused-memory`): what is refused leaves all that it was
//! made of as it was, and, made again, gives what it has to give.
mod answers;
mod connections;
mod equality;
mod events;
mod given;
mod rules;
mod seats;
mod values;
mod worlds;

use crate::fault::Fault;
use crate::host::Host;
use crate::makers::TABLES;
use crate::trials::given::Given;
use op_tables::{TableFault, read_tables};
use std::io::Print;
use std::marker::Brand;
use std::sync::Wait;
use std::sync::ledger::Blank;
use std::thread::Threads;

/// Tries all calls.
fn try_calls<R: Threads + Wait + Sync + Print>(given: &Given<'_, R>) {
    given.judge(given.try_scripts());
    given.judge(given.try_text("short"));
    given.judge(given.try_text("long"));
    given.judge(given.try_merge());
    given.judge(given.try_letter("end"));
    given.judge(given.try_letter("snapshot"));
    if let Some(mut site) = given.loaded() {
        given.judge(given.try_rules(&mut site));
    }
    given.judge(given.try_seats::<Brand>(false, Blank::new(1)));
    given.judge(given.try_seats::<Brand>(true, Blank::new(1)));
}

impl<R: Print> Given<'_, R> {
    /// Reads the operator tables once more, which are used from then on; whether that was done.
    fn read_again(&mut self, text: &str) -> bool {
        self.begin("read_tables", "the tables of a network with calls");
        let read = read_tables(self.alloc, text);
        self.end(read.is_err());
        self.judge(Some(!matches!(&read, Err(fault) if *fault != TableFault::NoMemory)));
        let Ok(tables) = read else {
            return false;
        };
        self.tables = tables;
        true
    }
}

/// What the trials are given.
fn read_given<R: Host>(rt: &R) -> Result<Given<'_, R>, Fault> {
    let text = rt.text_of(TABLES)?;
    let mut given = Given {
        rt,
        alloc: rt.alloc(),
        tables: read_tables(rt.alloc(), text.as_str())?,
        lines: rt.text_of("trials.lines")?,
        scripts: rt.text_of("rows.scripts")?,
    };
    let _ = given.read_again(text.as_str()) || given.read_again(text.as_str());
    Ok(given)
}

/// Tries all calls, with what the files say.
pub fn try_all(rt: &impl Host) -> Result<(), Fault> {
    let given = read_given(rt)?;
    try_calls(&given);
    drop(given);
    Ok(())
}
