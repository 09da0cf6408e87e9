//! The world of a script, which its lines start and change.
use crate::fault::{BadLine, Unobeyed};
use crate::lines::{Line, SiteCount, read_line};
use crate::messages::put_stream;
use crate::printing::put_outcome;
use crate::world::{World, WorldEvent};
use dia_base::MessageForm;
use dia_codec::{LineFault, Obey};
use indexed_state::put_value;
use op_tables::Tables;
use std::alloc::Global;

/// A world that a line starts, and that further lines change and show.
#[derive(Drop)]
pub struct Console {
    alloc: Global,
    tables: Tables,
    form: MessageForm,
    world: Option<World>,
    refused: Option<BadLine>,
}

impl Obey for Console {
    fn obey(&mut self, line: &[u8], out: &mut String) -> Result<(), LineFault> {
        match self.obey_bytes(line, out) {
            Ok(()) => Ok(()),
            Err(fault) => {
                self.refused = fault.reason();
                Err(LineFault::from(fault))
            }
        }
    }
}

/// Has an event happen in a world, and prints its answer.
fn step(world: &mut World, event: &WorldEvent, out: &mut String) -> Result<(), Unobeyed> {
    let answer = world.step(event);
    let printed = put_outcome(out, event, &answer);
    drop(answer);
    Ok(printed?)
}

impl Console {
    /// No world yet; its sites will have these tables, and answer in this form.
    pub fn start(alloc: Global, tables: Tables, form: MessageForm) -> Console {
        Console {
            alloc,
            tables,
            form,
            world: None,
            refused: None,
        }
    }

    /// Why the line that it was given last was refused, if it was.
    pub fn refused(&self) -> Option<BadLine> {
        self.refused
    }

    /// The world, once a line started it.
    pub fn world_mut(&mut self) -> Option<&mut World> {
        self.world.as_mut()
    }

    /// Reads a line, and does what it asks for.
    fn obey_bytes(&mut self, line: &[u8], out: &mut String) -> Result<(), Unobeyed> {
        let line = read_line(self.alloc, line)?;
        let obeyed = self.obey_line(&line, out);
        drop(line);
        obeyed
    }

    /// Does what a line asks for.
    fn obey_line(&mut self, line: &Line, out: &mut String) -> Result<(), Unobeyed> {
        match line {
            Line::Nothing => Ok(()),
            Line::Sites(n) => self.start_world(*n, out),
            Line::Message(i, bytes) => self.give(*i, bytes.as_slice(), out),
            Line::Show(i) => self.show(*i, out),
            _ => self.happen(line.event()?, out),
        }
    }

    /// Starts the world, which only one line may do.
    fn start_world(&mut self, count: SiteCount, out: &mut String) -> Result<(), Unobeyed> {
        if self.world.is_some() {
            return Err(Unobeyed::Bad(BadLine::SecondWorld));
        }
        let tables = self.tables.try_copy(self.alloc)?;
        let n = count.get() as u8;
        let world = World::start(self.alloc, tables, n)?;
        drop(self.world.replace(world));
        Ok(writeln!(out, "sites {n}")?)
    }

    /// Gives a site the bytes of a stream.
    fn give(&mut self, i: usize, bytes: &[u8], out: &mut String) -> Result<(), Unobeyed> {
        let Some(world) = self.world.take() else {
            return Err(Unobeyed::Bad(BadLine::NoWorld));
        };
        let (world, put) = put_stream(self.alloc, world, i, self.form, bytes, out);
        self.world = Some(world);
        put
    }

    /// Has an event happen, if there is one.
    fn happen(&mut self, event: Option<WorldEvent>, out: &mut String) -> Result<(), Unobeyed> {
        let Some(event) = event else {
            return Ok(());
        };
        let happened = match &mut self.world {
            Some(world) => step(world, &event, out),
            None => Err(Unobeyed::Bad(BadLine::NoWorld)),
        };
        drop(event);
        happened
    }

    /// Shows a site.
    fn show(&mut self, i: usize, out: &mut String) -> Result<(), Unobeyed> {
        let Some(world) = &self.world else {
            return Err(Unobeyed::Bad(BadLine::NoWorld));
        };
        let Some(site) = world.site(i) else {
            return Ok(out.push_str("refused NoSuchSite\n")?);
        };
        let value = site.value()?;
        let put = put_value(out, &value);
        drop(value);
        Ok(put?)
    }
}
