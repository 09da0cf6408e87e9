//! Figures: how often what a name says was done, and how long that took in all.
use crate::fault::Fault;
use std::alloc::Global;
use std::io::{self, Print};
use std::time::Duration;

/// The name of what makes no figure.
const UNNAMED: &str = "-";

/// What was done so often, in so long a time.
#[derive(Drop)]
struct Figure {
    name: String,
    count: usize,
    time: Duration,
}

/// The figures of what was done, in the order in which each was first done.
#[derive(Drop)]
pub struct Figures {
    alloc: Global,
    list: Vec<Figure>,
    is_timed: bool,
}

/// Prints a figure: the microseconds of each time, and how many times a second come to.
fn print_one(rt: &impl Print, figure: &Figure, is_timed: bool) -> io::Result<()> {
    let Figure { name, count, time } = figure;
    if !is_timed {
        return println!(rt; "{name}: {count}");
    }
    let (count, nanoseconds) = (*count as u128, time.as_nanos());
    let each = nanoseconds / count.max(1);
    let rate = count * 1_000_000_000 / nanoseconds.max(1);
    println!(rt;
        "{name}: {count}: {}.{:03} microseconds, {rate} a second",
        each / 1000,
        each % 1000
    )
}

impl Figures {
    /// No figures, which will tell times or won't.
    pub fn start(alloc: Global, is_timed: bool) -> Figures {
        Figures {
            alloc,
            list: Vec::new(alloc),
            is_timed,
        }
    }

    /// Adds what was done so often in so long a time to the figure of its name.
    pub fn add(&mut self, name: &str, count: usize, time: Duration) -> Result<(), Fault> {
        if name == UNNAMED {
            return Ok(());
        }
        for figure in self.list.iter_mut() {
            if figure.name.as_str() == name {
                figure.count = figure.count.saturating_add(count);
                figure.time = figure.time.saturating_add(time);
                return Ok(());
            }
        }
        let name = String::from_str(self.alloc, name)?;
        self.list.push(Figure { name, count, time })?;
        Ok(())
    }

    /// Adds to the figure of a part of what a name says.
    pub fn add_part(
        &mut self,
        name: &str,
        part: &str,
        count: usize,
        time: Duration,
    ) -> Result<(), Fault> {
        if name == UNNAMED {
            return Ok(());
        }
        let name = format!(in self.alloc; "{name}, {part}")?;
        self.add(name.as_str(), count, time)
    }

    /// Prints the figures, and forgets them.
    pub fn print(&mut self, rt: &impl Print) -> Result<(), Fault> {
        for figure in self.list.iter() {
            print_one(rt, figure, self.is_timed)?;
        }
        self.list = Vec::new(self.alloc);
        Ok(())
    }
}
