//! What lines are obeyed with: the operator tables, a site, a state, the block of messages or letters, and the figures.
use crate::fault::{Fault, Unmeasured};
use crate::host::Host;
use crate::makers::new_site;
use crate::measures::book::{Load, measure_threads, time_steps};
use crate::measures::figures::Figures;
use crate::measures::listings::count_listings;
use crate::measures::living::measure_living;
use crate::measures::pushes::{measure_whole, time_pushes};
use crate::measures::states::{
    count_sessions, letter_of, measure_carrying, measure_taking, operations_of, time_merge,
};
use crate::measures::streams::{events_of, measure_parts, time_reading, time_stream};
use crate::measures::words::{choice_before, number_before, word_before};
use crate::measures::{records, renewals, tables};
use op_tables::read_tables;
use pcrf_world::words::bytes;
use site_core::{Event, Site};
use site_join::State;
use std::alloc::Global;
use std::time::Duration;

/// A site that took the whole state of another.
fn site_like(alloc: Global, site: &Site) -> Result<Site, Fault> {
    let mut like = new_site(alloc, site.tables())?;
    match like.take_state(site.sessions()) {
        Ok(()) => Ok(like),
        Err(refused) => {
            drop(like);
            Err(Fault::from(refused))
        }
    }
}

/// What lines are obeyed with.
#[derive(Drop)]
pub struct Bench {
    alloc: Global,
    /// The text of the operator tables.
    text: String,
    /// The messages or letters of the last block, as bytes.
    block: Vec<Vec<u8>>,
    /// Whether the last line was of that block.
    is_open: bool,
    figures: Figures,
    state: State,
    site: Site,
}

impl Bench {
    /// A site with the operator tables of a text, and a state, which hold nothing.
    pub fn start(alloc: Global, text: String, is_timed: bool) -> Result<Bench, Fault> {
        let tables = read_tables(alloc, text.as_str())?;
        let site = new_site(alloc, &tables)?;
        Ok(Bench {
            alloc,
            text,
            block: Vec::new(alloc),
            is_open: false,
            figures: Figures::start(alloc, is_timed),
            state: State::start(alloc),
            site,
        })
    }

    /// Adds the bytes of a line to the block, or begins another.
    fn add(&mut self, digits: &str) -> Result<(), Fault> {
        let message = if digits == "-" {
            Vec::new(self.alloc)
        } else {
            bytes(self.alloc, digits)?
        };
        if !self.is_open {
            self.block = Vec::new(self.alloc);
            self.is_open = true;
        }
        self.block.push(message)?;
        Ok(())
    }

    /// The site answers the messages as one stream.
    fn ask(&mut self, rt: &impl Host, name: &str) -> Result<(), Fault> {
        let time = time_stream(rt, &mut self.site, self.block.as_slice())?;
        self.figures.add(name, self.block.len(), time)
    }

    /// The site answers each message.
    fn part(&mut self, rt: &impl Host, name: &str) -> Result<(), Fault> {
        let (site, messages) = (&mut self.site, self.block.as_slice());
        measure_parts(rt, site, messages, name, &mut self.figures)
    }

    /// The messages are read so often.
    fn read(&mut self, rt: &impl Host, rounds: u32, name: &str) -> Result<(), Fault> {
        let time = time_reading(rt, self.block.as_slice(), rounds)?;
        let count = self.block.len().saturating_mul(rounds as usize);
        self.figures.add(name, count, time)
    }

    /// The site makes pushes.
    fn push(&mut self, rt: &impl Host, words: &str) -> Result<(), Fault> {
        let (host, words) = word_before(words)?;
        let (count, words) = number_before(words)?;
        let (is_due, name) = choice_before(words, "due", "none")?;
        let time = time_pushes(rt, &mut self.site, host, count, is_due)?;
        self.figures.add(name, count as usize, time)
    }

    /// Another site takes the whole state of the site.
    fn take_whole(&mut self, rt: &impl Host, words: &str) -> Result<(), Fault> {
        let (host, name) = word_before(words)?;
        let mut other = new_site(self.alloc, self.site.tables())?;
        let state = self.site.sessions();
        let measured = measure_whole(rt, &mut other, state, host, name, &mut self.figures);
        drop(other);
        measured
    }

    /// The rules of all sessions of the site are made.
    fn renew(&mut self, rt: &impl Host, name: &str) -> Result<(), Fault> {
        renewals::measure(rt, &mut self.site, name, &mut self.figures)
    }

    /// A site like this one takes the events so often.
    fn step_events(
        &mut self,
        rt: &impl Host,
        events: &[Event],
        rounds: u32,
        name: &str,
    ) -> Result<(), Fault> {
        let mut like = site_like(self.alloc, &self.site)?;
        let stepped = time_steps(rt, &mut like, events, rounds);
        drop(like);
        let (count, time) = stepped?;
        self.figures.add(name, count, time)
    }

    /// A site like this one takes the messages so often.
    fn step(&mut self, rt: &impl Host, rounds: u32, name: &str) -> Result<(), Fault> {
        let events = events_of(self.alloc, self.block.as_slice())?;
        let stepped = self.step_events(rt, events.as_slice(), rounds, name);
        drop(events);
        stepped
    }

    /// A site like this one that lives takes the events so often.
    fn live_events(
        &mut self,
        rt: &impl Host,
        events: &[Event],
        rounds: u32,
        name: &str,
    ) -> Result<(), Fault> {
        let like = site_like(self.alloc, &self.site)?;
        measure_living(rt, like, events, rounds, name, &mut self.figures)
    }

    /// A site like this one that lives takes the messages so often.
    fn live(&mut self, rt: &impl Host, rounds: u32, name: &str) -> Result<(), Fault> {
        let events = events_of(self.alloc, self.block.as_slice())?;
        let lived = self.live_events(rt, events.as_slice(), rounds, name);
        drop(events);
        lived
    }

    /// A locked site like this one takes the events.
    fn call_events(
        &mut self,
        rt: &impl Host,
        events: &[Event],
        load: Load,
        name: &str,
    ) -> Result<(), Fault> {
        let like = site_like(self.alloc, &self.site)?;
        measure_threads(rt, like, events, load, name, &mut self.figures)
    }

    /// A locked site like this one takes the messages, by so many threads.
    fn call(&mut self, rt: &impl Host, threads: u32, words: &str) -> Result<(), Fault> {
        let (rounds, words) = number_before(words)?;
        let (is_settled, name) = choice_before(words, "settled", "left")?;
        let load = Load {
            threads: threads as usize,
            rounds,
            is_settled,
        };
        let events = events_of(self.alloc, self.block.as_slice())?;
        let called = self.call_events(rt, events.as_slice(), load, name);
        drop(events);
        called
    }

    /// The whole state of the site, which is to be taken, or the question for one.
    fn passed(&self, is_taken: bool) -> Result<Event, Fault> {
        if !is_taken {
            return Ok(Event::AskWhole);
        }
        let (state, _) = self.site.whole()?;
        Ok(Event::Whole(state))
    }

    /// A site of a kind like this one takes the events so often.
    fn pass_events(
        &mut self,
        rt: &impl Host,
        kind: &str,
        events: &[Event],
        rounds: u32,
        name: &str,
    ) -> Result<(), Fault> {
        let load = Load {
            threads: 1,
            rounds,
            is_settled: false,
        };
        match kind {
            "bare" => self.step_events(rt, events, rounds, name),
            "locked" => self.call_events(rt, events, load, name),
            "living" => self.live_events(rt, events, rounds, name),
            _ => Err(Fault::Unmeasured(Unmeasured::NoSuchSite)),
        }
    }

    /// A site of a kind like this one takes the whole state of the site, or tells its own.
    fn pass(&mut self, rt: &impl Host, words: &str) -> Result<(), Fault> {
        let (kind, words) = word_before(words)?;
        let (is_taken, words) = choice_before(words, "taken", "told")?;
        let (rounds, name) = number_before(words)?;
        let mut events = Vec::new(self.alloc);
        events.push(self.passed(is_taken)?)?;
        let passed = self.pass_events(rt, kind, events.as_slice(), rounds, name);
        drop(events);
        passed
    }

    /// The edition of the operator tables.
    fn edition(&self) -> u32 {
        self.site.tables().edition()
    }

    /// The state, or the site, takes the operations of the letters.
    fn take(&mut self, rt: &impl Host, words: &str) -> Result<(), Fault> {
        let (is_state, name) = choice_before(words, "state", "site")?;
        let edition = self.edition();
        let letters = self.block.as_slice();
        if is_state {
            measure_taking(
                rt,
                &mut self.state,
                letters,
                edition,
                name,
                &mut self.figures,
            )
        } else {
            measure_taking(
                rt,
                &mut self.site,
                letters,
                edition,
                name,
                &mut self.figures,
            )
        }
    }

    /// The state is merged with an equal one.
    fn merge(&mut self, rt: &impl Host, name: &str) -> Result<(), Fault> {
        let time = time_merge(rt, &self.state)?;
        self.figures.add(name, count_sessions(&self.state), time)
    }

    /// The state is copied, and carried by a letter.
    fn carry(&mut self, rt: &impl Host, name: &str) -> Result<(), Fault> {
        let edition = self.edition();
        let bytes = measure_carrying(rt, &self.state, edition, name, &mut self.figures)?;
        Ok(println!(rt; "{name}: {bytes} bytes")?)
    }

    /// Records of the facts of two operations are made and joined so often.
    fn record(&mut self, rt: &impl Host, rounds: u32, name: &str) -> Result<(), Fault> {
        let Some(frame) = self.block.first() else {
            return Err(Fault::Unmeasured(Unmeasured::NoLetter));
        };
        let letter = letter_of(self.alloc, frame.as_slice(), self.edition())?;
        let measured = match operations_of(&letter) {
            Ok(operations) => records::measure(rt, operations, rounds, name, &mut self.figures),
            Err(fault) => Err(fault),
        };
        drop(letter);
        measured
    }

    /// The operator tables are read and copied so often.
    fn read_tables(&mut self, rt: &impl Host, rounds: u32, name: &str) -> Result<(), Fault> {
        let read = tables::time_reading(rt, self.text.as_str(), rounds)?;
        let copied = tables::time_copying(rt, self.site.tables(), rounds)?;
        println!(rt; "{name}: {} bytes", self.text.len())?;
        self.figures.add_part(name, "read", rounds as usize, read)?;
        self.figures
            .add_part(name, "copied", rounds as usize, copied)
    }

    /// Access points are looked up so often.
    fn look(&mut self, rt: &impl Host, rounds: u32, names: &str) -> Result<(), Fault> {
        let (count, time) = tables::time_look_ups(rt, self.site.tables(), names, rounds)?;
        let times = count.saturating_mul(rounds as usize);
        self.figures.add("looked up", times, time)
    }

    /// The listings of the site's index under so many addresses and subscribers are counted.
    fn list(&mut self, places: u32, name: &str) -> Result<(), Fault> {
        let count = count_listings(self.alloc, &self.site, places)?;
        self.figures.add(name, count, Duration::ZERO)
    }

    /// Prints a heading, and the figures.
    fn print(&mut self, rt: &impl Host, heading: &str) -> Result<(), Fault> {
        println!(rt; "{heading}")?;
        self.figures.print(rt)
    }

    /// Does with a number what a verb says.
    fn count(&mut self, rt: &impl Host, verb: &str, words: &str) -> Result<(), Fault> {
        let (count, words) = number_before(words)?;
        match verb {
            "calls" => self.call(rt, count, words),
            "listed" => self.list(count, words),
            "living" => self.live(rt, count, words),
            "look" => self.look(rt, count, words),
            "read" => self.read(rt, count, words),
            "records" => self.record(rt, count, words),
            "steps" => self.step(rt, count, words),
            "tables" => self.read_tables(rt, count, words),
            _ => Err(Fault::Unmeasured(Unmeasured::NoSuchVerb)),
        }
    }

    /// Does what a verb says.
    fn act(&mut self, rt: &impl Host, verb: &str, words: &str) -> Result<(), Fault> {
        self.is_open = false;
        match verb {
            "#" => Ok(()),
            "ask" => self.ask(rt, words),
            "carry" => self.carry(rt, words),
            "merge" => self.merge(rt, words),
            "part" => self.part(rt, words),
            "pass" => self.pass(rt, words),
            "print" => self.print(rt, words),
            "push" => self.push(rt, words),
            "renew" => self.renew(rt, words),
            "take" => self.take(rt, words),
            "whole" => self.take_whole(rt, words),
            _ => self.count(rt, verb, words),
        }
    }

    /// The site or the state forgets all, or the block has one message more.
    fn obey_word(&mut self, word: &str) -> Result<(), Fault> {
        match word {
            "site" => self.site.clear(),
            "state" => self.state = State::start(self.alloc),
            _ => self.add(word)?,
        }
        Ok(())
    }

    /// Obeys a line.
    pub fn obey(&mut self, rt: &impl Host, line: &str) -> Result<(), Fault> {
        match line.split_once(' ') {
            Some((verb, words)) => self.act(rt, verb, words),
            None => self.obey_word(line),
        }
    }
}
