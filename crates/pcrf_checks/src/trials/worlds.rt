//! Scripts of worlds, whose output is printed, and their events: each happens in a world that may be refused memory, and a sound one.
use crate::makers::Answer;
use crate::trials::answers::{gives, gives_all, taken};
use crate::trials::equality::{same_but, same_worlds};
use crate::trials::events::{event_of, events_of};
use crate::trials::given::Given;
use dia_codec::Counted;
use op_tables::Tables;
use pcrf_world::{ScriptEnd, World, WorldEvent, run_script};
use std::alloc::Global;
use std::io::Print;

/// The most bytes that a script may print.
const ROOM: usize = 1 << 16;

/// How many sites each world has.
const SITES: u8 = 3;

/// Runs a script, and adds what it writes.
fn run(alloc: Global, tables: Tables, script: &str, written: &mut Vec<u8>) -> ScriptEnd {
    let mut reader = Counted::start(script.as_bytes());
    let mut writer = Counted::start(written);
    run_script(alloc, tables, &mut reader, &mut writer)
}

impl<R: Print> Given<'_, R> {
    /// Runs a script, in room that is made before: what it writes, and whether memory was refused.
    fn write(&self, script: &str) -> Option<(Vec<u8>, bool)> {
        let mut written = Vec::with_capacity(self.alloc, ROOM).ok()?;
        let tables = self.tables()?;
        self.begin("run_script", "a script");
        let end_of_run = run(self.alloc, tables, script, &mut written);
        let is_refused = end_of_run == ScriptEnd::NoMemory;
        self.end(is_refused);
        self.judge(Some(is_refused || end_of_run == ScriptEnd::Done));
        Some((written, is_refused))
    }

    /// Tries to run a script. What it wrote where memory was refused is a part of what it writes.
    pub fn try_script(&self, script: &str) -> Option<bool> {
        let (first, is_refused) = self.write(script)?;
        if !is_refused {
            return Some(self.rt.write_all(first.as_slice()).is_ok());
        }
        let (written, _) = self.write(script)?;
        let is_part = written.as_slice().starts_with(first.as_slice());
        Some(self.rt.write_all(written.as_slice()).is_ok() && is_part)
    }

    /// A world in which nothing happened.
    fn world(&self) -> Option<World> {
        World::start(self.alloc, self.tables()?, SITES).ok()
    }

    /// Has an event happen; whether it was refused: then all is as it was, but for the operations that stand.
    fn step(&self, world: &mut World, sound: &mut World, event: &WorldEvent, what: &str) -> bool {
        self.begin("World::step", what);
        let answer = world.step(event);
        let refused = taken(&answer);
        self.end(refused.is_some());
        self.judge(match refused {
            Some(taken) => same_but(self.alloc, world, sound, SITES, event, taken),
            None => gives(self.alloc, sound, event, &answer),
        });
        drop(answer);
        refused.is_some()
    }

    /// Has the events of lines happen one after the other, each of which is tried.
    fn obey(&self, world: &mut World, sound: &mut World, what: &str, lines: &str) {
        for line in lines.lines() {
            if let Some(event) = event_of(self.alloc, line) {
                if self.step(world, sound, &event, what) {
                    self.step(world, sound, &event, what);
                    self.judge(same_worlds(self.alloc, world, sound, SITES));
                }
                drop(event);
            }
        }
    }

    /// Tries each event of a script, under the comment before it. All is the same then in both worlds.
    pub fn try_events(&self, script: &str) -> Option<bool> {
        let (mut world, mut sound) = (self.world()?, self.world()?);
        for part in script.split("# ").skip(1) {
            let (what, lines) = part.split_once('\n').unwrap_or((part, ""));
            self.obey(&mut world, &mut sound, what, lines);
        }
        same_worlds(self.alloc, &world, &sound, SITES)
    }

    /// Runs events; whether none of that was refused. The world is then what the others make.
    fn run(&self, events: &[WorldEvent]) -> Option<bool> {
        let (mut sound, tables) = (self.world()?, self.tables()?);
        self.begin("World::run", "the events of a script");
        let Ok((world, answers)) = World::run(self.alloc, tables, SITES, events) else {
            self.end(true);
            return Some(false);
        };
        let is_refused = answers.iter().any(|one: &Answer| taken(one).is_some());
        self.end(is_refused);
        self.judge(gives_all(self.alloc, &mut sound, events, answers.as_slice()));
        self.judge(same_worlds(self.alloc, &world, &sound, SITES));
        Some(!is_refused)
    }

    /// Tries to run the events of a script.
    pub fn try_run(&self, script: &str) -> Option<bool> {
        let events = events_of(self.alloc, script)?;
        Some(self.run(events.as_slice())? || self.run(events.as_slice())?)
    }

    /// Tries each script: to run it, each of its events, and to run the events of those in which a site starts again.
    pub fn try_scripts(&self) -> Option<bool> {
        for part in self.scripts.as_str().split("\nsites ").skip(1) {
            let script = format!(in self.alloc; "sites {part}\n").ok()?;
            self.judge(self.try_script(script.as_str()));
            self.judge(self.try_events(script.as_str()));
            if part.contains("\nrestart ") {
                self.judge(self.try_run(script.as_str()));
            }
        }
        Some(true)
    }
}
