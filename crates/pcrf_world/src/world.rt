//! A world of sites, which serve requests, push, abort sessions, retell them, make letters and take them.
ghost use Rattle.std.specs.Prelude.{◌≡◌, ◌<◌, ◌≤◌, ◌++◌, ◌∷◌, [], length, slice_get, IfOk, OnOk, OnErr, option_map};
ghost use Rattle.std.specs.Option.{option_copied};
ghost use Rattle.pcrf_model.specs.CursorLaws.{LeavesNoGap, MakersAreTaken, PeersTook};
ghost use Rattle.pcrf_model.specs.Worlds.{SiteView, start, world_view, after_all, GivesAll, HoldAlike};
ghost use Rattle.pcrf_values.specs.Limits.{site_limit};
ghost use Rattle.pcrf_world.specs.Happening.{HappensIn};
ghost use Rattle.pcrf_world.specs.Members.{site_seen};
ghost use Rattle.pcrf_world.specs.Values.{event_value, answer_value, events_value, answers_value, setting};

use crate::site::Member;
use op_tables::Tables;
use pcrf_model::PushOut;
use pcrf_values::{DiameterIdentity, GxSid};
use peer_exchange::{Cursors, Letter};
use rx_profile::AbortOut;
use site_machine::{Reply, Request, Site, StepFault};
use std::alloc::{AllocError, Global};
use std::marker::Model;
use thiserror::Error;

/// What may happen next. Sites are named by their numbers, and letters by theirs, both from 0.
#[derive(Debug, Drop)]
pub enum WorldEvent {
    /// A site serves a request.
    Serve(usize, Request),
    /// A site pushes what a gateway of this host, of any where none is given, was not told.
    Push(usize, Option<DiameterIdentity>),
    /// A site asks the application function of a session to which no gateway's session is bound any more to end it: one of
    /// this host, of any where none is given (TS 29.214, 4.4.6.1).
    Abort(usize, Option<DiameterIdentity>),
    /// A site counts what the gateway of this session was told as not there (TS 29.212, 4.5.2).
    Retell(usize, GxSid),
    /// The first site makes a letter for the second: all that it holds, or, where it knows what the second took of it, the
    /// operations that it made itself since.
    Letter(usize, usize),
    /// A site takes a letter.
    Merge(usize, usize),
    /// The first site makes a letter that tells the second what it took of it.
    Ack(usize, usize),
    /// A site starts again, empty.
    Restart(usize),
}

/// What an event gave.
#[derive(Debug, Drop)]
pub enum WorldOutcome {
    /// The site's reply.
    Replied(Reply),
    /// What was pushed; nothing where nothing was due.
    Pushed(Option<PushOut>),
    /// Which session was aborted; nothing where none was to be.
    Aborted(Option<AbortOut>),
    /// Whether what a gateway was told counts as not there now: not where nothing was to be done.
    Retold(bool),
    /// The number of the new letter.
    Lettered(usize),
    /// The letter was taken.
    Merged,
    /// The site began this epoch.
    Restarted(u16),
}

/// Why an event gave nothing.
#[derive(Clone, Copy, Debug, PartialEq, Eq, Error)]
pub enum WorldFault {
    #[error("there is no site of that number")]
    NoSuchSite,
    #[error("there is no letter of that number")]
    NoSuchLetter,
    #[error("the site is in its last epoch")]
    EpochFull,
    #[error("the site's clock is at its end")]
    ClockFull,
    /// Memory ran out; of the operations of a range so many stand taken, of a whole state none.
    #[error("no memory, with {taken} operations of the letter taken")]
    NoMemory {
        /// How many operations stand taken.
        taken: usize,
    },
}

/// Sites with the same operator tables, and the letters that they made.
#[derive(Drop)]
pub struct World {
    alloc: Global,
    tables: Tables,
    sites: Vec<Member>,
    letters: Vec<Letter>,
}

impl Model for World {
    ghost use Rattle.std.specs.Prelude.{map};
    ghost use Rattle.pcrf_world.specs.Members.{AreSites, seen_of};
    ghost use Rattle.pcrf_world.specs.Values.{WorldValue};

    ghost Value = { WorldValue };

    ghost view = { λ w. record {
      tables = w.tables;
      seen = record { sites = map seen_of w.sites.items; letters = w.letters.items };
    } };

    ghost invariant = { λ w. AreSites w.tables w.sites.items };
}

impl World {
    /// Sites 0 to n - 1, each of which took nothing, and no letter.
    pub fn start(alloc: Global, tables: Tables, n: u8) -> Result<World, AllocError>
        requires some { 0 < n }
        requires within { n ≤ site_limit }
        ensures tables { IfOk result (λ world. world.tables ≡ tables) }
        ensures seen { IfOk result (λ world. world.seen ≡ world_view (start n)) }
    {
        let mut sites = Vec::new(alloc);
        for number in 0..n {
            let tables = tables.try_copy(alloc)?;
            sites.push(Member::start(alloc, tables, number)?)?;
        }
        Ok(World {
            alloc,
            tables,
            sites,
            letters: Vec::new(alloc),
        })
    }

    /// The site of a number.
    pub fn site(&self, i: usize) -> Option<&Site>
        ensures { option_copied result
            ≡ option_map (site_seen self.now.tables) (slice_get self.now.seen.sites i) }
    {
        match self.sites.get(i) {
            Some(member) => Some(&member.site),
            None => None,
        }
    }

    /// What the site of a number took of each maker, and what each peer said that it took of the site.
    pub fn cursors(&self, i: usize) -> Option<&Cursors>
        ensures { option_copied result
            ≡ option_map (λ (s : SiteView). s.cursors) (slice_get self.now.seen.sites i) }
    {
        match self.sites.get(i) {
            Some(member) => Some(&member.cursors),
            None => None,
        }
    }

    /// The letter of a number.
    pub fn letter(&self, k: usize) -> Option<&Letter>
        ensures { option_copied result ≡ slice_get self.now.seen.letters k }
    {
        self.letters.get(k)
    }

    /// The operator tables of all sites.
    pub fn tables(&self) -> &Tables
        ensures { result.now ≡ self.now.tables }
    {
        &self.tables
    }

    /// Keeps a letter that came from elsewhere among the world's, and tells its number; a refusal changes nothing.
    pub fn post(&mut self, letter: Letter) -> Result<usize, AllocError>
        ensures number { IfOk result (λ k. k ≡ length self.old.seen.letters) }
        ensures kept { OnOk result
            (self.new.seen.letters ≡ self.old.seen.letters ++ letter ∷ []) }
        ensures sites { self.new.seen.sites ≡ self.old.seen.sites }
        ensures tables { self.new.tables ≡ self.old.tables }
        ensures refused { OnErr result (self.new ≡ self.old) }
    {
        let k = self.letters.len();
        self.letters.push(letter)?;
        Ok(k)
    }

    /// Makes one event happen.
    pub fn step(&mut self, event: &WorldEvent) -> Result<WorldOutcome, WorldFault>
        ensures { HappensIn self.old self.new (event_value event.now) (answer_value result) }
    {
        match event {
            WorldEvent::Serve(i, request) => self.serve(*i, request),
            WorldEvent::Push(i, host) => self.push_at(*i, host),
            WorldEvent::Abort(i, host) => self.abort_at(*i, host),
            WorldEvent::Retell(i, session) => self.retell_at(*i, session),
            WorldEvent::Letter(i, j) => self.make_letter(*i, *j),
            WorldEvent::Merge(j, k) => self.take_letter(*j, *k),
            WorldEvent::Ack(j, i) => self.acknowledge(*j, *i),
            WorldEvent::Restart(i) => self.restart(*i),
        }
    }

    /// Has a site reply to a request, as the event of it does.
    pub fn serve(&mut self, i: usize, request: &Request) -> Result<WorldOutcome, WorldFault>
        ensures { HappensIn self.old self.new
            (event_value (WorldEvent.Serve i request.now)) (answer_value result) }
    {
        if i >= self.sites.len() {
            return Err(WorldFault::NoSuchSite);
        }
        let member = &mut self.sites[i];
        let Ok(reply) = member.site.serve(request) else {
            return Err(WorldFault::NoMemory { taken: 0 });
        };
        Ok(WorldOutcome::Replied(reply))
    }

    /// Has a site push.
    fn push_at(
        &mut self,
        i: usize,
        host: &Option<DiameterIdentity>,
    ) -> Result<WorldOutcome, WorldFault>
        ensures { HappensIn self.old self.new
            (event_value (WorldEvent.Push i host.now)) (answer_value result) }
    {
        if i >= self.sites.len() {
            return Err(WorldFault::NoSuchSite);
        }
        let name = host.as_ref().map(|host| host.as_slice());
        let member = &mut self.sites[i];
        match member.site.push(name) {
            Ok(push) => Ok(WorldOutcome::Pushed(push)),
            Err(StepFault::ClockFull) => Err(WorldFault::ClockFull),
            Err(StepFault::NoMemory) => Err(WorldFault::NoMemory { taken: 0 }),
            Err(StepFault::HistoryFull) => unreachable!(),
        }
    }

    /// Has a site abort a session.
    fn abort_at(
        &mut self,
        i: usize,
        host: &Option<DiameterIdentity>,
    ) -> Result<WorldOutcome, WorldFault>
        ensures { HappensIn self.old self.new
            (event_value (WorldEvent.Abort i host.now)) (answer_value result) }
    {
        if i >= self.sites.len() {
            return Err(WorldFault::NoSuchSite);
        }
        let name = host.as_ref().map(|host| host.as_slice());
        let member = &mut self.sites[i];
        match member.site.abort(name) {
            Ok(abort) => Ok(WorldOutcome::Aborted(abort)),
            Err(StepFault::ClockFull) => Err(WorldFault::ClockFull),
            Err(StepFault::NoMemory) => Err(WorldFault::NoMemory { taken: 0 }),
            Err(StepFault::HistoryFull) => unreachable!(),
        }
    }

    /// Has a site count what a gateway was told as not there.
    fn retell_at(&mut self, i: usize, session: &GxSid) -> Result<WorldOutcome, WorldFault>
        ensures { HappensIn self.old self.new
            (event_value (WorldEvent.Retell i session.now)) (answer_value result) }
    {
        if i >= self.sites.len() {
            return Err(WorldFault::NoSuchSite);
        }
        let member = &mut self.sites[i];
        match member.site.retell(session) {
            Ok(done) => Ok(WorldOutcome::Retold(done)),
            Err(StepFault::ClockFull) => Err(WorldFault::ClockFull),
            Err(StepFault::NoMemory) => Err(WorldFault::NoMemory { taken: 0 }),
            Err(StepFault::HistoryFull) => unreachable!(),
        }
    }

    /// Has the first site make a letter for the second.
    fn make_letter(&mut self, i: usize, j: usize) -> Result<WorldOutcome, WorldFault>
        ensures { HappensIn self.old self.new
            (event_value (WorldEvent.Letter i j)) (answer_value result) }
    {
        if i >= self.sites.len() || j >= self.sites.len() {
            return Err(WorldFault::NoSuchSite);
        }
        let k = self.letters.len();
        let Ok(letter) = self.sites[i].write(j as u8) else {
            return Err(WorldFault::NoMemory { taken: 0 });
        };
        match self.letters.push(letter) {
            Ok(()) => Ok(WorldOutcome::Lettered(k)),
            Err(_) => Err(WorldFault::NoMemory { taken: 0 }),
        }
    }

    /// Has a site take a letter.
    fn take_letter(&mut self, j: usize, k: usize) -> Result<WorldOutcome, WorldFault>
        ensures { HappensIn self.old self.new
            (event_value (WorldEvent.Merge j k)) (answer_value result) }
    {
        if j >= self.sites.len() {
            return Err(WorldFault::NoSuchSite);
        }
        if k >= self.letters.len() {
            return Err(WorldFault::NoSuchLetter);
        }
        let letter = &self.letters[k];
        let member = &mut self.sites[j];
        match member.take(letter) {
            Ok(()) => Ok(WorldOutcome::Merged),
            Err(taken) => Err(WorldFault::NoMemory { taken }),
        }
    }

    /// Has the first site tell the second what it took of it.
    fn acknowledge(&mut self, j: usize, i: usize) -> Result<WorldOutcome, WorldFault>
        ensures { HappensIn self.old self.new
            (event_value (WorldEvent.Ack j i)) (answer_value result) }
    {
        if j >= self.sites.len() || i >= self.sites.len() {
            return Err(WorldFault::NoSuchSite);
        }
        let k = self.letters.len();
        let letter = self.sites[j].acknowledge(i as u8);
        match self.letters.push(letter) {
            Ok(()) => Ok(WorldOutcome::Lettered(k)),
            Err(_) => Err(WorldFault::NoMemory { taken: 0 }),
        }
    }

    /// Has a site start again.
    fn restart(&mut self, i: usize) -> Result<WorldOutcome, WorldFault>
        ensures { HappensIn self.old self.new
            (event_value (WorldEvent.Restart i)) (answer_value result) }
    {
        if i >= self.sites.len() {
            return Err(WorldFault::NoSuchSite);
        }
        let member = &mut self.sites[i];
        let Some(epoch) = member.restart() else {
            return Err(WorldFault::EpochFull);
        };
        Ok(WorldOutcome::Restarted(epoch))
    }

    /// A world of n sites, 1 to 16, with these tables after these events, with the answer to each; a fault is an answer and doesn't
    /// stop it.
    pub fn run(
        alloc: Global,
        tables: Tables,
        n: u8,
        events: &[WorldEvent],
    ) -> Result<(World, Vec<Result<WorldOutcome, WorldFault>>), AllocError>
        requires some { 0 < n }
        requires within { n ≤ site_limit }

        // Each answer is one that the definitions give on what the sites took before.
        ensures answers { IfOk result (λ r.
            GivesAll (setting tables) (start n) (events_value events.now)
            (answers_value r.1.items)) }
        // Each site holds what is kept of what the events and the answers say that it took.
        ensures holds { IfOk result (λ r. r.0.seen ≡ world_view (after_all (setting tables)
            (start n) (events_value events.now) (answers_value r.1.items))) }
        ensures tables { IfOk result (λ r. r.0.tables ≡ tables) }
        // What a site counts as taken of a maker it took.
        ensures taken { IfOk result (λ r. MakersAreTaken (after_all (setting tables)
            (start n) (events_value events.now) (answers_value r.1.items))) }
        // What it counts as known to a peer that peer took, and counts so itself.
        ensures known { IfOk result (λ r. PeersTook (after_all (setting tables)
            (start n) (events_value events.now) (answers_value r.1.items))) }
        // A range that it then writes leaves no gap, whatever comes before the peer takes it.
        ensures gapless { IfOk result (λ r. LeavesNoGap (setting tables) (after_all (setting tables)
            (start n) (events_value events.now) (answers_value r.1.items))) }
        // Any two sites that took the same operations hold the same.
        ensures same { IfOk result (λ r. HoldAlike tables (after_all (setting tables)
            (start n) (events_value events.now) (answers_value r.1.items)) r.0.seen) }
    {
        let mut world = World::start(alloc, tables, n)?;
        let mut answers = Vec::with_capacity(alloc, events.len())?;
        for event in events {
            let answer = world.step(event);
            answers.push(answer).unwrap();
        }
        Ok((world, answers))
    }
}
