//! Sessions whose gateways refused a push, until they are told all their rules again.
ghost use Rattle.std.specs.Prelude.{◌≡◌, ◌≢◌, [], None, true, length, take, IfOk, OnOk, OnErr};
ghost use Rattle.watched_links.specs.LostRulesLimits.{most_due};
ghost use Rattle.watched_links.specs.Refusals.{accepted, after_refusal, due_of, forgotten, has_place, next_due, not_noted, outcome_of, placed, refused_stage, stage_of, told_again, with_room, without, without_over};
ghost use Rattle.watched_links.specs.Stages.{is_given_up, is_over};
ghost use Rattle.watched_links.specs.declared.refused.Refused.TheVariants.{Stands};

use crate::stage::Stage;
use pcrf_values::{GxSid, Ranked};
use std::alloc::{AllocError, Global};
use std::collections::BTreeMap;
use std::marker::Model;

/// How many sessions are known at most. Of further ones nothing is told again.
const MOST: usize = 1 << 14;

/// How many sessions are due at once at most.
pub const PIECE: usize = 100;

/// What comes of a push that was refused.
#[derive(Clone, Copy, Debug, PartialEq, Eq)]
pub enum Refused {
    /// All rules of the session are told again, once the pause has passed.
    ToldAgain,
    /// They were told again, and refused again: nothing more is told until the session's rules change.
    GivenUp,
    /// Nothing: as many sessions are known as can be, or memory is refused.
    Stands,
}

/// Sessions whose gateways refused a push, which contracts see as the pause and how it stands with each, by Session-Id and ascending.
#[derive(Drop)]
pub struct RefusedPushes {
    alloc: Global,
    /// How many milliseconds lie between a refusal and the telling.
    pause: u64,
    stages: BTreeMap<GxSid, Stage>,
}

impl Model for RefusedPushes {
    ghost use Rattle.watched_links.specs.Refusals.{RefusedValue};

    ghost Value = { RefusedValue };

    ghost view = { λ r. record { pause = r.pause; stages = r.stages.entries } };
}

/// Those are forgotten of which nothing more is told.
fn forget_given_up(stages: &mut BTreeMap<GxSid, Stage>)
    ensures { stages.new.entries ≡ without is_given_up stages.old.entries }
{
    stages.retain(|_: &GxSid, stage: &mut Stage| !stage.is_given_up());
}

/// Those are forgotten that were told again, and refused nothing in time.
fn forget_over(stages: &mut BTreeMap<GxSid, Stage>, now: u64, pause: u64)
    ensures { stages.new.entries ≡ without (is_over pause now) stages.old.entries }
{
    stages.retain(|_: &GxSid, stage: &mut Stage| !stage.is_over(now, pause));
}

/// The next sessions that are due.
fn first_due(
    alloc: Global,
    stages: &BTreeMap<GxSid, Stage>,
    now: u64,
    pause: u64,
) -> Result<Vec<GxSid>, AllocError>
    ensures { IfOk result (λ due. due.items ≡ take most_due (due_of pause now stages.now.entries)) }
{
    let mut due = Vec::new(alloc);
    for (session, stage) in stages.iter() {
        if stage.is_due(now, pause) {
            due.push(session.try_copy()?)?;
            if due.len() >= PIECE {
                return Ok(due);
            }
        }
    }
    Ok(due)
}

/// From now on it stands so with a session. Where no further one can be known those are forgotten of which nothing more is told.
fn place(
    stages: &mut BTreeMap<GxSid, Stage>,
    session: &GxSid,
    stage: Stage,
) -> Result<(), AllocError>
    ensures placed { OnOk result (stages.new.entries
        ≡ placed stages.old.entries session.now stage) }
    ensures room { OnOk result (has_place stages.old.entries session.now ≡ true) }
    ensures err { OnErr result (stages.new.entries ≡ with_room stages.old.entries session.now) }
    ensures absent { OnErr result (stage_of stages.old.entries session.now ≡ None) }
{
    if let Some(before) = stages.get_mut(session) {
        *before = stage;
        return Ok(());
    }
    if stages.len() >= MOST {
        forget_given_up(stages);
    }
    if stages.len() >= MOST {
        return Err(AllocError);
    }
    match stages.insert(session.try_copy()?, stage) {
        Ok(_) => Ok(()),
        Err(_) => Err(AllocError),
    }
}

impl RefusedPushes {
    /// None yet. Sessions are told again that many milliseconds behind a refusal.
    pub fn start(alloc: Global, pause: u64) -> RefusedPushes
        ensures { result ≡ record { pause = pause; stages = [] } }
    {
        RefusedPushes {
            alloc,
            pause,
            stages: BTreeMap::new(alloc),
        }
    }

    /// The gateway of a session refused a push, at that time in milliseconds. It isn't noted of a further session where 16,384 are known,
    /// also once those are forgotten of which nothing more is told, or where memory is refused; of one that is known it always is.
    pub fn refuse(&mut self, session: &GxSid, now: u64) -> Refused
        ensures noted { result ≢ Stands → self.new ≡ after_refusal self.old session.now now }
        ensures outcome { result ≢ Stands
            → result ≡ outcome_of (refused_stage self.old session.now now) }
        ensures room { result ≢ Stands → has_place self.old.stages session.now ≡ true }
        ensures stands { result ≡ Stands → self.new ≡ not_noted self.old session.now }
        ensures absent { result ≡ Stands → stage_of self.old.stages session.now ≡ None }
    {
        let before = self.stages.get(session).copied();
        let stage = Stage::refused(before, now, self.pause);
        if place(&mut self.stages, session, stage).is_err() {
            return Refused::Stands;
        }
        if stage.is_given_up() {
            Refused::GivenUp
        } else {
            Refused::ToldAgain
        }
    }

    /// It accepted one.
    pub fn accept(&mut self, session: &GxSid, now: u64)
        ensures { self.new ≡ accepted self.old session.now now }
    {
        let pause = self.pause;
        let Some(stage) = self.stages.get_mut(session) else {
            return;
        };
        *stage = stage.accepted(now, pause);
    }

    /// The next sessions that are to be told all their rules again, 100 at most. Those are forgotten which were, and refused nothing since,
    /// also where memory is refused.
    pub fn next_due(&mut self, now: u64) -> Result<Vec<GxSid>, AllocError>
        ensures due { IfOk result (λ due. due.items ≡ next_due self.old now) }
        ensures forgotten { self.new ≡ without_over self.old now }
    {
        let pause = self.pause;
        forget_over(&mut self.stages, now, pause);
        first_due(self.alloc, &self.stages, now, pause)
    }

    /// All rules of a session are told again now.
    pub fn tell_again(&mut self, session: &GxSid, now: u64)
        ensures { self.new ≡ told_again self.old session.now now }
    {
        let Some(stage) = self.stages.get_mut(session) else {
            return;
        };
        *stage = Stage::ToldAgain(now);
    }

    /// A session has ended, or its gateway counts as told nothing: there is nothing to tell again.
    pub fn forget(&mut self, session: &GxSid)
        ensures { self.new ≡ forgotten self.old session.now }
    {
        self.stages.remove(session);
    }

    /// How many sessions are known.
    pub fn len(&self) -> usize
        ensures { result ≡ length self.now.stages }
    {
        self.stages.len()
    }
}
