//! How much of a difference one message carries.
ghost use Rattle.std.specs.Prelude.{◌≡◌, ◌↔◌, ◌+◌, ◌≤◌, IfOk, IsTrue, length};
ghost use Rattle.pcrf_model.specs.Differences.{first};
ghost use Rattle.pcrf_values.specs.Limits.{delta_limit};
ghost use Rattle.pcrf_model.specs.Serving.{empty_delta};

use pcrf_values::limits::DELTA_LIMIT;
use pcrf_values::{Delta, Exact, Ranked, Rule, RuleName, same};
use std::alloc::{AllocError, Global};
use std::marker::Model;

/// The entries of a difference that a message carries: the first ones, 40 at most. Contracts see it as a `DeltaValue`.
#[derive(Debug, Drop, PartialEq, Eq)]
pub struct FirstEntries {
    delta: Delta,
}

impl Model for FirstEntries {
    ghost use Rattle.std.specs.Prelude.{◌+◌, ◌≤◌, length};
    ghost use Rattle.pcrf_values.specs.RuleValues.{DeltaValue};
    ghost use Rattle.pcrf_values.specs.Limits.{delta_limit};

    ghost Value = { DeltaValue };

    ghost view = { λ f. f.delta };

    ghost inverse = { λ delta. record { delta = delta } };

    ghost invariant = { λ f. length f.delta.removed + length f.delta.installed ≤ delta_limit };
}

impl FirstEntries {
    /// The first entries of a difference.
    pub fn of(delta: Delta) -> FirstEntries
        ensures { result ≡ first delta_limit delta }
    {
        FirstEntries {
            delta: delta.first(DELTA_LIMIT),
        }
    }

    /// No entry.
    pub fn none(alloc: Global) -> FirstEntries
        ensures { result ≡ empty_delta }
    {
        FirstEntries {
            delta: Delta::of(Vec::new(alloc), Vec::new(alloc)),
        }
    }

    /// The names of the rules to be removed.
    pub fn removed(&self) -> &[RuleName]
        ensures names { result.now ≡ self.now.removed }
        ensures within { length self.now.removed + length self.now.installed ≤ delta_limit }
    {
        self.delta.removed()
    }

    /// The rules to be installed.
    pub fn installed(&self) -> &[Rule]
        ensures rules { result.now ≡ self.now.installed }
        ensures within { length self.now.removed + length self.now.installed ≤ delta_limit }
    {
        self.delta.installed()
    }

    /// Equal entries.
    pub fn try_copy(&self) -> Result<FirstEntries, AllocError>
        ensures { IfOk result (λ copy. copy ≡ self.now) }
    {
        Ok(FirstEntries {
            delta: self.delta.try_copy()?,
        })
    }
}

impl Exact for FirstEntries {
    fn equal(&self, other: &FirstEntries) -> bool {
        same(&self.delta, &other.delta)
    }
}
