//! PCC rules, and differences between the rules that a gateway was told and those that it is to have.
ghost use Rattle.std.specs.Prelude.{◌≡◌, ◌<◌, ◌≤◌, IfOk, IfSome, IfNone, ◌-◌, take, length};
ghost use Rattle.pcrf_values.specs.Numbers.{flow_status_number, preemption_number};
ghost use Rattle.pcrf_values.specs.RuleValues.{rule_cmp};
ghost use Rattle.pcrf_values.specs.RuleViews.{rule_value, numbers_of};

use crate::lists::{Filters, Listed};
use crate::numbers::{Enumeration, PriorityLevel, QosClass};
use crate::order::Ranked;
use crate::text::RuleName;
use std::alloc::{AllocError, Global};
use std::cmp::Ordering;
use std::marker::Model;
use std::sync::Arc;

/// Which directions of a flow are open (Flow-Status, TS 29.214, 5.3.11). REMOVED, 4, is no status of a rule.
#[derive(Clone, Copy, Debug, PartialEq, Eq, PartialOrd, Ord)]
pub enum FlowStatus {
    /// Uplink alone.
    EnabledUplink,
    /// Downlink alone.
    EnabledDownlink,
    /// Both.
    Enabled,
    /// Neither.
    Disabled,
}

impl FlowStatus {
    /// The status that has a number.
    pub fn from_number(number: u32) -> Option<FlowStatus>
        ensures known { IfSome result (λ status. flow_status_number status ≡ number) }
        ensures unknown { IfNone result (3 < number) }
    {
        match number {
            0 => Some(FlowStatus::EnabledUplink),
            1 => Some(FlowStatus::EnabledDownlink),
            2 => Some(FlowStatus::Enabled),
            3 => Some(FlowStatus::Disabled),
            _ => None,
        }
    }

    /// The number of the status.
    pub fn number(self) -> u32
        ensures number { result ≡ flow_status_number self }
        ensures within { result ≤ 3 }
    {
        match self {
            FlowStatus::EnabledUplink => 0,
            FlowStatus::EnabledDownlink => 1,
            FlowStatus::Enabled => 2,
            FlowStatus::Disabled => 3,
        }
    }
}

impl Enumeration for FlowStatus {
    ghost use Rattle.pcrf_values.specs.Numbers.{flow_status_number, flow_status_of};
    ghost use Rattle.pcrf_values.specs.laws.Numbers.{status_of_its_number};

    const LEAST: u32 = 0;

    const MOST: u32 = 3;

    ghost LEAST = { 0 };

    ghost MOST = { 3 };

    ghost number_of = { flow_status_number };

    ghost value_of = { flow_status_of };

    ghost of_its_number = { status_of_its_number };

    fn from_number(number: u32) -> Option<FlowStatus> {
        FlowStatus::from_number(number)
    }

    fn number(self) -> u32 {
        FlowStatus::number(self)
    }
}

/// Whether a bearer may take resources from others, or lose its own to them
/// (Pre-emption-Capability and Pre-emption-Vulnerability, TS 29.212, 5.3.46 and 5.3.47).
#[derive(Clone, Copy, Debug, PartialEq, Eq, PartialOrd, Ord)]
pub enum Preemption {
    /// It may.
    Enabled,
    /// It may not.
    Disabled,
}

impl Preemption {
    /// The value that has a number.
    pub fn from_number(number: u32) -> Option<Preemption>
        ensures known { IfSome result (λ preemption. preemption_number preemption ≡ number) }
        ensures unknown { IfNone result (1 < number) }
    {
        match number {
            0 => Some(Preemption::Enabled),
            1 => Some(Preemption::Disabled),
            _ => None,
        }
    }

    /// The number of the value.
    pub fn number(self) -> u32
        ensures number { result ≡ preemption_number self }
        ensures within { result ≤ 1 }
    {
        match self {
            Preemption::Enabled => 0,
            Preemption::Disabled => 1,
        }
    }
}

/// The priority of allocation and retention of a bearer (Allocation-Retention-Priority, TS 29.212, 5.3.32).
#[derive(Clone, Copy, Debug, PartialEq, Eq)]
pub struct RetentionPriority {
    pub level: PriorityLevel,
    /// Whether it may take resources from bearers of a lower priority.
    pub capability: Preemption,
    /// Whether it may lose its resources to bearers of a higher priority.
    pub vulnerability: Preemption,
}

/// The quality of service of a rule (QoS-Information, TS 29.212, 5.3.16).
#[derive(Clone, Copy, Debug)]
pub struct RuleQos {
    pub class: QosClass,
    pub priority: RetentionPriority,
    /// The greatest bit rate up, in bit/s.
    pub max_uplink: u32,
    /// The greatest bit rate down, in bit/s.
    pub max_downlink: u32,
}

/// A PCC rule (Charging-Rule-Definition, TS 29.212, 5.3.4), which contracts see as a `RuleValue`. Ordered field by field. Copies share
/// their memory.
#[derive(Debug, Drop)]
pub struct Rule {
    definition: Arc<Definition>,
}

/// What a rule says.
#[derive(Debug, Drop)]
struct Definition {
    name: RuleName,
    status: FlowStatus,
    filters: Filters,
    qos: RuleQos,
    precedence: u32,
}

impl Model for Rule {
    ghost use Rattle.pcrf_values.specs.RuleValues.{RuleValue};
    ghost use Rattle.pcrf_values.specs.RuleViews.{rule_value};

    ghost Value = { RuleValue };

    ghost view = { λ r. rule_value r.definition.value.name r.definition.value.status r.definition.value.filters r.definition.value.qos r.definition.value.precedence };
}

impl Rule {
    /// The rule of these parts. Of two rules that a packet fits, the one with the lesser precedence applies.
    pub fn of(
        alloc: Global,
        name: RuleName,
        status: FlowStatus,
        filters: Filters,
        qos: RuleQos,
        precedence: u32,
    ) -> Result<Rule, AllocError>
        ensures { IfOk result (λ rule. rule ≡ rule_value name status filters qos precedence) }
    {
        let definition = Definition {
            name,
            status,
            filters,
            qos,
            precedence,
        };
        Ok(Rule {
            definition: Arc::new(alloc, definition)?,
        })
    }

    /// The name.
    pub fn name(&self) -> &RuleName
        ensures { result.now ≡ self.now.name }
    {
        &self.definition.name
    }

    /// Which directions are open.
    pub fn status(&self) -> FlowStatus
        ensures { flow_status_number result ≡ self.now.status }
    {
        self.definition.status
    }

    /// The filters that pick the packets.
    pub fn filters(&self) -> &Filters
        ensures { result.now ≡ self.now.filters }
    {
        &self.definition.filters
    }

    /// The quality of service.
    pub fn qos(&self) -> RuleQos
        ensures class { result.class ≡ self.now.qci }
        ensures level { result.priority.level ≡ self.now.priority }
        ensures capability { preemption_number result.priority.capability ≡ self.now.capability }
        ensures vulnerability { preemption_number result.priority.vulnerability
            ≡ self.now.vulnerability }
        ensures uplink { result.max_uplink ≡ self.now.max_ul }
        ensures downlink { result.max_downlink ≡ self.now.max_dl }
    {
        self.definition.qos
    }

    /// The precedence, the least first.
    pub fn precedence(&self) -> u32
        ensures { result ≡ self.now.precedence }
    {
        self.definition.precedence
    }

    /// The numbers behind the filters, in the order in which rules are compared.
    fn numbers(&self) -> [u32; 7]
        ensures { result ≡ numbers_of self.now }
    {
        let RuleQos {
            class,
            priority,
            max_uplink,
            max_downlink,
        } = self.qos();
        let precedence = self.precedence();
        [
            class.get(),
            priority.level.get(),
            priority.capability.number(),
            priority.vulnerability.number(),
            max_uplink,
            max_downlink,
            precedence,
        ]
    }
}

impl PartialEq for Rule {
    ghost use Rattle.std.specs.Ordering.{eq_by_cmp};
    ghost use Rattle.std.specs.Cmp.{partial_equiv_from_equiv};
    ghost use Rattle.std.proofs.lemmas.Cmp.{eq_by_cmp_equiv};
    ghost use Rattle.pcrf_values.specs.laws.Values.{rule_total};

    ghost eq = { eq_by_cmp rule_cmp };

    ghost laws = { partial_equiv_from_equiv (eq_by_cmp_equiv rule_total) };

    fn eq(&self, other: &Rule) -> bool {
        self.cmp(other) == Ordering::Equal
    }
}

impl Eq for Rule {
    ghost use Rattle.std.proofs.lemmas.Cmp.{eq_by_cmp_equiv};
    ghost use Rattle.pcrf_values.specs.laws.Values.{rule_total};

    ghost laws = { eq_by_cmp_equiv rule_total };
}

impl PartialOrd for Rule {
    ghost use Rattle.std.specs.Ordering.{as_partial_cmp};
    ghost use Rattle.std.specs.Cmp.{partial_order_from_total};
    ghost use Rattle.pcrf_values.specs.laws.Values.{rule_total};

    ghost partial_cmp = { as_partial_cmp rule_cmp };

    ghost laws = { partial_order_from_total rule_total };

    fn partial_cmp(&self, other: &Rule) -> Option<Ordering> {
        Some(self.cmp(other))
    }
}

impl Ord for Rule {
    ghost use Rattle.std.specs.Prelude.{refl};
    ghost use Rattle.pcrf_values.specs.laws.Values.{rule_total};

    ghost cmp = { rule_cmp };

    ghost total = { rule_total };

    ghost matches_partial_cmp = { λ _ _. refl };

    ghost matches_eq = { λ _ _. refl };

    fn cmp(&self, other: &Rule) -> Ordering {
        let numbers = self.numbers().cmp(&other.numbers());
        let filters = self.filters().cmp(other.filters()).then(numbers);
        let statuses = self.status().number().cmp(&other.status().number());
        self.name().cmp(other.name()).then(statuses.then(filters))
    }
}

impl Ranked for Rule {
    ghost use Rattle.pcrf_values.specs.laws.Values.{rule_same};

    ghost same = { rule_same };

    fn try_copy(&self) -> Result<Rule, AllocError> {
        Ok(Rule {
            definition: self.definition.clone()?,
        })
    }
}

/// What a gateway is to remove, by name, and what it is to install (Charging-Rule-Remove and Charging-Rule-Install,
/// TS 29.212, 5.3.3 and 5.3.2). Contracts see it as a `DeltaValue`.
#[derive(Debug, Drop, PartialEq, Eq, PartialOrd, Ord)]
pub struct Delta {
    removed: Listed<RuleName>,
    installed: Listed<Rule>,
}

impl Model for Delta {
    ghost use Rattle.pcrf_values.specs.RuleValues.{DeltaValue};

    ghost Value = { DeltaValue };

    ghost view = { λ d. record { removed = d.removed; installed = d.installed } };

    ghost inverse = { λ d. record { removed = d.removed; installed = d.installed } };
}

impl Delta {
    /// The difference that removes and installs these.
    pub fn of(removed: Vec<RuleName>, installed: Vec<Rule>) -> Delta
        ensures removed { result.removed ≡ removed.items }
        ensures installed { result.installed ≡ installed.items }
    {
        Delta {
            removed: Listed::of(removed),
            installed: Listed::of(installed),
        }
    }

    /// The names of the rules to be removed.
    pub fn removed(&self) -> &[RuleName]
        ensures { result.now ≡ self.now.removed }
    {
        self.removed.as_slice()
    }

    /// The rules to be installed.
    pub fn installed(&self) -> &[Rule]
        ensures { result.now ≡ self.now.installed }
    {
        self.installed.as_slice()
    }

    /// Its first entries, so many of them at most: the removed names come before the installed rules.
    pub fn first(self, most: usize) -> Delta
        ensures removed { result.removed ≡ take most self.removed }
        ensures installed { result.installed ≡ take (most - length self.removed) self.installed }
    {
        let (mut removed, mut installed) = self.into_parts();
        let left = most.saturating_sub(removed.len());
        removed.truncate(most);
        installed.truncate(left);
        Delta::of(removed, installed)
    }

    /// Both lists.
    pub fn into_parts(self) -> (Vec<RuleName>, Vec<Rule>)
        ensures removed { result.0.items ≡ self.removed }
        ensures installed { result.1.items ≡ self.installed }
    {
        (self.removed.into_vec(), self.installed.into_vec())
    }
}

impl Ranked for Delta {
    ghost use Rattle.pcrf_values.specs.laws.Values.{delta_same};

    ghost same = { delta_same };

    fn try_copy(&self) -> Result<Delta, AllocError> {
        Ok(Delta {
            removed: self.removed.try_copy()?,
            installed: self.installed.try_copy()?,
        })
    }
}
