//! Classes of service.
ghost use Rattle.std.specs.Prelude.{◌≡◌, IfOk, IfErr, Some, None};
ghost use Rattle.pcrf_values.specs.Numbers.{preemption_number};
ghost use Rattle.toml.specs.Data.{as_table};
ghost use Rattle.toml.specs.View.{view, table_view};
ghost use Rattle.op_tables.specs.Keys.{key_text};
ghost use Rattle.op_tables.specs.Places.{class_keys, Table as TableShape, required};
ghost use Rattle.op_tables.specs.Judgement.{fault_of_table, key_fault, keys_fault};
ghost use Rattle.op_tables.specs.Meaning.{class_of};
ghost use Rattle.op_tables.specs.Values.{data_at, table_in};

use crate::copies::TryCopy;
use crate::fault::PlacedFault;
use crate::place::{Step, TableKey};
use crate::reading::{bounded_at, number_at, preemption_at, required_at, table};
use pcrf_values::{RetentionPriority, RuleQos};
use std::alloc::{AllocError, Global};
use std::marker::Model;
use toml::{Table, Value};

/// A class of service: the quality that a flow gets, with the greatest bit rates that it may have, in bit/s, and the
/// precedence of its rules. Of two rules that a packet fits, the one with the lesser precedence applies.
#[derive(Clone, Copy)]
pub struct Class {
    qos: RuleQos,
    precedence: u32,
}

impl Model for Class {
    ghost use Rattle.pcrf_model.specs.Tables.{Class as ClassValue};
    ghost use Rattle.op_tables.specs.TableViews.{class_value, qos_of};
    ghost use Rattle.op_tables.specs.laws.TableViews.{qos_of-class_value};

    ghost Value = { ClassValue };

    ghost view = { λ c. class_value c.qos c.precedence };

    ghost inverse = { λ v. record { qos = qos_of v; precedence = v.precedence } };

    ghost inverse_ok = { λ c _. (λ i. record { qos = qos_of-class_value c.qos c.precedence i; precedence = c.precedence }) };
}

impl Class {
    /// The quality of service. The rates in it are caps: a flow that asks for less gets less.
    pub fn qos(self) -> RuleQos
        ensures class { result.class ≡ self.qci }
        ensures level { result.priority.level ≡ self.priority }
        ensures capability { preemption_number result.priority.capability ≡ self.capability }
        ensures vulnerability { preemption_number result.priority.vulnerability
            ≡ self.vulnerability }
        ensures uplink { result.max_uplink ≡ self.max_ul }
        ensures downlink { result.max_downlink ≡ self.max_dl }
    {
        self.qos
    }

    /// The precedence, the least first.
    pub fn precedence(self) -> u32
        ensures { result ≡ self.precedence }
    {
        self.precedence
    }
}

impl TryCopy for Class {
    fn try_copy(&self, _alloc: Global) -> Result<Class, AllocError> {
        Ok(*self)
    }
}

/// Reads a class from a table with its keys.
#[tactic(auto, unfolding(crate::specs::Judgement::keys_fault))]
pub fn read_class(table: &Table) -> Result<Class, PlacedFault>
    ensures judged { IfOk result (λ _. keys_fault class_keys (table_view table.now) ≡ None) }
    ensures read { IfOk result (λ class. class ≡ class_of (table_view table.now)) }
    ensures refused { IfErr result (λ fault. keys_fault class_keys (table_view table.now)
        ≡ Some fault) }
{
    let class = bounded_at(table, TableKey::Qci)?;
    let priority = RetentionPriority {
        level: bounded_at(table, TableKey::Priority)?,
        capability: preemption_at(table, TableKey::Capability)?,
        vulnerability: preemption_at(table, TableKey::Vulnerability)?,
    };
    let max_uplink = number_at(table, TableKey::MaxUl)?;
    let max_downlink = number_at(table, TableKey::MaxDl)?;
    let precedence = number_at(table, TableKey::Precedence)?;
    let qos = RuleQos {
        class,
        priority,
        max_uplink,
        max_downlink,
    };
    Ok(Class { qos, precedence })
}

/// Reads the class that a value is. Where it stands, is still to be told.
fn read_value(value: &Value) -> Result<Class, PlacedFault>
    ensures judged { IfOk result (λ _. fault_of_table (keys_fault class_keys)
        (as_table (view value.now)) ≡ None) }
    ensures read { IfOk result (λ class. class ≡ class_of (table_in (view value.now))) }
    ensures refused { IfErr result (λ fault. fault_of_table (keys_fault class_keys)
        (as_table (view value.now)) ≡ Some fault) }
{
    read_class(table(value)?)
}

/// Reads the class at a key that has to stand.
#[tactic(auto, unfolding(crate::specs::Judgement::key_fault, crate::specs::Judgement::shape_fault))]
pub fn class_at(outer: &Table, key: TableKey) -> Result<Class, PlacedFault>
    ensures judged { IfOk result (λ _. key_fault (required key (TableShape class_keys))
        (table_view outer.now) ≡ None) }
    ensures read { IfOk result (λ class. class
        ≡ class_of (table_in (data_at (key_text key) (table_view outer.now)))) }
    ensures refused { IfErr result (λ fault. key_fault (required key (TableShape class_keys))
        (table_view outer.now) ≡ Some fault) }
{
    match read_value(required_at(outer, key)?) {
        Ok(class) => Ok(class),
        Err(fault) => Err(fault.within(Step::key(key))),
    }
}
