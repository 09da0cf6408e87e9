//! Default qualities of service of access points.
ghost use Rattle.std.specs.Prelude.{◌≡◌, IfOk, IfErr, Some, None};
ghost use Rattle.toml.specs.Data.{as_table};
ghost use Rattle.toml.specs.View.{view, table_view};
ghost use Rattle.op_tables.specs.Places.{default_key, quality_keys};
ghost use Rattle.op_tables.specs.Judgement.{fault_of_table, key_fault, keys_fault};
ghost use Rattle.op_tables.specs.Meaning.{default_of, quality_of};
ghost use Rattle.op_tables.specs.Values.{table_in};

use crate::fault::PlacedFault;
use crate::place::{Step, TableKey};
use crate::reading::{bounded_at, number_at, preemption_at, table, value_at};
use pcrf_values::{DefaultQuality, RetentionPriority};
use toml::{Table, Value};

/// Reads a default quality from a table with its keys.
#[tactic(auto, unfolding(crate::specs::Judgement::keys_fault))]
fn read_quality(table: &Table) -> Result<DefaultQuality, PlacedFault>
    ensures judged { IfOk result (λ _. keys_fault quality_keys (table_view table.now) ≡ None) }
    ensures read { IfOk result (λ quality. quality ≡ quality_of (table_view table.now)) }
    ensures refused { IfErr result (λ fault. keys_fault quality_keys (table_view table.now)
        ≡ Some fault) }
{
    let class = bounded_at(table, TableKey::Qci)?;
    let priority = RetentionPriority {
        level: bounded_at(table, TableKey::Priority)?,
        capability: preemption_at(table, TableKey::Capability)?,
        vulnerability: preemption_at(table, TableKey::Vulnerability)?,
    };
    let aggregate_uplink = number_at(table, TableKey::AmbrUl)?;
    let aggregate_downlink = number_at(table, TableKey::AmbrDl)?;
    Ok(DefaultQuality {
        class,
        priority,
        aggregate_uplink,
        aggregate_downlink,
    })
}

/// Reads the default quality that a value is. Where it stands, is still to be told.
fn read_value(value: &Value) -> Result<DefaultQuality, PlacedFault>
    ensures judged { IfOk result (λ _. fault_of_table (keys_fault quality_keys)
        (as_table (view value.now)) ≡ None) }
    ensures read { IfOk result (λ quality. quality ≡ quality_of (table_in (view value.now))) }
    ensures refused { IfErr result (λ fault. fault_of_table (keys_fault quality_keys)
        (as_table (view value.now)) ≡ Some fault) }
{
    read_quality(table(value)?)
}

/// Reads the default quality of an access point, if it has one.
#[tactic(auto, unfolding(crate::specs::Judgement::key_fault, crate::specs::Judgement::shape_fault))]
pub fn read_default(point: &Table) -> Result<Option<DefaultQuality>, PlacedFault>
    ensures judged { IfOk result (λ _. key_fault default_key (table_view point.now) ≡ None) }
    ensures read { IfOk result (λ default. default ≡ default_of (table_view point.now)) }
    ensures refused { IfErr result (λ fault. key_fault default_key (table_view point.now)
        ≡ Some fault) }
{
    let Some(value) = value_at(point, TableKey::Default) else {
        return Ok(None);
    };
    match read_value(value) {
        Ok(quality) => Ok(Some(quality)),
        Err(fault) => Err(fault.within(Step::key(TableKey::Default))),
    }
}
