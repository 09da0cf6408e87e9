//! Values of a document, each judged by its kind and range, and what stands at a key of a table.
ghost use Rattle.std.specs.Prelude.{◌≡◌, ◌≤◌, List, [], length, IfOk, IfErr, Option, Some, None, option_map, map};
ghost use Rattle.pcrf_values.specs.Numbers.{flow_status_number, preemption_number};
ghost use Rattle.toml.specs.Data.{Data, get_member, as_table};
ghost use Rattle.toml.specs.View.{view, table_view};
ghost use Rattle.op_tables.specs.Keys.{key_text};
ghost use Rattle.op_tables.specs.Places.{Shape, Number, number_32, Rows, Keys, required, optional};
ghost use Rattle.op_tables.specs.Placing.{unplaced, fault_at};
ghost use Rattle.op_tables.specs.Judgement.{shape_fault, key_fault, row_fault, fault_of_array, fault_of_rows};
ghost use Rattle.op_tables.specs.TableViews.{preemption_of};
ghost use Rattle.op_tables.specs.Values.{as_list, number_in, number_at as number_of, rows_at as rows_of};
ghost use Rattle.op_tables.specs.declared.fault.PlacedFault.{PlacedFault as Fault};
ghost use Rattle.op_tables.specs.declared.fault.TableFault.TheVariants.{MissingKey, BadValue};

use crate::fault::{PlacedFault, TableFault};
use crate::place::TableKey;
use pcrf_values::{BoundedNumber, FlowStatus, Preemption};
use toml::{Table, Value};

/// The value at a key.
pub fn value_at<'a>(table: &'a Table, key: TableKey) -> Option<&'a Value>
    ensures { option_map (λ v. view v.now) result
        ≡ get_member (key_text key) (table_view table.now) }
{
    table.get(key.text())
}

/// The value at a key that has to stand.
pub fn required_at<'a>(table: &'a Table, key: TableKey) -> Result<&'a Value, PlacedFault>
    ensures found { IfOk result (λ v. get_member (key_text key) (table_view table.now)
        ≡ Some (view v.now)) }
    ensures fault { IfErr result (λ fault. fault ≡ fault_at key MissingKey) }
    ensures absent { IfErr result (λ _. get_member (key_text key) (table_view table.now) ≡ None) }
{
    let Some(value) = value_at(table, key) else {
        return Err(PlacedFault::at(key, TableFault::MissingKey));
    };
    Ok(value)
}

/// The number within a range that a value at this key is.
#[tactic(auto, unfolding(crate::specs::Judgement::shape_fault))]
fn number(key: TableKey, value: &Value, least: u32, most: u32) -> Result<u32, PlacedFault>
    ensures judged { IfOk result (λ _. shape_fault key (Number least most) (view value.now)
        ≡ None) }
    ensures read { IfOk result (λ n. number_in (view value.now) ≡ n) }
    ensures least { IfOk result (λ n. least ≤ n) }
    ensures most { IfOk result (λ n. n ≤ most) }
    ensures refused { IfErr result (λ fault. shape_fault key (Number least most) (view value.now)
        ≡ Some fault) }
{
    let Some(wide) = value.as_integer() else {
        return Err(PlacedFault::at(key, TableFault::BadValue));
    };
    let Ok(number) = u32::try_from(wide) else {
        return Err(PlacedFault::at(key, TableFault::BadValue));
    };
    if number < least || number > most {
        return Err(PlacedFault::at(key, TableFault::BadValue));
    }
    Ok(number)
}

/// A number within a range, at a key that has to stand.
#[tactic(auto, unfolding(crate::specs::Judgement::key_fault))]
pub fn number_within(
    table: &Table,
    key: TableKey,
    least: u32,
    most: u32,
) -> Result<u32, PlacedFault>
    ensures judged { IfOk result (λ _. key_fault (required key (Number least most))
        (table_view table.now) ≡ None) }
    ensures read { IfOk result (λ n. number_of (key_text key) (table_view table.now) ≡ n) }
    ensures least { IfOk result (λ n. least ≤ n) }
    ensures most { IfOk result (λ n. n ≤ most) }
    ensures refused { IfErr result (λ fault. key_fault (required key (Number least most))
        (table_view table.now) ≡ Some fault) }
{
    number(key, required_at(table, key)?, least, most)
}

/// Any number of 32 bits without a sign, at a key that has to stand.
pub fn number_at(table: &Table, key: TableKey) -> Result<u32, PlacedFault>
    ensures judged { IfOk result (λ _. key_fault (required key number_32)
        (table_view table.now) ≡ None) }
    ensures read { IfOk result (λ n. number_of (key_text key) (table_view table.now) ≡ n) }
    ensures refused { IfErr result (λ fault. key_fault (required key number_32)
        (table_view table.now) ≡ Some fault) }
{
    number_within(table, key, 0, u32::MAX)
}

/// A number of a type that keeps its range, at a key that has to stand.
pub fn bounded_at<const LEAST: u32, const MOST: u32>(
    table: &Table,
    key: TableKey,
) -> Result<BoundedNumber<LEAST, MOST>, PlacedFault>
    ensures judged { IfOk result (λ _. key_fault (required key (Number LEAST MOST))
        (table_view table.now) ≡ None) }
    ensures read { IfOk result (λ n. number_of (key_text key) (table_view table.now) ≡ n) }
    ensures refused { IfErr result (λ fault. key_fault (required key (Number LEAST MOST))
        (table_view table.now) ≡ Some fault) }
{
    let number = number_within(table, key, LEAST, MOST)?;
    let Some(bounded) = BoundedNumber::of(number) else {
        return Err(PlacedFault::at(key, TableFault::BadValue));
    };
    Ok(bounded)
}

/// Whether bearers are pre-empted, at a key that has to stand.
#[tactic(auto, using(crate::proofs::Views::preemption_is))]
pub fn preemption_at(table: &Table, key: TableKey) -> Result<Preemption, PlacedFault>
    ensures judged { IfOk result (λ _. key_fault (required key (Number 0 1))
        (table_view table.now) ≡ None) }
    ensures read { IfOk result (λ p. number_of (key_text key) (table_view table.now)
        ≡ preemption_number p) }
    ensures value { IfOk result (λ p. p
        ≡ preemption_of (number_of (key_text key) (table_view table.now))) }
    ensures refused { IfErr result (λ fault. key_fault (required key (Number 0 1))
        (table_view table.now) ≡ Some fault) }
{
    let number = number_within(table, key, 0, 1)?;
    let Some(preemption) = Preemption::from_number(number) else {
        return Err(PlacedFault::at(key, TableFault::BadValue));
    };
    Ok(preemption)
}

/// Which directions of a flow are open, at a key that has to stand.
pub fn status_at(table: &Table, key: TableKey) -> Result<FlowStatus, PlacedFault>
    ensures judged { IfOk result (λ _. key_fault (required key (Number 0 3))
        (table_view table.now) ≡ None) }
    ensures read { IfOk result (λ s. number_of (key_text key) (table_view table.now)
        ≡ flow_status_number s) }
    ensures refused { IfErr result (λ fault. key_fault (required key (Number 0 3))
        (table_view table.now) ≡ Some fault) }
{
    let number = number_within(table, key, 0, 3)?;
    let Some(status) = FlowStatus::from_number(number) else {
        return Err(PlacedFault::at(key, TableFault::BadValue));
    };
    Ok(status)
}

/// The table that a value is. Where it stands, is still to be told.
pub fn table(value: &Value) -> Result<&Table, PlacedFault>
    ensures read { IfOk result (λ t. as_table (view value.now) ≡ Some (table_view t.now)) }
    ensures fault { IfErr result (λ fault. fault ≡ unplaced BadValue) }
    ensures no_table { IfErr result (λ _. as_table (view value.now) ≡ None) }
{
    let Some(table) = value.as_table() else {
        return Err(PlacedFault::unplaced(TableFault::BadValue));
    };
    Ok(table)
}

/// The elements of the array of at most so many that a value at this key is.
pub fn list(key: TableKey, value: &Value, most: usize) -> Result<&[Value], PlacedFault>
    ensures read { IfOk result (λ vs. as_list (view value.now) ≡ Some (map view vs.now)) }
    ensures most { IfOk result (λ vs. length vs.now ≤ most) }
    ensures refused { IfErr result (λ fault. (judge : List Data → Option Fault) →
        fault_of_array key most judge (as_list (view value.now)) ≡ Some fault) }
{
    let Some(array) = value.as_array() else {
        return Err(PlacedFault::at(key, TableFault::BadValue));
    };
    if array.len() > most {
        return Err(PlacedFault::at(key, TableFault::BadValue));
    }
    Ok(array.as_slice())
}

/// The rows at a key that may be absent, at most so many. The rows themselves are still to be judged.
#[tactic(auto, unfolding(crate::specs::Judgement::key_fault, crate::specs::Judgement::shape_fault, crate::specs::Judgement::row_fault, crate::specs::Judgement::row_judged))]
pub fn rows_at<'a>(table: &'a Table, key: TableKey, most: usize) -> Result<&'a [Value], PlacedFault>
    ensures read { IfOk result (λ rows. rows_of (key_text key) (table_view table.now)
        ≡ map view rows.now) }
    ensures judged { IfOk result (λ rows. (name : TableKey) (shape : Shape) (keys : Keys) →
        key_fault (optional key (Rows most name shape keys)) (table_view table.now)
        ≡ fault_of_rows key (row_fault name shape keys) [] (map view rows.now)) }
    ensures refused { IfErr result (λ fault. (name : TableKey) (shape : Shape) (keys : Keys) →
        key_fault (optional key (Rows most name shape keys)) (table_view table.now)
        ≡ Some fault) }
{
    let Some(value) = value_at(table, key) else {
        return Ok(&[]);
    };
    list(key, value, most)
}
