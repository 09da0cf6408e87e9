//! Texts of a document, each judged by its length and bytes, and what stands at a key of a table.
ghost use Rattle.std.specs.Prelude.{◌≡◌, [], IfOk, IfErr, Some, None, map};
ghost use Rattle.pcrf_values.specs.Limits.{filters_limit};
ghost use Rattle.pcrf_values.specs.Texts.{small_letters};
ghost use Rattle.toml.specs.View.{view, table_view};
ghost use Rattle.op_tables.specs.Keys.{key_text};
ghost use Rattle.op_tables.specs.Places.{apn_name_shape, Word as WordShape, Filters, required};
ghost use Rattle.op_tables.specs.Judgement.{shape_fault, key_fault, bad_unless, IsPlaced};
ghost use Rattle.op_tables.specs.Values.{filter as filter_in, filters as filters_among, all_of, text_in, data_at};
ghost use Rattle.op_tables.specs.Meaning.{filters_in};

use crate::apns::Word;
use crate::fault::{PlacedFault, TableFault};
use crate::place::TableKey;
use crate::reading::{list, required_at};
use pcrf_values::{Apn, BoundedList, PermitFilter, PermitFilters};
use std::alloc::Global;
use toml::{Table, Value};

/// The access point name, in small letters, that a value at this key is.
#[tactic(auto, unfolding(crate::specs::Judgement::shape_fault))]
fn name(alloc: Global, key: TableKey, value: &Value) -> Result<Apn, PlacedFault>
    ensures judged { IfOk result (λ _. shape_fault key apn_name_shape (view value.now) ≡ None) }
    ensures read { IfOk result (λ apn. small_letters (text_in (view value.now)) ≡ apn) }
    ensures refused { IfErr result (λ fault. IsPlaced fault
        (shape_fault key apn_name_shape (view value.now))) }
{
    let Some(text) = value.as_str() else {
        return Err(PlacedFault::at(key, TableFault::BadValue));
    };
    let Some(apn) = Apn::folded(alloc, text.as_bytes())? else {
        return Err(PlacedFault::at(key, TableFault::BadValue));
    };
    Ok(apn)
}

/// An access point name in small letters, at a key that has to stand.
#[tactic(auto, using(crate::proofs::Faults::is_placed), unfolding(crate::specs::Judgement::key_fault))]
pub fn name_at(alloc: Global, table: &Table, key: TableKey) -> Result<Apn, PlacedFault>
    ensures judged { IfOk result (λ _. key_fault (required key apn_name_shape)
        (table_view table.now) ≡ None) }
    ensures read { IfOk result (λ apn.
        small_letters (text_in (data_at (key_text key) (table_view table.now))) ≡ apn) }
    ensures refused { IfErr result (λ fault. IsPlaced fault
        (key_fault (required key apn_name_shape) (table_view table.now))) }
{
    name(alloc, key, required_at(table, key)?)
}

/// The word that a value at this key is.
#[tactic(auto, unfolding(crate::specs::Judgement::shape_fault))]
fn word<const MOST: usize>(
    alloc: Global,
    key: TableKey,
    value: &Value,
) -> Result<Word<MOST>, PlacedFault>
    ensures judged { IfOk result (λ _. shape_fault key (WordShape MOST) (view value.now) ≡ None) }
    ensures read { IfOk result (λ word. text_in (view value.now) ≡ word) }
    ensures refused { IfErr result (λ fault. IsPlaced fault
        (shape_fault key (WordShape MOST) (view value.now))) }
{
    let Some(text) = value.as_str() else {
        return Err(PlacedFault::at(key, TableFault::BadValue));
    };
    let Some(word) = Word::read(alloc, text.as_bytes())? else {
        return Err(PlacedFault::at(key, TableFault::BadValue));
    };
    Ok(word)
}

/// A word at a key that has to stand.
#[tactic(auto, using(crate::proofs::Faults::is_placed), unfolding(crate::specs::Judgement::key_fault))]
pub fn word_at<const MOST: usize>(
    alloc: Global,
    table: &Table,
    key: TableKey,
) -> Result<Word<MOST>, PlacedFault>
    ensures judged { IfOk result (λ _. key_fault (required key (WordShape MOST))
        (table_view table.now) ≡ None) }
    ensures read { IfOk result (λ word. text_in (data_at (key_text key) (table_view table.now))
        ≡ word) }
    ensures refused { IfErr result (λ fault. IsPlaced fault
        (key_fault (required key (WordShape MOST)) (table_view table.now))) }
{
    word(alloc, key, required_at(table, key)?)
}

/// The filter that an element of the array at this key is.
fn filter(alloc: Global, key: TableKey, value: &Value) -> Result<PermitFilter, PlacedFault>
    ensures read { IfOk result (λ filter. filter_in (view value.now) ≡ Some filter) }
    ensures refused { IfErr result (λ fault. IsPlaced fault
        (bad_unless key (filter_in (view value.now)))) }
{
    let Some(text) = value.as_str() else {
        return Err(PlacedFault::at(key, TableFault::BadValue));
    };
    let Some(filter) = PermitFilter::read(alloc, text.as_bytes())? else {
        return Err(PlacedFault::at(key, TableFault::BadValue));
    };
    Ok(filter)
}

/// The one or two filters that the elements of the array at this key are.
fn filters(alloc: Global, key: TableKey, values: &[Value]) -> Result<PermitFilters, PlacedFault>
    ensures judged { IfOk result (λ _. bad_unless key
        (filters_among filters_limit (map view values.now)) ≡ None) }
    ensures read { IfOk result (λ filters. all_of filter_in (map view values.now)
        ≡ Some filters) }
    ensures refused { IfErr result (λ fault. IsPlaced fault (bad_unless key
        (filters_among filters_limit (map view values.now)))) }
{
    let mut filters = Vec::new(alloc);
    for value in values {
        filters.push(filter(alloc, key, value)?)?;
    }
    let Some(filters) = BoundedList::of(filters) else {
        return Err(PlacedFault::at(key, TableFault::BadValue));
    };
    Ok(filters)
}

/// The one or two filters at a key that has to stand.
#[tactic(auto, using(crate::proofs::Faults::is_placed, crate::proofs::Lists::filters_are), unfolding(crate::specs::Judgement::key_fault, crate::specs::Judgement::shape_fault))]
pub fn filters_at(alloc: Global, table: &Table, key: TableKey) -> Result<PermitFilters, PlacedFault>
    ensures judged { IfOk result (λ _. key_fault (required key (Filters filters_limit))
        (table_view table.now) ≡ None) }
    ensures read { IfOk result (λ filters. filters_in (key_text key) (table_view table.now)
        ≡ filters) }
    ensures refused { IfErr result (λ fault. IsPlaced fault
        (key_fault (required key (Filters filters_limit)) (table_view table.now))) }
{
    filters(alloc, key, list(key, required_at(table, key)?, 2)?)
}
