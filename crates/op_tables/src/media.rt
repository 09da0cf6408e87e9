//! The classes of service by Media-Type (TS 29.214, 5.3.19).
ghost use Rattle.std.specs.Prelude.{◌≡◌, [], codes, IfOk, IfErr, OnOk, None, map};
ghost use Rattle.std.specs.BTreeMap.{insert_entry};
ghost use Rattle.std.specs.Ordering.{nat_cmp};
ghost use Rattle.toml.specs.View.{view, table_view};
ghost use Rattle.op_tables.specs.Places.{media_key};
ghost use Rattle.op_tables.specs.Values.{rows_at as rows_of};
ghost use Rattle.op_tables.specs.Judgement.{key_fault, media_judged, media_fault, fault_of_rows, IsPlaced};
ghost use Rattle.op_tables.specs.declared.place.TableKey.TheVariants as key;
ghost use Rattle.op_tables.specs.Meaning.{media_of, media_type, row_class, is_media_taken};

use crate::class::{Class, read_class};
use crate::fault::{PlacedFault, TableFault};
use crate::limits::MOST_MEDIA;
use crate::place::{Step, TableKey};
use crate::reading::{number_at, rows_at, table};
use std::alloc::Global;
use std::collections::BTreeMap;
use toml::{Table, Value};

/// Adds the class of one row to those above it.
#[tactic(auto, using(crate::proofs::Faults::is_placed), unfolding(crate::specs::Judgement::row_judged))]
fn add_media(media: &mut BTreeMap<u32, Class>, row: &Value) -> Result<(), PlacedFault>
    ensures judged { OnOk result (media_judged (is_media_taken media.old.entries (view row.now))
        (view row.now) ≡ None) }
    ensures added { OnOk result (media.new.entries ≡ insert_entry nat_cmp media.old.entries
        (media_type (view row.now)) (row_class (view row.now))) }
    ensures refused { IfErr result (λ fault. IsPlaced fault (media_judged
        (is_media_taken media.old.entries (view row.now)) (view row.now))) }
{
    let table = table(row)?;
    let kind = number_at(table, TableKey::MediaType)?;
    if media.contains_key(&kind) {
        return Err(PlacedFault::at(TableKey::MediaType, TableFault::DuplicateRow));
    }
    let class = read_class(table)?;
    media.insert(kind, class)?;
    Ok(())
}

/// Reads the classes of all rows.
fn read_media(alloc: Global, rows: &[Value]) -> Result<BTreeMap<u32, Class>, PlacedFault>
    ensures judged { IfOk result (λ _. fault_of_rows key.Media media_fault [] (map view rows.now)
        ≡ None) }
    ensures read { IfOk result (λ media. media.entries ≡ media_of (map view rows.now)) }
    ensures refused { IfErr result (λ fault. IsPlaced fault
        (fault_of_rows key.Media media_fault [] (map view rows.now))) }
{
    let mut media = BTreeMap::new(alloc);
    for (above, row) in rows.iter().enumerate() {
        if let Err(fault) = add_media(&mut media, row) {
            return Err(fault.within(Step::row(TableKey::Media, above + 1)));
        }
    }
    Ok(media)
}

/// Reads the classes by Media-Type, if there are any.
pub fn media_at(alloc: Global, document: &Table) -> Result<BTreeMap<u32, Class>, PlacedFault>
    ensures judged { IfOk result (λ _. key_fault media_key (table_view document.now) ≡ None) }
    ensures read { IfOk result (λ media. media.entries
        ≡ media_of (rows_of (codes "media") (table_view document.now))) }
    ensures refused { IfErr result (λ fault. IsPlaced fault
        (key_fault media_key (table_view document.now))) }
{
    read_media(alloc, rows_at(document, TableKey::Media, MOST_MEDIA)?)
}
