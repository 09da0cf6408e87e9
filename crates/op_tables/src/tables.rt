//! Operator tables.
ghost use Rattle.std.specs.Prelude.{◌≡◌, IfOk, IfErr, Some, None, option_map};
ghost use Rattle.std.specs.Option.{option_copied};
ghost use Rattle.toml.specs.View.{table_view};
ghost use Rattle.toml.specs.Parse.{parse_document};
ghost use Rattle.pcrf_model.specs.Tables.{media_class, apn_row};
ghost use Rattle.op_tables.specs.Places.{top_keys};
ghost use Rattle.op_tables.specs.Judgement.{keys_fault, placed_fault, document_fault, IsFault, IsPlaced};
ghost use Rattle.op_tables.specs.Meaning.{tables_of};
ghost use Rattle.op_tables.specs.Statements.{NamesRulesApart};

use crate::apns::{AccessPoint, apns_at};
use crate::class::{Class, class_at};
use crate::copies::copy_of;
use crate::fault::{PlacedFault, TableFault};
use crate::media::media_at;
use crate::place::TableKey;
use crate::reading::number_at;
use pcrf_values::Apn;
use std::alloc::{AllocError, Global};
use std::collections::BTreeMap;
use std::marker::Model;
use toml::Table;

/// The operator's tables. Look-ups take no memory, and their time grows with the logarithm of the number of rows.
#[derive(Drop)]
pub struct Tables {
    edition: u32,
    rtcp_bps: u32,
    signalling: Class,
    media: BTreeMap<u32, Class>,
    apns: BTreeMap<Apn, AccessPoint>,
}

impl Model for Tables {
    ghost use Rattle.pcrf_model.specs.Tables.{Tables as TablesValue};
    ghost use Rattle.op_tables.specs.Statements.{NamesRulesApart};
    ghost use Rattle.op_tables.specs.TableViews.{tables_value};

    ghost Value = { TablesValue };

    ghost view = { λ t. tables_value t.edition t.rtcp_bps t.signalling t.media.entries t.apns.entries };

    ghost invariant = { λ t. NamesRulesApart (tables_value t.edition t.rtcp_bps t.signalling t.media.entries t.apns.entries) };
}

impl Tables {
    /// The edition, by which sites tell whether they have the same tables.
    pub fn edition(&self) -> u32
        ensures { result ≡ self.now.edition }
    {
        self.edition
    }

    /// The bit rate of an RTCP flow (TS 29.213, 6.3), in bit/s, where the flow asks for none of its own.
    pub fn rtcp(&self) -> u32
        ensures { result ≡ self.now.rtcp_bps }
    {
        self.rtcp_bps
    }

    /// The class of flows that carry the signalling of an application (Flow-Usage AF_SIGNALLING, TS 29.214, 5.3.12).
    pub fn signalling(&self) -> Class
        ensures { result ≡ self.now.signalling }
    {
        self.signalling
    }

    /// The class of a Media-Type (TS 29.214, 5.3.19), where it has a row.
    pub fn media(&self, media_type: u32) -> Option<Class>
        ensures { result ≡ media_class self.now media_type }
    {
        match self.media.get(&media_type) {
            Some(class) => Some(*class),
            None => None,
        }
    }

    /// The access point of a name, where it has a row.
    pub fn apn(&self, name: &Apn) -> Option<&AccessPoint>
        ensures row { option_copied result ≡ apn_row self.now name.now }
        ensures apart { NamesRulesApart self.now }
    {
        self.apns.get(name)
    }

    /// Equal tables.
    pub fn try_copy(&self, alloc: Global) -> Result<Tables, AllocError>
        ensures { IfOk result (λ tables. tables ≡ self.now) }
    {
        let media = copy_of(alloc, &self.media)?;
        let apns = copy_of(alloc, &self.apns)?;
        Ok(Tables {
            edition: self.edition,
            rtcp_bps: self.rtcp_bps,
            signalling: self.signalling,
            media,
            apns,
        })
    }
}

/// Reads the tables of a document.
#[tactic(auto, using(crate::proofs::Faults::is_placed), unfolding(crate::specs::Judgement::keys_fault, crate::specs::Meaning::tables_of))]
fn of_document(alloc: Global, document: &Table) -> Result<Tables, PlacedFault>
    ensures judged { IfOk result (λ _. keys_fault top_keys (table_view document.now) ≡ None) }
    ensures read { IfOk result (λ tables. tables ≡ tables_of (table_view document.now)) }
    ensures refused { IfErr result (λ fault. IsPlaced fault
        (keys_fault top_keys (table_view document.now))) }
{
    let edition = number_at(document, TableKey::Edition)?;
    let rtcp_bps = number_at(document, TableKey::RtcpBps)?;
    let signalling = class_at(document, TableKey::Signalling)?;
    let media = media_at(alloc, document)?;
    let apns = apns_at(alloc, document)?;
    Ok(Tables {
        edition,
        rtcp_bps,
        signalling,
        media,
        apns,
    })
}

/// Reads operator tables, or gives the first fault and its place.
pub fn read_placed(alloc: Global, text: &str) -> Result<Tables, PlacedFault>
    ensures judged { IfOk result (λ _. placed_fault (parse_document text.now) ≡ None) }
    ensures read { IfOk result (λ tables. option_map tables_of (parse_document text.now)
        ≡ Some tables) }
    ensures apart { IfOk result NamesRulesApart }
    ensures refused { IfErr result (λ fault. IsPlaced fault
        (placed_fault (parse_document text.now))) }
{
    let document = match toml::table_from_str(alloc, text) {
        Ok(document) => document,
        Err(refused) => {
            if refused.is_memory() {
                return Err(PlacedFault::unplaced(TableFault::NoMemory));
            }
            return Err(PlacedFault::unplaced(TableFault::Syntax));
        }
    };
    of_document(alloc, &document)
}

/// Reads operator tables, or gives the first fault.
pub fn read_tables(alloc: Global, text: &str) -> Result<Tables, TableFault>
    ensures judged { IfOk result (λ _. document_fault (parse_document text.now) ≡ None) }
    ensures read { IfOk result (λ tables. option_map tables_of (parse_document text.now)
        ≡ Some tables) }
    ensures apart { IfOk result NamesRulesApart }
    ensures refused { IfErr result (λ fault. IsFault fault
        (document_fault (parse_document text.now))) }
{
    match read_placed(alloc, text) {
        Ok(tables) => Ok(tables),
        Err(placed) => Err(placed.fault),
    }
}
