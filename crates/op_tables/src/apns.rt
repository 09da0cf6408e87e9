//! Access points by name, the operator's rules of an access point, and the texts of visible bytes that these are named by.
ghost use Rattle.std.specs.Prelude.{◌≡◌, IfOk, option_and_then, ◌++◌, ◌∷◌, [], codes, IfErr, OnOk, None, map};
ghost use Rattle.std.specs.List.{list_all};
ghost use Rattle.pcrf_values.specs.Texts.{one_to};
ghost use Rattle.op_tables.specs.Values.{is_visible, visible, number_at as number_of, rows_at as rows_of};
ghost use Rattle.std.specs.Ordering.{is_eq};
ghost use Rattle.pcrf_values.specs.Orders.{text_cmp};
ghost use Rattle.pcrf_values.specs.Numbers.{flow_status_number};
ghost use Rattle.toml.specs.View.{view, table_view};
ghost use Rattle.op_tables.specs.Places.{flow_keys, rule_keys, rules_key, apn_keys, apns_key};
ghost use Rattle.op_tables.specs.Judgement.{key_fault, keys_fault, rule_judged, rule_fault, fault_of_rows, IsPlaced, apn_judged, apn_fault};
ghost use Rattle.op_tables.specs.declared.place.TableKey.TheVariants as key;
ghost use Rattle.op_tables.specs.Meaning.{class_of, filters_in, rule_of, rule_name, has_rule, apn_of, apn_name, apns_of, row_apn, is_apn_taken};
ghost use Rattle.std.specs.BTreeMap.{insert_entry};

use crate::class::{Class, read_class};
use crate::copies::TryCopy;
use crate::fault::{PlacedFault, TableFault};
use crate::limits::{MOST_APNS, MOST_RULES};
use crate::place::{Step, TableKey};
use crate::quality::read_default;
use crate::reading::{rows_at, status_at, table};
use crate::texts::{filters_at, name_at, word_at};
use pcrf_values::limits::OPERATOR_RULE_NAME_LIMIT;
use pcrf_values::{Apn, BoundedText, DefaultQuality, FlowStatus, PermitFilters, Ranked};
use std::alloc::{AllocError, Global};
use std::collections::BTreeMap;
use std::marker::Model;
use toml::{Table, Value};

/// A text of 1 to `MOST` bytes, each a visible one of ASCII: from the exclamation mark to the tilde.
#[derive(Drop)]
pub struct Word<const MOST: usize> {
    text: BoundedText<MOST>,
}

impl<const MOST: usize> Model for Word<MOST> {
    ghost use Rattle.std.specs.Prelude.{◌≡◌, ℕ, List, true};
    ghost use Rattle.std.specs.List.{list_all};
    ghost use Rattle.op_tables.specs.Values.{is_visible};

    ghost Value = { List ℕ };

    ghost view = { λ w. w.text };

    ghost invariant = { λ w. list_all is_visible w.text ≡ true };
}

/// Whether a byte is visible.
fn is_visible(byte: u8) -> bool
    ensures { result ≡ is_visible byte }
{
    (b'!'..=b'~').contains(&byte)
}

/// Whether all bytes are visible.
fn are_visible(bytes: &[u8]) -> bool
    ensures { result ≡ list_all is_visible bytes.now }
{
    bytes.iter().all(|&byte| is_visible(byte))
}

impl<const MOST: usize> Word<MOST> {
    /// The word of a copy of these bytes; `None` where they are none.
    pub fn read(alloc: Global, bytes: &[u8]) -> Result<Option<Word<MOST>>, AllocError>
        ensures { IfOk result (λ word. word ≡ option_and_then visible (one_to MOST bytes.now)) }
    {
        let Some(text) = BoundedText::read(alloc, bytes)? else {
            return Ok(None);
        };
        if !are_visible(bytes) {
            return Ok(None);
        }
        Ok(Some(Word { text }))
    }

    /// The text.
    pub fn text(&self) -> &BoundedText<MOST>
        ensures { result.now ≡ self.now }
    {
        &self.text
    }

    /// An equal word.
    pub fn try_copy(&self) -> Result<Word<MOST>, AllocError>
        ensures { IfOk result (λ word. word ≡ self.now) }
    {
        Ok(Word {
            text: self.text.try_copy()?,
        })
    }
}

/// The name that the operator gives a rule. Gateways know it with `op/` in front.
pub type OperatorRuleName = Word<OPERATOR_RULE_NAME_LIMIT>;

/// Which packets a rule picks, and the directions that are open to them.
#[derive(Drop)]
struct RuleFlow {
    status: FlowStatus,
    filters: PermitFilters,
}

/// What a rule has beside its name.
#[derive(Drop)]
struct RuleBody {
    class: Class,
    flow: RuleFlow,
}

/// A rule that each session of an access point has.
#[derive(Drop)]
pub struct OperatorRule {
    name: OperatorRuleName,
    body: RuleBody,
}

impl Model for OperatorRule {
    ghost use Rattle.pcrf_values.specs.Numbers.{flow_status_number};
    ghost use Rattle.pcrf_model.specs.Tables.{OperatorRule as RuleValue};

    ghost Value = { RuleValue };

    ghost view = { λ r. record { name = r.name; class = r.body.class; status = flow_status_number r.body.flow.status; filters = r.body.flow.filters } };
}

impl OperatorRule {
    /// The name.
    pub fn name(&self) -> &OperatorRuleName
        ensures { result.now ≡ self.now.name }
    {
        &self.name
    }

    /// The class of service.
    pub fn class(&self) -> Class
        ensures { result ≡ self.now.class }
    {
        self.body.class
    }

    /// Which directions are open.
    pub fn status(&self) -> FlowStatus
        ensures { flow_status_number result ≡ self.now.status }
    {
        self.body.flow.status
    }

    /// The filters that pick the packets.
    pub fn filters(&self) -> &PermitFilters
        ensures { result.now ≡ self.now.filters }
    {
        &self.body.flow.filters
    }

    /// An equal rule.
    pub fn try_copy(&self) -> Result<OperatorRule, AllocError>
        ensures { IfOk result (λ rule. rule ≡ self.now) }
    {
        let name = self.name.try_copy()?;
        let flow = RuleFlow {
            status: self.body.flow.status,
            filters: self.body.flow.filters.try_copy()?,
        };
        let body = RuleBody {
            class: self.body.class,
            flow,
        };
        Ok(OperatorRule { name, body })
    }

    /// Whether the rule has this name.
    fn is_named(&self, name: &OperatorRuleName) -> bool
        ensures { result ≡ is_eq (text_cmp name.now self.now.name) }
    {
        name.text().as_slice() == self.name.text().as_slice()
    }
}

/// Whether one of the rules has this name.
fn has_rule(rules: &[OperatorRule], name: &OperatorRuleName) -> bool
    ensures { result ≡ has_rule rules.now name.now }
{
    rules.iter().any(|rule| rule.is_named(name))
}

/// Reads what picks the packets of a rule.
#[tactic(auto, using(crate::proofs::Faults::is_placed), unfolding(crate::specs::Judgement::keys_fault))]
fn read_flow(alloc: Global, table: &Table) -> Result<RuleFlow, PlacedFault>
    ensures judged { IfOk result (λ _. keys_fault flow_keys (table_view table.now) ≡ None) }
    ensures status { IfOk result (λ flow. flow_status_number flow.status
        ≡ number_of (codes "status") (table_view table.now)) }
    ensures filters { IfOk result (λ flow. flow.filters
        ≡ filters_in (codes "filters") (table_view table.now)) }
    ensures refused { IfErr result (λ fault. IsPlaced fault
        (keys_fault flow_keys (table_view table.now))) }
{
    let status = status_at(table, TableKey::Status)?;
    let filters = filters_at(alloc, table, TableKey::Filters)?;
    Ok(RuleFlow { status, filters })
}

/// Reads a rule's class, and what picks its packets.
#[tactic(auto, using(crate::proofs::Faults::is_placed, crate::proofs::Faults::class_goes_on, crate::proofs::Faults::class_stops))]
fn read_body(alloc: Global, table: &Table) -> Result<RuleBody, PlacedFault>
    ensures judged { IfOk result (λ _. keys_fault rule_keys (table_view table.now) ≡ None) }
    ensures class { IfOk result (λ body. body.class ≡ class_of (table_view table.now)) }
    ensures status { IfOk result (λ body. flow_status_number body.flow.status
        ≡ number_of (codes "status") (table_view table.now)) }
    ensures filters { IfOk result (λ body. body.flow.filters
        ≡ filters_in (codes "filters") (table_view table.now)) }
    ensures refused { IfErr result (λ fault. IsPlaced fault
        (keys_fault rule_keys (table_view table.now))) }
{
    let class = read_class(table)?;
    let flow = read_flow(alloc, table)?;
    Ok(RuleBody { class, flow })
}

/// Adds the rule of one row to those above it.
#[tactic(auto, using(crate::proofs::Faults::is_placed), unfolding(crate::specs::Judgement::row_judged))]
fn add_rule(alloc: Global, rules: &mut Vec<OperatorRule>, row: &Value) -> Result<(), PlacedFault>
    ensures judged { OnOk result (rule_judged
        (has_rule rules.old.items (rule_name (view row.now))) (view row.now) ≡ None) }
    ensures added { OnOk result (rules.new.items ≡ rules.old.items ++ rule_of (view row.now) ∷ []) }
    ensures refused { IfErr result (λ fault. IsPlaced fault (rule_judged
        (has_rule rules.old.items (rule_name (view row.now))) (view row.now))) }
{
    let table = table(row)?;
    let name = word_at(alloc, table, TableKey::Name)?;
    if has_rule(rules.as_slice(), &name) {
        return Err(PlacedFault::at(TableKey::Name, TableFault::DuplicateRow));
    }
    let body = read_body(alloc, table)?;
    rules.push(OperatorRule { name, body })?;
    Ok(())
}

/// Reads the rules of all rows, in their order.
fn read_rules(alloc: Global, rows: &[Value]) -> Result<Vec<OperatorRule>, PlacedFault>
    ensures judged { IfOk result (λ _. fault_of_rows key.Rule rule_fault [] (map view rows.now)
        ≡ None) }
    ensures read { IfOk result (λ rules. rules.items ≡ map rule_of (map view rows.now)) }
    ensures refused { IfErr result (λ fault. IsPlaced fault
        (fault_of_rows key.Rule rule_fault [] (map view rows.now))) }
{
    let mut rules = Vec::new(alloc);
    for (above, row) in rows.iter().enumerate() {
        if let Err(fault) = add_rule(alloc, &mut rules, row) {
            return Err(fault.within(Step::row(TableKey::Rule, above + 1)));
        }
    }
    Ok(rules)
}

/// Reads the rules of an access point, if it has any.
pub fn rules_at(alloc: Global, point: &Table) -> Result<Vec<OperatorRule>, PlacedFault>
    ensures judged { IfOk result (λ _. key_fault rules_key (table_view point.now) ≡ None) }
    ensures read { IfOk result (λ rules. rules.items
        ≡ map rule_of (rows_of (codes "rule") (table_view point.now))) }
    ensures refused { IfErr result (λ fault. IsPlaced fault
        (key_fault rules_key (table_view point.now))) }
{
    read_rules(alloc, rows_at(point, TableKey::Rule, MOST_RULES)?)
}

/// What an access point has beside its name.
#[derive(Drop)]
pub struct AccessPoint {
    default: Option<DefaultQuality>,
    rules: Vec<OperatorRule>,
}

impl Model for AccessPoint {
    ghost use Rattle.pcrf_model.specs.Tables.{ApnRow};

    ghost Value = { ApnRow };

    ghost view = { λ a. record { default = a.default; rules = a.rules.items } };
}

impl AccessPoint {
    /// The default quality of its sessions, where the operator gives one.
    pub fn default_quality(&self) -> Option<DefaultQuality>
        ensures { result ≡ self.now.default }
    {
        self.default
    }

    /// The rules that each of its sessions has, as the operator wrote them, one below the other.
    pub fn rules(&self) -> &[OperatorRule]
        ensures { result.now ≡ self.now.rules }
    {
        self.rules.as_slice()
    }
}

impl TryCopy for AccessPoint {
    fn try_copy(&self, alloc: Global) -> Result<AccessPoint, AllocError> {
        let mut rules = Vec::with_capacity(alloc, self.rules.len())?;
        for rule in self.rules() {
            rules.push(rule.try_copy()?)?;
        }
        Ok(AccessPoint {
            default: self.default,
            rules,
        })
    }
}

/// Reads what an access point has beside its name.
#[tactic(auto, using(crate::proofs::Faults::is_placed), unfolding(crate::specs::Judgement::keys_fault))]
fn read_point(alloc: Global, table: &Table) -> Result<AccessPoint, PlacedFault>
    ensures judged { IfOk result (λ _. keys_fault apn_keys (table_view table.now) ≡ None) }
    ensures read { IfOk result (λ point. point ≡ apn_of (table_view table.now)) }
    ensures refused { IfErr result (λ fault. IsPlaced fault
        (keys_fault apn_keys (table_view table.now))) }
{
    let default = read_default(table)?;
    let rules = rules_at(alloc, table)?;
    Ok(AccessPoint { default, rules })
}

/// Adds the access point of one row to those above it.
#[tactic(auto, using(crate::proofs::Faults::is_placed), unfolding(crate::specs::Judgement::row_judged))]
fn add_apn(
    alloc: Global,
    apns: &mut BTreeMap<Apn, AccessPoint>,
    row: &Value,
) -> Result<(), PlacedFault>
    ensures judged { OnOk result (apn_judged (is_apn_taken apns.old.entries (view row.now))
        (view row.now) ≡ None) }
    ensures added { OnOk result (apns.new.entries ≡ insert_entry text_cmp apns.old.entries
        (apn_name (view row.now)) (row_apn (view row.now))) }
    ensures refused { IfErr result (λ fault. IsPlaced fault (apn_judged
        (is_apn_taken apns.old.entries (view row.now)) (view row.now))) }
{
    let table = table(row)?;
    let name = name_at(alloc, table, TableKey::Name)?;
    if apns.contains_key(&name) {
        return Err(PlacedFault::at(TableKey::Name, TableFault::DuplicateRow));
    }
    let point = read_point(alloc, table)?;
    apns.insert(name, point)?;
    Ok(())
}

/// Reads the access points of all rows.
fn read_apns(alloc: Global, rows: &[Value]) -> Result<BTreeMap<Apn, AccessPoint>, PlacedFault>
    ensures judged { IfOk result (λ _. fault_of_rows key.Apn apn_fault [] (map view rows.now)
        ≡ None) }
    ensures read { IfOk result (λ apns. apns.entries ≡ apns_of (map view rows.now)) }
    ensures refused { IfErr result (λ fault. IsPlaced fault
        (fault_of_rows key.Apn apn_fault [] (map view rows.now))) }
{
    let mut apns = BTreeMap::new(alloc);
    for (above, row) in rows.iter().enumerate() {
        if let Err(fault) = add_apn(alloc, &mut apns, row) {
            return Err(fault.within(Step::row(TableKey::Apn, above + 1)));
        }
    }
    Ok(apns)
}

/// Reads the access points, if there are any.
pub fn apns_at(alloc: Global, document: &Table) -> Result<BTreeMap<Apn, AccessPoint>, PlacedFault>
    ensures judged { IfOk result (λ _. key_fault apns_key (table_view document.now) ≡ None) }
    ensures read { IfOk result (λ apns. apns.entries
        ≡ apns_of (rows_of (codes "apn") (table_view document.now))) }
    ensures refused { IfErr result (λ fault. IsPlaced fault
        (key_fault apns_key (table_view document.now))) }
{
    read_apns(alloc, rows_at(document, TableKey::Apn, MOST_APNS)?)
}
