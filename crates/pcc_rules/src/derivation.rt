//! All rules of a session, with their names: those that the operator gives each session of an access point, and the rule of one
//! flow of an application function's session (TS 29.213, 6.3).
ghost use Rattle.std.specs.Prelude.{◌≡◌, ◌<◌, ◌≤◌, ◌++◌, codes, length, IfOk, [], map, if◌then◌else◌, min, OnOk};
ghost use Rattle.pcrf_values.specs.Limits.{rule_name_limit};
ghost use Rattle.pcrf_model.specs.Flows.{flow_rule_name, class_of, flow_rate, Uplink, Downlink};
ghost use Rattle.pcc_rules.specs.FlowsAlone.{flow_of, alone, flow_id, flow_facts, AreLow, AreLowWhereBound, rules_of_flows, rules_of_sessions};
ghost use Rattle.pcrf_model.specs.Sessions.{gx, af};
ghost use Rattle.pcrf_model.specs.Rules.{operator_rule, operator_rules, rule_of, rules};
ghost use Rattle.bind_index.specs.Beside.{beside};
ghost use Rattle.pcc_rules.specs.Listing.{RowNamesApart, keyed, keyed_cmp, unkeyed};
ghost use Rattle.std.proofs.Common.{unwrap_or};
ghost use Rattle.pcrf_values.specs.Numbers.{flow_usage_number, preemption_number};
ghost use Rattle.pcrf_values.specs.Held.{entry_shown};
ghost use Rattle.pcrf_values.specs.FlowWords.{has_usage, flows};
ghost use Rattle.pcrf_values.specs.Ascending.{ascending};
ghost use Rattle.pcrf_values.specs.Sets.{Distinct};
ghost use Rattle.pcrf_model.specs.Views.{view};
ghost use Rattle.pcrf_model.specs.Bindings.{is_bound_to};
ghost use Rattle.pcrf_model.specs.Differences.{rule_name_of};

use af_records::AfRec;
use bind_index::bind;
use gx_records::GxRec;
use op_tables::{Class, OperatorRule, OperatorRuleName, Tables};
use pcrf_values::{
    AfSid, FlowUsage, GxSid, Ranked, Rule, RuleName, RuleQos, ascending_of, texts_of,
};
use site_join::{Entries, State};
use std::alloc::{AllocError, Global};

/// The name under which a gateway knows a rule of the operator: `op/` and the name in the tables.
pub(crate) fn operator_name(alloc: Global, name: &OperatorRuleName) -> Result<RuleName, AllocError>
    ensures { IfOk result (λ text. text ≡ codes "op/" ++ name.now) }
{
    let mut text = Vec::from_slice(alloc, b"op/")?;
    text.extend_from_slice(name.text().as_slice())?;
    name_of(text)
}

/// The name of the rule of a flow: `af/`, the Session-Id, and the numbers of component and flow, parted by `/`.
pub(crate) fn flow_name(
    alloc: Global,
    session: &AfSid,
    component: u32,
    flow: u32,
) -> Result<RuleName, AllocError>
    ensures { IfOk result (λ text. text
        ≡ flow_rule_name (flow_of session.now component flow)) }
{
    let numbers = format!(in alloc; "/{component}/{flow}")?;
    let mut text = Vec::from_slice(alloc, b"af/")?;
    text.extend_from_slice(session.as_slice())?;
    text.extend_from_slice(numbers.as_bytes())?;
    name_of(text)
}

/// The name with these bytes.
fn name_of(bytes: Vec<u8>) -> Result<RuleName, AllocError>
    requires not_empty { 0 < length bytes.items }
    requires within { length bytes.items ≤ rule_name_limit }
    ensures { IfOk result (λ name. name ≡ bytes.items) }
{
    let Some(name) = RuleName::of(bytes)? else {
        unreachable!()
    };
    Ok(name)
}

/// The rules of the access point that the session shows, each with its precedence in front.
pub fn operator_rules(
    alloc: Global,
    tables: &Tables,
    gateway: &GxRec,
) -> Result<Vec<(u32, Rule)>, AllocError>
    ensures given { IfOk result (λ rules. rules.items
        ≡ map keyed (operator_rules tables.now (beside gateway.now []) (gx []))) }
    ensures apart { IfOk result (λ _. RowNamesApart tables.now (beside gateway.now []) (gx [])) }
{
    let mut rules = Vec::new(alloc);
    let Some((_, name)) = gateway.apn() else {
        return Ok(rules);
    };
    let Some(point) = tables.apn(name) else {
        return Ok(rules);
    };
    for rule in point.rules() {
        rules.push((rule.class().precedence(), of_operator(alloc, rule)?))?;
    }
    Ok(rules)
}

/// The rule of a gateway's session that a rule of the tables stands for.
fn of_operator(alloc: Global, rule: &OperatorRule) -> Result<Rule, AllocError>
    ensures { IfOk result (λ made. made ≡ operator_rule rule.now) }
{
    let name = operator_name(alloc, rule.name())?;
    let filters = texts_of(alloc, rule.filters())?;
    let class = rule.class();
    Rule::of(
        alloc,
        name,
        rule.status(),
        filters,
        class.qos(),
        class.precedence(),
    )
}

/// The Media-Type of a component that shows none.
const NO_MEDIA_TYPE: u32 = 0xFFFF_FFFF;

/// A flow of a session.
#[derive(Clone, Copy)]
pub(crate) struct Flow<'r> {
    pub(crate) session: &'r AfSid,
    /// What is known of the session.
    pub(crate) known: &'r AfRec,
    /// The Media-Component-Number.
    pub(crate) component: u32,
    /// The Flow-Number.
    pub(crate) number: u32,
}

impl Flow<'_> {
    /// The rule of the flow, if it has filters, and its service a class.
    pub(crate) fn rule(&self, alloc: Global, tables: &Tables) -> Result<Option<Rule>, AllocError>
        ensures { IfOk result (λ rule. rule
            ≡ rule_of tables.now (alone (flow_facts self.now)) (flow_id self.now)) }
    {
        let Some((_, filters)) = self.known.flow_descriptions(self.component, self.number) else {
            return Ok(None);
        };
        let Some(class) = self.class(tables) else {
            return Ok(None);
        };
        let name = flow_name(alloc, self.session, self.component, self.number)?;
        let filters = filters.try_copy()?;
        let status = self.known.flow_status(self.component, self.number);
        let qos = self.qos(tables, class);
        let precedence = class.precedence();
        let rule = Rule::of(alloc, name, status, filters, qos, precedence)?;
        Ok(Some(rule))
    }

    /// The class of its service: that of signalling, or that of its media, if they have one.
    fn class(&self, tables: &Tables) -> Option<Class>
        ensures { result ≡ class_of tables.now (alone (flow_facts self.now)) (flow_id self.now) }
    {
        if self.has_usage(FlowUsage::AfSignalling) {
            return Some(tables.signalling());
        }
        match self.known.component_media_type(self.component) {
            Some((_, media_type)) => tables.media(*media_type),
            None => tables.media(NO_MEDIA_TYPE),
        }
    }

    /// The flow shows this Flow-Usage.
    fn has_usage(&self, usage: FlowUsage) -> bool
        ensures { result
            ≡ has_usage (entry_shown (flow_facts self.now)) self.now.component self.now.number
            (flow_usage_number usage) }
    {
        match self.known.flow_usage(self.component, self.number) {
            Some((_, told)) => told.value() == usage,
            None => false,
        }
    }

    /// The quality of service of its class, with its own bit rates below the caps.
    fn qos(&self, tables: &Tables, class: Class) -> RuleQos
        ensures class { result.class ≡ class.qci }
        ensures level { result.priority.level ≡ class.priority }
        ensures capability { preemption_number result.priority.capability ≡ class.capability }
        ensures vulnerability { preemption_number result.priority.vulnerability
            ≡ class.vulnerability }
        ensures uplink { result.max_uplink
            ≡ flow_rate tables.now (alone (flow_facts self.now)) (flow_id self.now) Uplink class.max_ul }
        ensures downlink { result.max_downlink
            ≡ flow_rate tables.now (alone (flow_facts self.now)) (flow_id self.now) Downlink class.max_dl }
    {
        let caps = class.qos();
        let given = self.known.flow_rates(self.component, self.number);
        let is_rtcp = self.has_usage(FlowUsage::Rtcp);
        RuleQos {
            class: caps.class,
            priority: caps.priority,
            max_uplink: rate(given.up, is_rtcp, tables.rtcp(), caps.max_uplink),
            max_downlink: rate(given.down, is_rtcp, tables.rtcp(), caps.max_downlink),
        }
    }
}

/// The bit rate of a flow in one direction, in bit/s: the one given, else for RTCP the operator's, else the cap, and never
/// above the cap.
fn rate(given: Option<u32>, is_rtcp: bool, rtcp: u32, cap: u32) -> u32
    ensures { result ≡ min (unwrap_or given (if is_rtcp then rtcp else cap)) cap }
{
    let asked = match given {
        Some(rate) => rate,
        None if is_rtcp => rtcp,
        None => cap,
    };
    asked.min(cap)
}

/// The PCC rules of a gateway's session, by precedence and then by name, and no two of one name: the operator's rules of its
/// access point, and the rule of each flow with filters and a class of each application function's session that is bound to
/// it; none where the session isn't live. Rates are in bit/s. Its time grows with the number of application functions'
/// sessions times that of gateways' sessions.
pub fn derive(
    alloc: Global,
    tables: &Tables,
    state: &State,
    session: &GxSid,
) -> Result<Vec<Rule>, AllocError>
    ensures derived { IfOk result (λ made. made.items
        ≡ rules tables.now (view state.now.facts) (gx session.now)) }
    ensures names_apart { IfOk result (λ made. Distinct (map rule_name_of made.items)) }
{
    let Some(gateway) = state.gx(session) else {
        return Ok(Vec::new(alloc));
    };
    if !gateway.live() {
        return Ok(Vec::new(alloc));
    }
    let mut found = operator_rules(alloc, tables, gateway)?;
    add_bound(alloc, &mut found, tables, state, session, state.all_af())?;
    in_order(alloc, found)
}

/// Adds the rules of those of the sessions that are bound to the gateway's session.
fn add_bound(
    alloc: Global,
    found: &mut Vec<(u32, Rule)>,
    tables: &Tables,
    state: &State,
    session: &GxSid,
    sessions: Entries<'_, AfSid, AfRec>,
) -> Result<(), AllocError>
    ensures added { OnOk result (found.new.items
        ≡ found.old.items ++ map keyed (rules_of_sessions tables.now
        (view state.now.facts) (gx session.now) sessions.entry)) }
    ensures low { OnOk result (AreLowWhereBound
        (view state.now.facts) (gx session.now) sessions.entry) }
{
    for (asking, known) in sessions {
        if is_bound(state, asking, session) {
            add_flows(alloc, found, tables, asking, known)?;
        }
    }
    Ok(())
}

/// The application function's session is bound to the gateway's session.
fn is_bound(state: &State, asking: &AfSid, session: &GxSid) -> bool
    ensures { result ≡ is_bound_to (view state.now.facts) (gx session.now) (af asking.now) }
{
    match bind(state, asking) {
        Some(bound) => bound.cmp(session).is_eq(),
        None => false,
    }
}

/// Adds the rules of the flows of one session.
pub fn add_flows(
    alloc: Global,
    found: &mut Vec<(u32, Rule)>,
    tables: &Tables,
    session: &AfSid,
    known: &AfRec,
) -> Result<(), AllocError>
    ensures added { OnOk result (found.new.items
        ≡ found.old.items ++ map keyed (rules_of_flows tables.now session.now known.now)) }
    ensures low { OnOk result (AreLow (flows known.now)) }
{
    for (component, number) in known.flows() {
        let flow = Flow {
            session,
            known,
            component,
            number,
        };
        if let Some(rule) = flow.rule(alloc, tables)? {
            found.push((rule.precedence(), rule))?;
        }
    }
    Ok(())
}

/// The rules by precedence and then by name.
pub fn in_order(alloc: Global, found: Vec<(u32, Rule)>) -> Result<Vec<Rule>, AllocError>
    ensures { IfOk result (λ made. made.items ≡ map unkeyed (ascending keyed_cmp found.items)) }
{
    let found = ascending_of(alloc, found)?;
    let mut made = Vec::with_capacity(alloc, found.len())?;
    for (_, rule) in found {
        made.push(rule)?;
    }
    Ok(made)
}
