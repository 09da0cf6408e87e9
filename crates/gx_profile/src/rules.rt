//! Rules and differences of rules in messages to a gateway (TS 29.212, 5.3.2 to 5.3.4), and default qualities of service in answers
//! (5.3.16 and 5.3.48).
ghost use Rattle.std.specs.Prelude.{[], ◌∷◌, OnOk, ◌≡◌, ◌≤◌, ◌+◌, ◌*◌, length, map};
ghost use Rattle.dia_codec.specs.Drafts.{Adds};
ghost use Rattle.gx_profile.specs.Avps.{allocation_retention_priority, default_eps_bearer_qos, qos_information, charging_rule_install, charging_rule_remove};
ghost use Rattle.gx_profile.specs.Qualities.{priority_avps, rate_avps, bearer_avps, quality_avps, needed, optional, tgpp_group};
ghost use Rattle.std.specs.List.{sum_by};
ghost use Rattle.pcrf_values.specs.Limits.{delta_limit};
ghost use Rattle.dia_codec.specs.Limits.{vendor_avp_header_bytes};
ghost use Rattle.dia_codec.specs.Written.{padded_len};
ghost use Rattle.gx_profile.specs.Lengths.{filter_room, name_room, rule_room, definition_room, delta_room};
ghost use Rattle.gx_profile.specs.Rules.{has_guaranteed_rate, guaranteed_avps, rule_quality_avps, name_avp, description_avps, filter_avp, rule_avps, rule_avp, remove_avps, install_avps, delta_avps};

use crate::codes::avps;
use crate::filters::{Direction, as_downlink};
use dia_base::{AvpWriter, MessageForm};
use pcrf_model::FirstEntries;
use pcrf_values::{
    DefaultQuality, FilterText, Filters, QosClass, RetentionPriority, Rule, RuleName,
};
use std::alloc::{AllocError, Global};

/// The M bit where a gateway has to understand the AVP.
pub(crate) const NEEDED: bool = true;

/// No M bit: the AVP may be passed over.
pub(crate) const OPTIONAL: bool = false;

/// Writes what an Allocation-Retention-Priority holds.
fn put_priority_avps(out: &mut AvpWriter, priority: RetentionPriority) -> Result<(), AllocError>
    ensures { OnOk result (Adds out.old out.new (priority_avps priority)) }
{
    let capability = priority.capability.number();
    let vulnerability = priority.vulnerability.number();
    out.tgpp_number(avps::PRIORITY_LEVEL, OPTIONAL, priority.level.get())?;
    out.tgpp_number(avps::PRE_EMPTION_CAPABILITY, OPTIONAL, capability)?;
    out.tgpp_number(avps::PRE_EMPTION_VULNERABILITY, OPTIONAL, vulnerability)?;
    Ok(())
}

/// Writes an Allocation-Retention-Priority.
pub(crate) fn put_priority(
    out: &mut AvpWriter,
    priority: RetentionPriority,
) -> Result<(), AllocError>
    ensures { OnOk result (Adds out.old out.new
        (tgpp_group allocation_retention_priority optional (priority_avps priority) ∷ [])) }
{
    let mark = out.open_tgpp(avps::ALLOCATION_RETENTION_PRIORITY, OPTIONAL)?;
    put_priority_avps(out, priority)?;
    out.close(mark);
    Ok(())
}

/// Writes what the QoS-Information of an access point holds.
fn put_rate_avps(out: &mut AvpWriter, quality: &DefaultQuality) -> Result<(), AllocError>
    ensures { OnOk result (Adds out.old out.new (rate_avps quality.now)) }
{
    let uplink = quality.aggregate_uplink;
    let downlink = quality.aggregate_downlink;
    out.tgpp_number(avps::APN_AGGREGATE_MAX_BITRATE_UL, OPTIONAL, uplink)?;
    out.tgpp_number(avps::APN_AGGREGATE_MAX_BITRATE_DL, OPTIONAL, downlink)?;
    Ok(())
}

/// Writes the QoS-Information of an access point.
fn put_rates(out: &mut AvpWriter, quality: &DefaultQuality) -> Result<(), AllocError>
    ensures { OnOk result (Adds out.old out.new
        (tgpp_group qos_information needed (rate_avps quality.now) ∷ [])) }
{
    let mark = out.open_tgpp(avps::QOS_INFORMATION, NEEDED)?;
    put_rate_avps(out, quality)?;
    out.close(mark);
    Ok(())
}

/// Writes what a Default-EPS-Bearer-QoS holds.
fn put_bearer_avps(out: &mut AvpWriter, quality: &DefaultQuality) -> Result<(), AllocError>
    ensures { OnOk result (Adds out.old out.new (bearer_avps quality.now)) }
{
    out.tgpp_number(avps::QOS_CLASS_IDENTIFIER, NEEDED, quality.class.get())?;
    put_priority(out, quality.priority)?;
    Ok(())
}

/// Writes a Default-EPS-Bearer-QoS.
fn put_bearer(out: &mut AvpWriter, quality: &DefaultQuality) -> Result<(), AllocError>
    ensures { OnOk result (Adds out.old out.new
        (tgpp_group default_eps_bearer_qos optional (bearer_avps quality.now) ∷ [])) }
{
    let mark = out.open_tgpp(avps::DEFAULT_EPS_BEARER_QOS, OPTIONAL)?;
    put_bearer_avps(out, quality)?;
    out.close(mark);
    Ok(())
}

/// Writes the default quality of service, where there is one.
pub(crate) fn put_quality(
    out: &mut AvpWriter,
    quality: &Option<DefaultQuality>,
) -> Result<(), AllocError>
    ensures { OnOk result (Adds out.old out.new (quality_avps quality.now)) }
{
    let Some(quality) = quality else {
        return Ok(());
    };
    put_rates(out, quality)?;
    put_bearer(out, quality)?;
    Ok(())
}

/// The last of the classes with a guaranteed bit rate, which are 1 to 4 (TS 23.203, table 6.1.7).
const LAST_GUARANTEED_CLASS: u32 = 4;

/// Whether a class has a guaranteed bit rate.
fn has_guaranteed_rate(class: QosClass) -> bool
    ensures { result ≡ has_guaranteed_rate class }
{
    class.get() <= LAST_GUARANTEED_CLASS
}

/// Writes the guaranteed bit rates of a rule, where its class has them.
fn put_guaranteed(out: &mut AvpWriter, rule: &Rule) -> Result<(), AllocError>
    ensures { OnOk result (Adds out.old out.new (guaranteed_avps rule.now)) }
{
    let qos = rule.qos();
    if !has_guaranteed_rate(qos.class) {
        return Ok(());
    }
    out.tgpp_number(avps::GUARANTEED_BITRATE_UL, NEEDED, qos.max_uplink)?;
    out.tgpp_number(avps::GUARANTEED_BITRATE_DL, NEEDED, qos.max_downlink)?;
    Ok(())
}

/// Writes what the QoS-Information of a rule holds.
#[tactic(auto, unfolding(crate::specs::Rules::rule_quality_avps))]
fn put_quality_avps(out: &mut AvpWriter, rule: &Rule) -> Result<(), AllocError>
    ensures { OnOk result (Adds out.old out.new (rule_quality_avps rule.now)) }
{
    let qos = rule.qos();
    out.tgpp_number(avps::QOS_CLASS_IDENTIFIER, NEEDED, qos.class.get())?;
    out.tgpp_number(avps::MAX_REQUESTED_BANDWIDTH_UL, NEEDED, qos.max_uplink)?;
    out.tgpp_number(avps::MAX_REQUESTED_BANDWIDTH_DL, NEEDED, qos.max_downlink)?;
    put_guaranteed(out, rule)?;
    put_priority(out, qos.priority)?;
    Ok(())
}

/// Writes the QoS-Information of a rule.
fn put_rule_quality(out: &mut AvpWriter, rule: &Rule) -> Result<(), AllocError>
    ensures { OnOk result (Adds out.old out.new
        (tgpp_group qos_information needed (rule_quality_avps rule.now) ∷ [])) }
{
    let mark = out.open_tgpp(avps::QOS_INFORMATION, NEEDED)?;
    put_quality_avps(out, rule)?;
    out.close(mark);
    Ok(())
}

/// Writes the name of a rule.
fn put_name(out: &mut AvpWriter, name: &RuleName) -> Result<(), AllocError>
    ensures added { OnOk result (Adds out.old out.new (name_avp name.now ∷ [])) }
    ensures within { OnOk result (padded_len (name_avp name.now) ≤ name_room) }
{
    out.tgpp_text(avps::CHARGING_RULE_NAME, NEEDED, name.as_slice())?;
    Ok(())
}

/// Writes what the Flow-Information of a filter holds.
#[tactic(auto, using(crate::proofs::RuleLengths::description_within))]
fn put_description(
    alloc: Global,
    out: &mut AvpWriter,
    form: MessageForm,
    filter: &FilterText,
) -> Result<(), AllocError>
    ensures added { OnOk result (Adds out.old out.new (description_avps form filter.now)) }
    ensures within { OnOk result (vendor_avp_header_bytes
        + sum_by padded_len (description_avps form filter.now) ≤ filter_room) }
{
    let text = filter.as_slice();
    match form {
        MessageForm::Own => {
            out.tgpp_text(avps::FLOW_DESCRIPTION, NEEDED, text)?;
            Ok(())
        }
        MessageForm::Standard => {
            let description = as_downlink(alloc, text)?;
            out.tgpp_text(avps::FLOW_DESCRIPTION, NEEDED, &description)?;
            let direction = Direction::of(text).number();
            out.tgpp_number(avps::FLOW_DIRECTION, OPTIONAL, direction)?;
            Ok(())
        }
    }
}

/// Writes a filter of a rule.
fn put_filter(
    alloc: Global,
    out: &mut AvpWriter,
    form: MessageForm,
    filter: &FilterText,
) -> Result<(), AllocError>
    ensures added { OnOk result (Adds out.old out.new (filter_avp form filter.now ∷ [])) }
    ensures within { OnOk result (padded_len (filter_avp form filter.now) ≤ filter_room) }
{
    let mark = out.open_tgpp(avps::FLOW_INFORMATION, OPTIONAL)?;
    put_description(alloc, out, form, filter)?;
    out.close(mark);
    Ok(())
}

/// Writes the filters of a rule, in their order.
fn put_filters(
    alloc: Global,
    out: &mut AvpWriter,
    form: MessageForm,
    filters: &Filters,
) -> Result<(), AllocError>
    ensures added { OnOk result (Adds out.old out.new (map (filter_avp form) filters.now)) }
    ensures within { OnOk result
        (sum_by padded_len (map (filter_avp form) filters.now) ≤ 2 * filter_room) }
{
    for filter in filters.as_slice() {
        put_filter(alloc, out, form, filter)?;
    }
    Ok(())
}

/// Writes what the Charging-Rule-Definition of a rule holds.
#[tactic(auto, unfolding(crate::specs::Rules::rule_avps))]
fn put_rule_avps(
    alloc: Global,
    out: &mut AvpWriter,
    form: MessageForm,
    rule: &Rule,
) -> Result<(), AllocError>
    ensures added { OnOk result (Adds out.old out.new (rule_avps form rule.now)) }
    ensures within { OnOk result (sum_by padded_len (rule_avps form rule.now) ≤ rule_room) }
{
    put_name(out, rule.name())?;
    put_filters(alloc, out, form, rule.filters())?;
    out.tgpp_number(avps::FLOW_STATUS, NEEDED, rule.status().number())?;
    put_rule_quality(out, rule)?;
    out.tgpp_number(avps::PRECEDENCE, NEEDED, rule.precedence())?;
    Ok(())
}

/// Writes a rule that is installed.
fn put_rule(
    alloc: Global,
    out: &mut AvpWriter,
    form: MessageForm,
    rule: &Rule,
) -> Result<(), AllocError>
    ensures added { OnOk result (Adds out.old out.new (rule_avp form rule.now ∷ [])) }
    ensures within { OnOk result (padded_len (rule_avp form rule.now) ≤ definition_room) }
{
    let mark = out.open_tgpp(avps::CHARGING_RULE_DEFINITION, NEEDED)?;
    put_rule_avps(alloc, out, form, rule)?;
    out.close(mark);
    Ok(())
}

/// Writes these names.
fn put_names(out: &mut AvpWriter, names: &[RuleName]) -> Result<(), AllocError>
    ensures added { OnOk result (Adds out.old out.new (map name_avp names.now)) }
    ensures within { OnOk result
        (sum_by padded_len (map name_avp names.now) ≤ name_room * length names.now) }
{
    for name in names {
        put_name(out, name)?;
    }
    Ok(())
}

/// Writes these rules.
fn put_rules(
    alloc: Global,
    out: &mut AvpWriter,
    form: MessageForm,
    rules: &[Rule],
) -> Result<(), AllocError>
    ensures added { OnOk result (Adds out.old out.new (map (rule_avp form) rules.now)) }
    ensures within { OnOk result
        (sum_by padded_len (map (rule_avp form) rules.now) ≤ definition_room * length rules.now) }
{
    for rule in rules {
        put_rule(alloc, out, form, rule)?;
    }
    Ok(())
}

/// Writes the Charging-Rule-Remove of these names.
fn put_remove(out: &mut AvpWriter, names: &[RuleName]) -> Result<(), AllocError>
    ensures added { OnOk result (Adds out.old out.new
        (tgpp_group charging_rule_remove needed (map name_avp names.now) ∷ [])) }
    ensures within { OnOk result
        (sum_by padded_len (map name_avp names.now) ≤ name_room * length names.now) }
{
    let mark = out.open_tgpp(avps::CHARGING_RULE_REMOVE, NEEDED)?;
    put_names(out, names)?;
    out.close(mark);
    Ok(())
}

/// Writes the Charging-Rule-Install of these rules.
fn put_install(
    alloc: Global,
    out: &mut AvpWriter,
    form: MessageForm,
    rules: &[Rule],
) -> Result<(), AllocError>
    ensures added { OnOk result (Adds out.old out.new
        (tgpp_group charging_rule_install needed (map (rule_avp form) rules.now) ∷ [])) }
    ensures within { OnOk result
        (sum_by padded_len (map (rule_avp form) rules.now) ≤ definition_room * length rules.now) }
{
    let mark = out.open_tgpp(avps::CHARGING_RULE_INSTALL, NEEDED)?;
    put_rules(alloc, out, form, rules)?;
    out.close(mark);
    Ok(())
}

/// Writes the names of the rules that are removed, where there are any.
fn put_removed(out: &mut AvpWriter, names: &[RuleName]) -> Result<(), AllocError>
    ensures added { OnOk result (Adds out.old out.new (remove_avps names.now)) }
    ensures within { OnOk result (sum_by padded_len (remove_avps names.now)
        ≤ vendor_avp_header_bytes + name_room * length names.now) }
{
    if names.is_empty() {
        return Ok(());
    }
    put_remove(out, names)?;
    Ok(())
}

/// Writes the rules that are installed, where there are any.
fn put_installed(
    alloc: Global,
    out: &mut AvpWriter,
    form: MessageForm,
    rules: &[Rule],
) -> Result<(), AllocError>
    ensures added { OnOk result (Adds out.old out.new (install_avps form rules.now)) }
    ensures within { OnOk result (sum_by padded_len (install_avps form rules.now)
        ≤ vendor_avp_header_bytes + definition_room * length rules.now) }
{
    if rules.is_empty() {
        return Ok(());
    }
    put_install(alloc, out, form, rules)?;
    Ok(())
}

/// Writes what is removed and installed.
#[tactic(auto, unfolding(crate::specs::Rules::delta_avps))]
pub(crate) fn put_delta(
    alloc: Global,
    out: &mut AvpWriter,
    form: MessageForm,
    delta: &FirstEntries,
) -> Result<(), AllocError>
    ensures added { OnOk result (Adds out.old out.new (delta_avps form delta.now)) }
    ensures within { OnOk result (sum_by padded_len (delta_avps form delta.now) ≤ delta_room) }
{
    put_removed(out, delta.removed())?;
    put_installed(alloc, out, form, delta.installed())?;
    Ok(())
}
