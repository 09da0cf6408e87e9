//! Rules, and what was told under their names.
ghost use Rattle.std.specs.Prelude.{◌≡◌, ◌++◌, ◌∷◌, [], IfOk, Some, None};
ghost use Rattle.pcrf_values.specs.RuleValues.{RuleValue};
ghost use Rattle.fact_codec.specs.Spelling.{rule_bytes, text_bytes, value_bytes};
ghost use Rattle.fact_codec.specs.Reading.{Gives};
ghost use Rattle.fact_codec.specs.Said.{rule, told_value, told_said};
ghost use Rattle.fact_codec.specs.Values.{told_says};
ghost use Rattle.gx_records.specs.GxFacts as gx_facts;

use crate::fault::Unread;
use crate::numbers::{byte_at, word_at};
use crate::texts::{preemption_at, status_at, text_at};
use crate::values::filters_at;
use pcrf_values::{PriorityLevel, QosClass, Ranked, RetentionPriority, Rule, RuleName, RuleQos};
use std::alloc::Global;

/// The rule of that name, which is not spelled again.
#[tactic(auto, unfolding(crate::specs::Said::rule, crate::specs::Said::byte_within, crate::specs::Spelling::rule_bytes))]
fn rule_at<'a>(alloc: Global, name: &RuleName, bytes: &'a [u8]) -> Result<(Rule, &'a [u8]), Unread>
    ensures read { Gives (λ x. (x.0, x.1.now)) result (rule name.now bytes.now) }
    ensures spelled { IfOk result (λ x. bytes.now ≡ rule_bytes x.0 ++ x.1.now) }
    ensures named { IfOk result (λ x. x.0.name ≡ name.now) }
{
    let (status, rest) = status_at(bytes)?;
    let (filters, rest) = filters_at(alloc, rest)?;
    let (class, rest) = byte_at(rest)?;
    let Some(class) = QosClass::of(u32::from(class)) else {
        return Err(Unread::BadShape);
    };
    let (level, rest) = byte_at(rest)?;
    let Some(level) = PriorityLevel::of(u32::from(level)) else {
        return Err(Unread::BadShape);
    };
    let (capability, rest) = preemption_at(rest)?;
    let (vulnerability, rest) = preemption_at(rest)?;
    let (max_uplink, rest) = word_at(rest)?;
    let (max_downlink, rest) = word_at(rest)?;
    let (precedence, rest) = word_at(rest)?;
    let qos = RuleQos {
        class,
        priority: RetentionPriority {
            level,
            capability,
            vulnerability,
        },
        max_uplink,
        max_downlink,
    };
    let name = name.try_copy()?;
    let rule = Rule::of(alloc, name, status, filters, qos, precedence)?;
    Ok((rule, rest))
}

/// What was told under that name: nothing, or a rule.
#[tactic(auto, unfolding(crate::specs::Said::told_value, crate::specs::Spelling::value_bytes))]
fn told_value_at<'a>(
    alloc: Global,
    name: &RuleName,
    bytes: &'a [u8],
) -> Result<(Option<Rule>, &'a [u8]), Unread>
    ensures read { Gives (λ x. (gx_facts.told_value x.0, x.1.now)) result
        (told_value name.now bytes.now) }
    ensures spelled { IfOk result (λ x. bytes.now
        ≡ value_bytes (gx_facts.told_value x.0) ++ x.1.now) }
{
    let (number, rest) = byte_at(bytes)?;
    match number {
        0 => Ok((None, rest)),
        1 => {
            let (rule, rest) = rule_at(alloc, name, rest)?;
            Ok((Some(rule), rest))
        }
        _ => Err(Unread::BadShape),
    }
}

/// A name, and what was told under it.
#[tactic(auto, unfolding(crate::specs::Said::told_said))]
pub(crate) fn told_at(
    alloc: Global,
    bytes: &[u8],
) -> Result<((RuleName, Option<Rule>), &[u8]), Unread>
    ensures read { Gives (λ x. (told_says x.0, x.1.now)) result (told_said bytes.now) }
    ensures spelled { IfOk result (λ x. bytes.now
        ≡ text_bytes (told_says x.0).0 ++ value_bytes (told_says x.0).1 ++ x.1.now) }
{
    let (name, rest) = text_at(alloc, bytes)?;
    let (rule, rest) = told_value_at(alloc, &name, rest)?;
    Ok(((name, rule), rest))
}
