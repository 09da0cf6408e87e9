//! What was found, as JSON.
ghost use Rattle.std.specs.Prelude.{◌≡◌};
ghost use Rattle.site_looks.specs.Looks.{before_page, on_page};

use crate::found::{CallFound, GatewayFound, Unbound};
use crate::lookers::{AddressLook, SessionLook, SubscriberLook};
use af_records::AfRec;
use gx_records::GxRec;
use indexed_state::put_text;
use pcrf_values::{AfSid, GxSid, Rule, Subscriber};
use serde_json::{Value, json};
use std::alloc::{AllocError, Global};
use std::fmt::Display;

/// How many entries of a list are shown on a page at most.
pub const PAGE: usize = 100;

/// How many entries stand on the pages before that one, of which the first is 1.
fn before(page: usize) -> usize
    ensures { result ≡ before_page page }
{
    page.saturating_sub(1).saturating_mul(PAGE)
}

/// The entries of a list that stand on a page.
fn page_of<T>(all: &[T], page: usize) -> &[T]
    ensures { result.now ≡ on_page page all.now }
{
    let behind = &all[before(page).min(all.len())..];
    &behind[..PAGE.min(behind.len())]
}

/// A text with its bytes 0x21 to 0x7E but the backslash as they are, and each other byte as `\x` and two digits.
fn printed(alloc: Global, bytes: &[u8]) -> Result<String, AllocError> {
    let mut text = String::new(alloc);
    put_text(&mut text, bytes)?;
    Ok(text)
}

/// Bytes as a value.
fn text_of(alloc: Global, bytes: &[u8]) -> Result<Value, AllocError> {
    let text = printed(alloc, bytes)?;
    json!(in alloc; text.as_str())
}

/// What prints itself, as a value; null where there is nothing.
fn shown_of<T: Display>(alloc: Global, given: Option<&T>) -> Result<Value, AllocError> {
    let Some(given) = given else {
        return Ok(Value::Null);
    };
    let text = format!(in alloc; "{given}")?;
    json!(in alloc; text.as_str())
}

/// A subscriber.
fn subscriber_of(alloc: Global, subscriber: &Subscriber) -> Result<Value, AllocError> {
    let kind = u64::from(subscriber.kind().number());
    let name = text_of(alloc, subscriber.name().as_slice())?;
    json!(in alloc; {"type": kind, "id": &name})
}

/// Subscribers.
fn subscribers_of(alloc: Global, known: &GxRec) -> Result<Value, AllocError> {
    let mut all = Vec::new(alloc);
    if let Some((_, subscribers)) = known.subscribers() {
        for subscriber in subscribers.as_slice() {
            all.push(subscriber_of(alloc, subscriber)?)?;
        }
    }
    Ok(Value::Array(all))
}

/// A rule.
fn rule_of(alloc: Global, rule: &Rule) -> Result<Value, AllocError> {
    let name = text_of(alloc, rule.name().as_slice())?;
    let (precedence, status) = (
        u64::from(rule.precedence()),
        u64::from(rule.status().number()),
    );
    let qos = rule.qos();
    let class = u64::from(qos.class.get());
    let (up, down) = (u64::from(qos.max_uplink), u64::from(qos.max_downlink));
    json!(in alloc; {
        "name": &name,
        "precedence": precedence,
        "flow_status": status,
        "class": class,
        "max_uplink": up,
        "max_downlink": down
    })
}

/// Rules.
fn rules_of(alloc: Global, rules: &[Rule]) -> Result<Value, AllocError> {
    let mut all = Vec::new(alloc);
    for rule in rules {
        all.push(rule_of(alloc, rule)?)?;
    }
    Ok(Value::Array(all))
}

/// The names of the rules that a gateway was told.
fn told_of(alloc: Global, known: &GxRec) -> Result<Value, AllocError> {
    let told = known.told_rules(alloc)?;
    let mut all = Vec::new(alloc);
    for (name, _) in told.as_slice() {
        all.push(text_of(alloc, name.as_slice())?)?;
    }
    Ok(Value::Array(all))
}

/// Where a session stands.
fn standing(is_ended: bool, is_live: bool) -> &'static str {
    match (is_ended, is_live) {
        (true, _) => "ended",
        (false, true) => "live",
        (false, false) => "partial",
    }
}

/// Where the user of a session is reached, and by which access point.
fn user_of(alloc: Global, known: &GxRec) -> Result<Value, AllocError> {
    let address = shown_of(alloc, known.address().map(|shown| shown.1))?;
    let prefix = shown_of(alloc, known.prefix().map(|shown| shown.1))?;
    let apn = match known.apn() {
        Some((_, apn)) => text_of(alloc, apn.as_slice())?,
        None => Value::Null,
    };
    json!(in alloc; {"address": &address, "prefix": &prefix, "apn": &apn})
}

/// The gateway of a session.
fn host_of(alloc: Global, known: &GxRec) -> Result<Value, AllocError> {
    match known.host() {
        Some((_, host)) => text_of(alloc, host.as_slice()),
        None => Ok(Value::Null),
    }
}

/// A gateway's session.
fn gateway_shown(alloc: Global, found: &GatewayFound) -> Result<Value, AllocError> {
    let known = &found.known;
    let standing = standing(known.ended(), known.live());
    let user = user_of(alloc, known)?;
    let host = host_of(alloc, known)?;
    let lists = lists_of(alloc, found)?;
    json!(in alloc; {"state": standing, "user": &user, "host": &host, "lists": &lists})
}

/// The lists of a gateway's session: its subscribers, its rules, and those that its gateway was told.
fn lists_of(alloc: Global, found: &GatewayFound) -> Result<Value, AllocError> {
    let subscribers = subscribers_of(alloc, &found.known)?;
    let rules = rules_of(alloc, found.rules.as_slice())?;
    let told = told_of(alloc, &found.known)?;
    json!(in alloc; {"subscribers": &subscribers, "rules": &rules, "told": &told})
}

/// Where the user of a call is reached, and by which access point.
fn caller_of(alloc: Global, known: &AfRec) -> Result<Value, AllocError> {
    let address = shown_of(alloc, known.address().map(|shown| shown.1))?;
    let prefix = shown_of(alloc, known.prefix().map(|shown| shown.1))?;
    let apn = match known.apn() {
        Some((_, apn)) => text_of(alloc, apn.as_slice())?,
        None => Value::Null,
    };
    json!(in alloc; {"address": &address, "prefix": &prefix, "apn": &apn})
}

/// The application function of a call.
fn function_of(alloc: Global, known: &AfRec) -> Result<Value, AllocError> {
    match known.host() {
        Some((_, host)) => text_of(alloc, host.as_slice()),
        None => Ok(Value::Null),
    }
}

/// Why a call is bound to nothing.
fn reason(found: &CallFound) -> &'static str {
    match found.unbound {
        Some(Unbound::NotLive) => "it isn't live",
        Some(Unbound::NobodyThere) => {
            "no live session of a gateway stands where its user is reached"
        }
        Some(Unbound::OthersThere) => {
            "the live sessions of gateways there have another access point, subscriber or prefix"
        }
        None => "the site has no index of its sessions at the moment",
    }
}

/// The gateway's session that carries the media of a call, and where none does, why.
fn binding_of(alloc: Global, found: &CallFound) -> Result<(Value, Value), AllocError> {
    if let Some(Some(gateway)) = &found.binding {
        return Ok((text_of(alloc, gateway.as_slice())?, Value::Null));
    }
    let reason = reason(found);
    Ok((Value::Null, json!(in alloc; reason)?))
}

/// An application function's session.
fn call_shown(alloc: Global, found: &CallFound) -> Result<Value, AllocError> {
    let known = &found.known;
    let standing = standing(known.ended(), known.live());
    let user = caller_of(alloc, known)?;
    let host = function_of(alloc, known)?;
    let (bound, unbound) = binding_of(alloc, found)?;
    let aborted = known.aborted();
    json!(in alloc; {
        "state": standing,
        "user": &user,
        "host": &host,
        "bound": &bound,
        "unbound": &unbound,
        "aborted": aborted
    })
}

/// What was found of a Session-Id; none where nothing was.
pub fn session_shown(alloc: Global, look: &SessionLook<'_>) -> Result<Option<String>, AllocError> {
    if look.gateway.is_none() && look.call.is_none() {
        return Ok(None);
    }
    let gateway = match &look.gateway {
        Some(found) => gateway_shown(alloc, found)?,
        None => Value::Null,
    };
    let call = match &look.call {
        Some(found) => call_shown(alloc, found)?,
        None => Value::Null,
    };
    let shown = json!(in alloc; {"gateway_session": &gateway, "call": &call})?;
    Ok(Some(shown.to_string(alloc)?))
}

/// Session-Ids of gateways' sessions, those of one page.
fn gateway_ids(alloc: Global, ids: &[GxSid], page: usize) -> Result<Value, AllocError> {
    let mut all = Vec::new(alloc);
    for id in page_of(ids, page) {
        all.push(text_of(alloc, id.as_slice())?)?;
    }
    Ok(Value::Array(all))
}

/// Session-Ids of application functions' sessions, those of one page.
fn call_ids(alloc: Global, ids: &[AfSid], page: usize) -> Result<Value, AllocError> {
    let mut all = Vec::new(alloc);
    for id in page_of(ids, page) {
        all.push(text_of(alloc, id.as_slice())?)?;
    }
    Ok(Value::Array(all))
}

/// What was found of a subscriber's name: how many live sessions of gateways have it, and those of one page.
pub fn subscriber_shown(
    alloc: Global,
    look: &SubscriberLook<'_>,
    page: usize,
) -> Result<String, AllocError> {
    let count = look.sessions.len() as u64;
    let number = page as u64;
    let sessions = gateway_ids(alloc, look.sessions.as_slice(), page)?;
    let shown = json!(in alloc; {
        "page": number,
        "count": count,
        "gateway_sessions": &sessions
    })?;
    shown.to_string(alloc)
}

/// What was found at an address: how many live sessions stand there, and those of one page.
pub fn address_shown(alloc: Global, look: &AddressLook, page: usize) -> Result<String, AllocError> {
    let number = page as u64;
    let (gateways, calls) = (look.gateways.len() as u64, look.calls.len() as u64);
    let sessions = gateway_ids(alloc, look.gateways.as_slice(), page)?;
    let listed = call_ids(alloc, look.calls.as_slice(), page)?;
    let shown = json!(in alloc; {
        "page": number,
        "count": gateways,
        "gateway_sessions": &sessions,
        "call_count": calls,
        "calls": &listed
    })?;
    shown.to_string(alloc)
}
