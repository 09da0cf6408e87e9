//! What an operator sees, as text.
use crate::seen::{AfSeen, GxSeen, GxUser, SessionSeen, SiteOverview};
use gx_records::Told;
use pcrf_values::{AfSid, GxSid, Rule};
use std::alloc::AllocError;
use std::fmt::Write as _;

/// Prints what an operator sees, as `show` prints it (docs/SCRIPTS.md): the clock; the sessions of gateways, a live one with its
/// rules and with the names of those that the gateway was told; the sessions of application functions, a live one with its
/// binding and whether it was aborted.
pub fn put_value(out: &mut String, value: &SiteOverview) -> Result<(), AllocError> {
    let clock = value.clock;
    writeln!(out, "clock {clock}")?;
    for (id, seen) in &value.gx {
        put_gateway_session(out, id, seen)?;
    }
    for (id, seen) in &value.af {
        put_application_session(out, id, seen)?;
    }
    out.push_str("end\n")
}

/// A session of a gateway.
fn put_gateway_session(
    out: &mut String,
    id: &GxSid,
    seen: &SessionSeen<GxSeen>,
) -> Result<(), AllocError> {
    out.push_str("gx ")?;
    put_text(out, id.as_slice())?;
    match seen {
        SessionSeen::Live(shown) => put_live(out, shown),
        SessionSeen::Ended => out.push_str(" ended\n"),
        SessionSeen::Partial => out.push_str(" partial\n"),
    }
}

/// What a live session of a gateway shows: where its user is reached, its access point name and its home; its rules; what was
/// told of them.
fn put_live(out: &mut String, shown: &GxSeen) -> Result<(), AllocError> {
    let home = shown.home;
    out.push_str(" live ")?;
    put_reached(out, &shown.user)?;
    out.push_str(" ")?;
    put_text(out, shown.user.apn.as_slice())?;
    writeln!(out, " home {home}")?;
    for rule in &shown.rules {
        put_rule(out, rule)?;
    }
    put_told(out, &shown.told)
}

/// Where a user is reached: the address, the prefix, or both with a comma between.
fn put_reached(out: &mut String, user: &GxUser) -> Result<(), AllocError> {
    match (&user.address, &user.prefix) {
        (Some(address), Some(prefix)) => write!(out, "{address},{prefix}"),
        (Some(address), None) => write!(out, "{address}"),
        (None, Some(prefix)) => write!(out, "{prefix}"),
        (None, None) => Ok(()),
    }
}

/// A rule: its precedence, name and Flow-Status, its class, and its greatest bit rates up and down.
fn put_rule(out: &mut String, rule: &Rule) -> Result<(), AllocError> {
    let (precedence, status, qos) = (rule.precedence(), rule.status().number(), rule.qos());
    let (class, up, down) = (qos.class.get(), qos.max_uplink, qos.max_downlink);
    write!(out, "rule {precedence} ")?;
    put_text(out, rule.name().as_slice())?;
    writeln!(out, " {status} {class} {up} {down}")
}

/// The names of the rules that a gateway was told, ascending.
fn put_told(out: &mut String, told: &Told) -> Result<(), AllocError> {
    for (name, _) in told.as_slice() {
        out.push_str("told ")?;
        put_text(out, name.as_slice())?;
        out.push_str("\n")?;
    }
    Ok(())
}

/// A session of an application function.
fn put_application_session(
    out: &mut String,
    id: &AfSid,
    seen: &SessionSeen<AfSeen>,
) -> Result<(), AllocError> {
    out.push_str("af ")?;
    put_text(out, id.as_slice())?;
    match seen {
        SessionSeen::Live(shown) => put_call(out, shown),
        SessionSeen::Ended => out.push_str(" ended\n"),
        SessionSeen::Partial => out.push_str(" partial\n"),
    }
}

/// What a live session of an application function shows: the gateway's session to which it is bound, if there is one, and
/// whether it was aborted.
fn put_call(out: &mut String, shown: &AfSeen) -> Result<(), AllocError> {
    put_binding(out, shown.binding.as_ref())?;
    if shown.aborted {
        out.push_str(" aborted")?;
    }
    out.push_str("\n")
}

/// The gateway's session to which a live session of an application function is bound, if there is one.
fn put_binding(out: &mut String, bound: Option<&GxSid>) -> Result<(), AllocError> {
    let Some(gateway) = bound else {
        return out.push_str(" unbound");
    };
    out.push_str(" bound ")?;
    put_text(out, gateway.as_slice())
}

/// A text with its bytes 0x21 to 0x7E but the backslash as they are, and each other byte as `\x` and two digits.
pub fn put_text(out: &mut String, bytes: &[u8]) -> Result<(), AllocError> {
    for byte in bytes {
        if byte.is_ascii_graphic() && *byte != b'\\' {
            out.push(char::from(*byte))?;
        } else {
            write!(out, "\\x{byte:02x}")?;
        }
    }
    Ok(())
}
