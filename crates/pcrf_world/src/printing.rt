//! What a script prints of events.
use crate::world::{WorldEvent, WorldFault, WorldOutcome};
use indexed_state::put_text;
use pcrf_model::PushOut;
use pcrf_values::Rule;
use rx_profile::AbortOut;
use std::alloc::AllocError;
use std::fmt::Write as _;

/// What an event gave, but for a reply, whose bytes have a line of their own.
pub fn put_outcome(
    out: &mut String,
    event: &WorldEvent,
    answer: &Result<WorldOutcome, WorldFault>,
) -> Result<(), AllocError> {
    match answer {
        Ok(WorldOutcome::Replied(_)) => Ok(()),
        Ok(WorldOutcome::Restarted(epoch)) => put_restart(out, event, *epoch),
        Ok(WorldOutcome::Pushed(push)) => put_push(out, push.as_ref()),
        Ok(WorldOutcome::Aborted(abort)) => put_abort(out, abort.as_ref()),
        Ok(WorldOutcome::Retold(true)) => out.push_str("retold\n"),
        Ok(WorldOutcome::Retold(false)) => out.push_str("none\n"),
        Ok(WorldOutcome::Lettered(k)) => writeln!(out, "letter {k}"),
        Ok(WorldOutcome::Merged) => out.push_str("merged\n"),
        Err(WorldFault::NoSuchSite) => out.push_str("refused NoSuchSite\n"),
        Err(WorldFault::NoSuchLetter) => out.push_str("refused NoSuchLetter\n"),
        Err(WorldFault::EpochFull) => out.push_str("refused EpochFull\n"),
        Err(WorldFault::ClockFull) => out.push_str("refused ClockFull\n"),
        Err(WorldFault::NoMemory { taken: _ }) => Err(AllocError),
    }
}

/// The epoch that a restart began.
fn put_restart(out: &mut String, event: &WorldEvent, epoch: u16) -> Result<(), AllocError> {
    match event {
        WorldEvent::Restart(i) => writeln!(out, "restart {i} epoch {epoch}"),
        _ => Ok(()),
    }
}

/// What a site pushed: the session, and the names of the rules that its gateway is to remove and to install.
fn put_push(out: &mut String, push: Option<&PushOut>) -> Result<(), AllocError> {
    let Some(push) = push else {
        return out.push_str("none\n");
    };
    out.push_str("push ")?;
    put_text(out, push.session.as_slice())?;
    for name in push.delta.removed() {
        out.push_str(" -")?;
        put_text(out, name.as_slice())?;
    }
    put_installed(out, push.delta.installed())
}

/// The names of the rules that are installed, and the end of the line.
fn put_installed(out: &mut String, rules: &[Rule]) -> Result<(), AllocError> {
    for rule in rules {
        out.push_str(" +")?;
        put_text(out, rule.name().as_slice())?;
    }
    out.push_str("\n")
}

/// The session that a site aborted.
fn put_abort(out: &mut String, abort: Option<&AbortOut>) -> Result<(), AllocError> {
    let Some(abort) = abort else {
        return out.push_str("none\n");
    };
    out.push_str("abort ")?;
    put_text(out, abort.session.as_slice())?;
    out.push_str("\n")
}

/// The bytes of an answer, or that there is none.
pub(crate) fn put_answer(out: &mut String, bytes: &[u8]) -> Result<(), AllocError> {
    if bytes.is_empty() {
        return out.push_str("no answer\n");
    }
    out.push_str("answer ")?;
    for byte in bytes {
        write!(out, "{byte:02x}")?;
    }
    out.push_str("\n")
}
