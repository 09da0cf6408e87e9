//! What is known of how many sessions there are, and of the operations that brought them, as text.
use crate::staying::status::families::{
    CALLS_BOUND, COUNT_AGE, ENDED_AGE, ENDED_KEPT, FORGOTTEN, OPERATIONS_TAKEN, SESSIONS,
    UNCOUNTED, UNNOTED_ENDS, WHOLES_TAKEN,
};
use crate::staying::status::figures::Figures;
use crate::staying::status::telling::{put, put_labelled};
use site_status::{Exposition, Label, Number};
use std::alloc::{AllocError, Global};

/// Writes how many sessions of an application are in a state.
fn put_state(
    out: &mut Exposition,
    application: &str,
    state: &str,
    count: u64,
) -> Result<(), AllocError> {
    let labels = [
        Label {
            name: "application",
            value: application.as_bytes(),
        },
        Label {
            name: "state",
            value: state.as_bytes(),
        },
    ];
    out.sample(SESSIONS.name, "", &labels, Number::Whole(count))
}

/// Writes how many sessions there are, where they were counted once, beside for how many nanoseconds the server runs.
pub fn put_sessions(
    out: &mut Exposition,
    figures: &Figures,
    uptime: u64,
) -> Result<(), AllocError> {
    if let Some(notes) = &figures.meters.sessions {
        put(out, &UNCOUNTED, notes.lost())?;
    }
    let sessions = &figures.sessions;
    let since = sessions.since.get();
    if since == 0 {
        return Ok(());
    }
    out.heading(&SESSIONS)?;
    put_state(out, "Gx", "live", sessions.gateways_live.get())?;
    put_state(out, "Gx", "ended", sessions.gateways_ended.get())?;
    put_state(out, "Rx", "live", sessions.calls_live.get())?;
    put_state(out, "Rx", "ended", sessions.calls_ended.get())?;
    put(out, &CALLS_BOUND, sessions.calls_bound.get())?;
    out.figure(&COUNT_AGE, Number::Nanos(uptime.saturating_sub(since)))
}

/// Writes how many sessions that ended are kept and were forgotten, where the site forgets any, beside for how many seconds the server runs.
pub fn put_forgotten(
    out: &mut Exposition,
    figures: &Figures,
    seconds: u64,
) -> Result<(), AllocError> {
    let Some(ended) = &figures.meters.ended else {
        return Ok(());
    };
    let sessions = &figures.sessions;
    put(out, &ENDED_KEPT, sessions.ended_kept.get())?;
    let since = sessions.ended_since.get();
    put(out, &ENDED_AGE, seconds.saturating_sub(since))?;
    put(out, &FORGOTTEN, sessions.forgotten.get())?;
    put(out, &UNNOTED_ENDS, ended.lost())
}

/// Writes how many operations of letters were taken, by the site that made them; nothing of sites of which none was.
pub fn put_taken(out: &mut Exposition, alloc: Global, figures: &Figures) -> Result<(), AllocError> {
    out.heading(&OPERATIONS_TAKEN)?;
    for (site, count) in figures.meters.taken.iter().enumerate() {
        if count.get() > 0 {
            let text = format!(in alloc; "{site}")?;
            put_labelled(out, &OPERATIONS_TAKEN, "site", text.as_str(), count.get())?;
        }
    }
    put(out, &WHOLES_TAKEN, figures.meters.wholes.get())
}
