//! The events that the lines of a script make in a world, where each message of a line is one request.
use crate::makers::request_of;
use pcrf_values::{GxSid, SessionId};
use pcrf_world::{Line, WorldEvent, read_line};
use std::alloc::Global;

/// The Session-Id of a gateway's session that has the letters of a word.
pub fn session_of(alloc: Global, word: &str) -> Option<GxSid> {
    let id = SessionId::read(alloc, word.as_bytes()).ok()??;
    Some(GxSid::of(id))
}

/// The event of a line, if it makes one.
pub fn event_of(alloc: Global, line: &str) -> Option<WorldEvent> {
    match read_line(alloc, line.as_bytes()).ok()? {
        Line::Message(site, frame) => {
            let request = request_of(alloc, frame.as_slice()).ok()??;
            Some(WorldEvent::Serve(site, request))
        }
        line => line.event().ok()?,
    }
}

/// The events of a script. None where there is no memory for them.
pub fn events_of(alloc: Global, script: &str) -> Option<Vec<WorldEvent>> {
    let mut events = Vec::new(alloc);
    for line in script.lines() {
        if let Some(event) = event_of(alloc, line) {
            events.push(event).ok()?;
        }
    }
    Some(events)
}
