//! What an event or a call is told.
use crate::checks::check_same;
use gx_profile::GxReply;
use site_machine::{Event, Reply, Site, StepFault};
use std::process::Abort;

/// What a reply tells.
#[derive(Clone, Copy, Debug, PartialEq, Eq)]
pub enum Told {
    /// A request is granted, and so many rules are installed.
    Granted(usize),
    /// A request is refused with this code.
    Refused(u32),
    /// A whole state was taken, or a request is accepted.
    Done,
    /// So many operations were taken.
    Taken(usize),
    /// So many rules are installed by a push.
    Pushed(usize),
    NothingPushed,
    NothingAborted,
    /// What a gateway was told counts as not there now, or nothing was to be done.
    Retold(bool),
    /// So many of the site's own operations, of how many.
    Own(usize, u64),
    /// That the site has begun anew so often.
    BegunAnew(u16),
    Other,
    Fault(StepFault),
}

/// What a reply tells.
fn told_by(reply: &Result<Reply, StepFault>) -> Told {
    match reply {
        Ok(Reply::Gx(GxReply::Granted(delta, _))) => Told::Granted(delta.installed().len()),
        Ok(Reply::Gx(GxReply::Refused(refusal)) | Reply::Refused(refusal)) => Told::Refused(
            refusal.code,
        ),
        Ok(Reply::Done) => Told::Done,
        Ok(Reply::Taken(count)) => Told::Taken(*count),
        Ok(Reply::Pushed(Some(push))) => Told::Pushed(push.delta.installed().len()),
        Ok(Reply::Pushed(None)) => Told::NothingPushed,
        Ok(Reply::Aborted(None)) => Told::NothingAborted,
        Ok(Reply::Retold(done)) => Told::Retold(*done),
        Ok(Reply::Own(operations, made)) => Told::Own(operations.len(), *made),
        Ok(_) => Told::Other,
        Err(fault) => Told::Fault(*fault),
    }
}

/// What a reply tells, which is dropped.
pub fn tell(reply: Result<Reply, StepFault>) -> Told {
    let told = told_by(&reply);
    drop(reply);
    told
}

/// An event happens at a site without a lock, which is told so.
pub fn steps(rt: &impl Abort, site: &mut Site, event: Event, wanted: Told) {
    let told = tell(site.step(&event));
    drop(event);
    check_same(rt, told, wanted);
}
