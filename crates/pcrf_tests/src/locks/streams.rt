//! Streams that a site answers whose reader or writer fails or takes a byte at a time.
use crate::checks::{check, check_same};
use crate::devices::{Sink, Source};
use crate::messages::{WATCHDOG, WATCHDOG_DONE};
use crate::sites::new_site;
use dia_codec::Counted;
use site_core::{Ended, converse};
use std::alloc::AllocGlobal;
use std::process::Abort;

/// How a stream's bytes come and its answers go: so many at once, and how many calls go well.
#[derive(Clone, Copy)]
struct Way {
    most: usize,
    reads: usize,
    writes: usize,
}

/// All at once.
const PLAIN: Way = Way {
    most: 4096,
    reads: 100,
    writes: 100,
};

/// At a new site a stream of so many watchdog requests ends so, and the first so many bytes of their answers are written.
fn watched(
    rt: &(impl AllocGlobal + Abort),
    requests: usize,
    way: Way,
    wanted: Ended,
    count: usize,
) {
    let stream = WATCHDOG.repeat(rt.alloc(), requests).expect(rt, "memory");
    let answers = WATCHDOG_DONE.repeat(rt.alloc(), 2).expect(rt, "memory");
    let mut source = Source::of(stream.as_slice(), way.most);
    source.fails_at = way.reads;
    let mut sink = Sink::of(rt.alloc());
    sink.most = way.most;
    sink.fails_at = way.writes;
    let ended = answered(rt, source, &mut sink);
    check(rt, ended == wanted);
    check_same(
        rt,
        Some(sink.bytes.as_slice()),
        answers.as_slice().get(..count),
    );
}

/// Has a new site answer a stream: how it ends.
fn answered(rt: &(impl AllocGlobal + Abort), source: Source<'_>, sink: &mut Sink) -> Ended {
    let mut site = new_site(rt, rt.alloc());
    let mut reader = Counted::start(source);
    let mut writer = Counted::start(sink);
    let ended = converse(rt.alloc(), &mut site, &mut reader, &mut writer);
    drop(site);
    ended
}

/// An answer to a watchdog has 56 bytes.
#[test]
fn a_watchdog_is_answered_however_it_comes_and_goes(rt: HostRuntime) {
    watched(&rt, 1, PLAIN, Ended::Closed, 56);
    watched(&rt, 1, Way { most: 1, ..PLAIN }, Ended::Closed, 56);
}

#[test]
fn a_reader_that_fails_is_told(rt: HostRuntime) {
    watched(&rt, 1, Way { reads: 1, ..PLAIN }, Ended::ReadFailed, 56);
}

#[test]
fn a_writer_that_fails_is_told(rt: HostRuntime) {
    watched(&rt, 2, Way { writes: 1, ..PLAIN }, Ended::WriteFailed, 56);
    let slow = Way {
        most: 1,
        writes: 60,
        ..PLAIN
    };
    watched(&rt, 2, slow, Ended::WriteFailed, 60);
}
