//! What no clause says: texts as a reader of the format and a client see them, and calls that take memory.
use site_status::{
    CODE_LIMIT, CodeCounts, Exposition, FIELD_LIMIT, Family, HEAD_LIMIT, Head, Kind, Label, Media,
    NAME_LIMIT, Number, Status, Times, name_of, put_response, read_head,
};
use std::test::Fail;

const SEATS: Family<'static> = Family {
    name: "pcrf_seats",
    help: "Seats.",
    kind: Kind::Gauge,
};

const CALLS: Family<'static> = Family {
    name: "calls_seconds",
    help: "Calls.",
    kind: Kind::Histogram,
};

#[test]
fn figures_are_lines(rt: HostRuntime) -> Result<(), Fail> {
    let mut figures = Exposition::start(rt.alloc());
    figures.figure(&SEATS, Number::Whole(64))?;
    let labels = [
        Label {
            name: "host",
            value: b"a\"b\\c\nd",
        },
        Label {
            name: "code",
            value: b"2001",
        },
    ];
    figures.sample("up", "_total", &labels, Number::Nanos(1_000_000_020))?;
    let text =
        b"# HELP pcrf_seats Seats.\n# TYPE pcrf_seats gauge\npcrf_seats 64\nup_total{host=\"a\\\"b\\\\c\\nd\",code=\"2001\"} 1.000000020\n";
    assert_eq!(rt; figures.text(), text.as_slice());
    let mut out = Vec::new(rt.alloc());
    put_response(&mut out, Status::MethodNotAllowed, Media::Text, b"GET\n")?;
    let text =
        b"HTTP/1.1 405 Method Not Allowed\r\nAllow: GET\r\nContent-Security-Policy: default-src 'self'\r\nX-Content-Type-Options: nosniff\r\nContent-Type: text/plain; version=0.0.4; charset=utf-8\r\nConnection: close\r\nContent-Length: 4\r\n\r\nGET\n";
    assert_eq!(rt; out.as_slice(), text.as_slice());
    Ok(())
}

#[test]
fn times_fall_into_buckets(rt: HostRuntime) -> Result<(), Fail> {
    let alloc = rt.alloc();
    let times = Times::start(alloc)?;
    for nanos in [1, 1_000, 1_001, 1_000_000_000, 1_000_000_001] {
        times.add(nanos);
    }
    let told = times.snapshot(alloc)?;
    assert_eq!(rt;
        told.counts.as_slice(),
        [2, 1, 0, 0, 0, 0, 0, 0, 0, 0, 0, 0, 0, 0, 0, 0, 0, 0, 1, 1].as_slice()
    );
    assert_eq!(rt; told.nanos, 2_000_002_003);
    let mut figures = Exposition::start(alloc);
    figures.histogram(&CALLS, &told)?;
    let text = figures.text();
    let head =
        b"# HELP calls_seconds Calls.\n# TYPE calls_seconds histogram\ncalls_seconds_bucket{le=\"0.000001000\"} 2\ncalls_seconds_bucket{le=\"0.000002000\"} 3\n";
    let tail =
        b"calls_seconds_bucket{le=\"0.500000000\"} 3\ncalls_seconds_bucket{le=\"1.000000000\"} 4\ncalls_seconds_bucket{le=\"+Inf\"} 5\ncalls_seconds_sum 2.000002003\ncalls_seconds_count 5\n";
    assert!(rt; text.starts_with(head));
    assert!(rt; text.ends_with(tail));
    Ok(())
}

/// What is made of bytes, as a word.
fn word_of(bytes: &[u8]) -> &'static str {
    match read_head(bytes) {
        Head::Begun => "begun",
        Head::Whole { .. } => "whole",
        Head::TooLong => "too long",
        Head::Malformed => "malformed",
    }
}

#[test]
fn heads_have_a_limit(rt: HostRuntime) -> Result<(), Fail> {
    let mut bytes = Vec::from_slice(rt.alloc(), b"GET /")?;
    for _ in 0..HEAD_LIMIT - 6 {
        bytes.push(b'a')?;
    }
    assert_eq!(rt; word_of(bytes.as_slice()), "begun");
    bytes.push(b'a')?;
    assert_eq!(rt; word_of(bytes.as_slice()), "too long");
    let mut fields = Vec::from_slice(rt.alloc(), b"GET / HTTP/1.1\r\n")?;
    for _ in 0..FIELD_LIMIT {
        fields.extend_from_slice(b"a: b\r\n")?;
    }
    fields.extend_from_slice(b"\r\n")?;
    assert_eq!(rt; word_of(fields.as_slice()), "whole");
    fields.truncate(fields.len() - 2);
    fields.extend_from_slice(b"a: b\r\n\r\n")?;
    assert_eq!(rt; word_of(fields.as_slice()), "too long");
    Ok(())
}

#[test]
fn codes_are_counted_apart(rt: HostRuntime) -> Result<(), Fail> {
    let codes = CodeCounts::start(rt.alloc())?;
    for code in [2001, 0, 2001, 5012] {
        codes.add(code);
    }
    assert_eq!(rt; codes.at(0), Some((2001, 2)));
    assert_eq!(rt; codes.at(1), Some((0, 1)));
    assert_eq!(rt; codes.at(2), Some((5012, 1)));
    assert_eq!(rt; codes.at(3), None);
    for code in 0..64 {
        codes.add(code);
    }
    assert_eq!(rt; codes.at(1), Some((0, 2)));
    assert_eq!(rt; codes.at(CODE_LIMIT - 1), Some((29, 1)));
    assert_eq!(rt; codes.at(CODE_LIMIT), None);
    assert_eq!(rt; codes.others(), 34);
    Ok(())
}

#[test]
fn names_have_escapes_and_a_limit(rt: HostRuntime) -> Result<(), Fail> {
    let alloc = rt.alloc();
    let name = name_of(alloc, b"a%3Bb%2fc%zz")?.expect(&rt, "a name");
    assert_eq!(rt; name.as_slice(), b"a;b/c%zz".as_slice());
    let mut long = Vec::new(alloc);
    for _ in 0..NAME_LIMIT {
        long.extend_from_slice(b"%41")?;
    }
    assert!(rt; name_of(alloc, long.as_slice())?.is_some());
    long.push(b'a')?;
    assert!(rt; name_of(alloc, long.as_slice())?.is_none());
    Ok(())
}
