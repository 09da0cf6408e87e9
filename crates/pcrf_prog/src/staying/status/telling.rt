//! The figures of a server as text.
use crate::staying::machine::Machine;
use crate::staying::status::families::{
    ANSWERS_TAKEN, ASKS, CALLS, CONNECTIONS, CROWDED, EPOCH, EPOCHS_BEGUN, HOST_CONNECTIONS,
    HOST_WAITING, LOST, MESSAGES, OPERATIONS, PEER_LACKING, PEER_LETTERS, PEER_LINK, PEER_TOLD,
    PUSH_REFUSALS, PUSH_UNWRITTEN, REQUESTS_SENT, REQUESTS_TAKEN, RESIDENT, SEATED, SEATS,
    SENDER_LETTERS, SENDER_LINK, SERVING, SITE, STRANGERS, UPTIME,
};
use crate::staying::status::figures::{Figures, PeerFigures};
use crate::staying::status::letters::put_traffic;
use crate::staying::status::sessions::{put_forgotten, put_sessions, put_taken};
use crate::staying::working::Shared;
use log::Log;
use pcrf_serve::SharedSite;
use pcrf_values::Ranked;
use site_status::{CODE_LIMIT, CodeCounts, Exposition, Family, Label, Number};
use std::alloc::{AllocError, Global};
use std::net::SocketAddrV4;
use std::time::Clock;
use watched_links::{Guests, KINDS, KindCounts, MessageCounts, MessageKind, Printable};

/// Writes a figure of one number.
pub(crate) fn put(out: &mut Exposition, family: &Family<'_>, count: u64) -> Result<(), AllocError> {
    out.figure(family, Number::Whole(count))
}

/// Writes one sample of a figure, which one label tells from the others.
pub(crate) fn put_labelled(
    out: &mut Exposition,
    family: &Family<'_>,
    label: &str,
    value: &str,
    count: u64,
) -> Result<(), AllocError> {
    let labels = [Label {
        name: label,
        value: value.as_bytes(),
    }];
    out.sample(family.name, "", &labels, Number::Whole(count))
}

/// Writes how often each code was met; nothing of those that weren't.
fn put_codes(
    out: &mut Exposition,
    alloc: Global,
    family: &Family<'_>,
    codes: &CodeCounts,
) -> Result<(), AllocError> {
    out.heading(family)?;
    for place in 0..CODE_LIMIT {
        let Some((code, count)) = codes.at(place) else {
            break;
        };
        let text = format!(in alloc; "{code}")?;
        put_labelled(out, family, "code", text.as_str(), count)?;
    }
    match codes.others() {
        0 => Ok(()),
        others => put_labelled(out, family, "code", "other", others),
    }
}

/// Writes what is known of the process and of its site.
fn put_site<'s, 'r, S: SharedSite, M: Machine, G: Log>(
    out: &mut Exposition,
    rt: &M,
    all: &Shared<'s, 'r, S, M, G>,
) -> Result<(), AllocError> {
    let figures = &all.furniture.figures;
    let alloc = all.furniture.alloc;
    out.figure(&UPTIME, Number::Nanos(figures.uptime(rt)))?;
    put(out, &SERVING, figures.site.serving.get())?;
    let (site, edition) = (all.server.site.number(), all.server.site.edition());
    let (site, edition) = (
        format!(in alloc; "{site}")?,
        format!(in alloc; "{edition}")?,
    );
    let labels = [
        Label {
            name: "site",
            value: site.as_bytes(),
        },
        Label {
            name: "edition",
            value: edition.as_bytes(),
        },
    ];
    out.heading(&SITE)?;
    out.sample(SITE.name, "", &labels, Number::Whole(1))?;
    let begun = figures.site.begun.get();
    let epoch = u64::from(all.exchange.place.epoch).saturating_add(begun);
    put(out, &EPOCH, epoch)?;
    put(out, &EPOCHS_BEGUN, begun)?;
    put(out, &OPERATIONS, figures.site.operations.get())
}

/// Writes what is known of connections.
fn put_connections(
    out: &mut Exposition,
    figures: &Figures,
    seats: usize,
) -> Result<(), AllocError> {
    let connections = &figures.connections;
    let ended = connections.ended.get();
    let seated = connections.seated.get();
    put(out, &SEATS, seats as u64)?;
    put(out, &CONNECTIONS, seated.saturating_sub(ended))?;
    put(out, &SEATED, seated)?;
    put(out, &LOST, connections.lost.get())?;
    put(out, &CROWDED, connections.refused.get())?;
    put(out, &STRANGERS, figures.site.strangers.get())
}

/// Writes what is known of hosts.
fn put_hosts<M: Machine>(
    out: &mut Exposition,
    rt: &M,
    alloc: Global,
    guests: &Guests,
) -> Result<(), AllocError> {
    out.heading(&HOST_CONNECTIONS)?;
    for number in 0..guests.count(rt) {
        if let Some(seen) = guests.seen(rt, number) {
            let host = format!(in alloc; "{}", Printable(seen.host.as_slice()))?;
            let count = u64::from(seen.connections);
            put_labelled(out, &HOST_CONNECTIONS, "host", host.as_str(), count)?;
        }
    }
    out.heading(&HOST_WAITING)?;
    for number in 0..guests.count(rt) {
        if let Some(seen) = guests.seen(rt, number) {
            let host = format!(in alloc; "{}", Printable(seen.host.as_slice()))?;
            let count = u64::from(seen.is_waiting);
            put_labelled(out, &HOST_WAITING, "host", host.as_str(), count)?;
        }
    }
    Ok(())
}

/// Writes what is known of re-authorisation requests.
fn put_pushes(out: &mut Exposition, alloc: Global, figures: &Figures) -> Result<(), AllocError> {
    put_codes(out, alloc, &PUSH_REFUSALS, &figures.site.refusals)?;
    put(out, &PUSH_UNWRITTEN, figures.site.unwritten.get())
}

/// What a figure says of a peer site.
#[derive(Clone, Copy)]
enum PeerFigure {
    Linked,
    Letters,
    Told,
    Lacking,
}

impl PeerFigure {
    /// What it says where the site made so many operations.
    fn of(self, peer: &PeerFigures, operations: u64) -> u64 {
        match self {
            PeerFigure::Linked => peer.linked.get(),
            PeerFigure::Letters => peer.letters.get(),
            PeerFigure::Told => peer.told.get(),
            PeerFigure::Lacking => operations.saturating_sub(peer.told.get()),
        }
    }
}

/// Writes a figure of each peer site.
fn put_peers(
    out: &mut Exposition,
    alloc: Global,
    family: &Family<'_>,
    figure: PeerFigure,
    figures: &Figures,
    addresses: &[SocketAddrV4],
) -> Result<(), AllocError> {
    let operations = figures.site.operations.get();
    out.heading(family)?;
    for (peer, address) in figures.peers.iter().zip(addresses) {
        let text = format!(in alloc; "{address}")?;
        let count = figure.of(peer, operations);
        put_labelled(out, family, "peer", text.as_str(), count)?;
    }
    Ok(())
}

/// Writes whether letters of a site come in, and how many came; nothing of sites of which none did.
fn put_senders(out: &mut Exposition, alloc: Global, figures: &Figures) -> Result<(), AllocError> {
    out.heading(&SENDER_LINK)?;
    for (site, sender) in figures.senders.iter().enumerate() {
        if sender.letters.get() > 0 {
            let text = format!(in alloc; "{site}")?;
            put_labelled(
                out,
                &SENDER_LINK,
                "site",
                text.as_str(),
                sender.linked.get(),
            )?;
        }
    }
    out.heading(&SENDER_LETTERS)?;
    for (site, sender) in figures.senders.iter().enumerate() {
        let letters = sender.letters.get();
        if letters > 0 {
            let text = format!(in alloc; "{site}")?;
            put_labelled(out, &SENDER_LETTERS, "site", text.as_str(), letters)?;
        }
    }
    Ok(())
}

/// Writes how long calls of the site took.
fn put_calls(out: &mut Exposition, alloc: Global, figures: &Figures) -> Result<(), AllocError> {
    let told = figures.meters.times.snapshot(alloc)?;
    out.histogram(&CALLS, &told)
}

/// Writes what is known of letters.
fn put_letters(
    out: &mut Exposition,
    alloc: Global,
    figures: &Figures,
    addresses: &[SocketAddrV4],
) -> Result<(), AllocError> {
    put_peers(
        out,
        alloc,
        &PEER_LINK,
        PeerFigure::Linked,
        figures,
        addresses,
    )?;
    put_peers(
        out,
        alloc,
        &PEER_LETTERS,
        PeerFigure::Letters,
        figures,
        addresses,
    )?;
    put_peers(out, alloc, &PEER_TOLD, PeerFigure::Told, figures, addresses)?;
    put_peers(
        out,
        alloc,
        &PEER_LACKING,
        PeerFigure::Lacking,
        figures,
        addresses,
    )?;
    put_senders(out, alloc, figures)
}

/// Writes the labels of a kind of message, and a count.
fn put_kind(
    out: &mut Exposition,
    family: &Family<'_>,
    kind: MessageKind,
    count: u64,
) -> Result<(), AllocError> {
    if count == 0 {
        return Ok(());
    }
    let labels = [
        Label {
            name: "application",
            value: kind.application().as_bytes(),
        },
        Label {
            name: "command",
            value: kind.command().as_bytes(),
        },
    ];
    out.sample(family.name, "", &labels, Number::Whole(count))
}

/// Writes how many answers of a kind went out with a code.
fn put_answers(
    out: &mut Exposition,
    kind: MessageKind,
    code: &str,
    count: u64,
) -> Result<(), AllocError> {
    let labels = [
        Label {
            name: "application",
            value: kind.application().as_bytes(),
        },
        Label {
            name: "command",
            value: kind.command().as_bytes(),
        },
        Label {
            name: "code",
            value: code.as_bytes(),
        },
    ];
    out.sample(MESSAGES.name, "", &labels, Number::Whole(count))
}

/// Writes how many answers of a kind went out, by their codes.
fn put_answered(
    out: &mut Exposition,
    alloc: Global,
    kind: MessageKind,
    codes: &CodeCounts,
) -> Result<(), AllocError> {
    for place in 0..CODE_LIMIT {
        let Some((code, count)) = codes.at(place) else {
            break;
        };
        let text = format!(in alloc; "{code}")?;
        put_answers(out, kind, text.as_str(), count)?;
    }
    match codes.others() {
        0 => Ok(()),
        others => put_answers(out, kind, "other", others),
    }
}

/// Which count of a kind of message a figure is.
#[derive(Clone, Copy)]
enum KindFigure {
    RequestsTaken,
    RequestsSent,
    AnswersTaken,
}

impl KindFigure {
    /// What it says.
    fn of(self, counts: &KindCounts) -> u64 {
        match self {
            KindFigure::RequestsTaken => counts.requests_taken.get(),
            KindFigure::RequestsSent => counts.requests_sent.get(),
            KindFigure::AnswersTaken => counts.answers_taken.get(),
        }
    }
}

/// Writes a figure of each kind of message; nothing of those of which none was.
fn put_kinds(
    out: &mut Exposition,
    family: &Family<'_>,
    figure: KindFigure,
    messages: &MessageCounts,
) -> Result<(), AllocError> {
    out.heading(family)?;
    for kind in KINDS {
        if let Some(counts) = messages.of(kind) {
            put_kind(out, family, kind, figure.of(counts))?;
        }
    }
    Ok(())
}

/// Writes what is known of messages.
fn put_messages(
    out: &mut Exposition,
    alloc: Global,
    messages: &MessageCounts,
) -> Result<(), AllocError> {
    put_kinds(out, &REQUESTS_TAKEN, KindFigure::RequestsTaken, messages)?;
    out.heading(&MESSAGES)?;
    for kind in KINDS {
        if let Some(counts) = messages.of(kind) {
            put_answered(out, alloc, kind, &counts.answers_sent)?;
        }
    }
    put_kinds(out, &REQUESTS_SENT, KindFigure::RequestsSent, messages)?;
    put_kinds(out, &ANSWERS_TAKEN, KindFigure::AnswersTaken, messages)
}

/// Writes how much memory the process has, if that is known.
fn put_resident<M: Machine>(out: &mut Exposition, rt: &M) -> Result<(), AllocError> {
    match rt.resident() {
        Some(bytes) => put(out, &RESIDENT, bytes),
        None => Ok(()),
    }
}

/// The figures of a server. None of them is found by a pass here, and none needs the site's lock.
pub fn figures_of<'s, 'r, S: SharedSite, M: Machine, G: Log>(
    rt: &M,
    all: &Shared<'s, 'r, S, M, G>,
) -> Result<Exposition, AllocError> {
    let furniture = all.furniture;
    let (alloc, figures) = (furniture.alloc, &furniture.figures);
    let mut out = Exposition::start(alloc);
    put_site(&mut out, rt, all)?;
    put_resident(&mut out, rt)?;
    put_connections(&mut out, figures, furniture.desks.len())?;
    put_hosts(&mut out, rt, alloc, &furniture.guests)?;
    put_messages(&mut out, alloc, &figures.messages)?;
    put_pushes(&mut out, alloc, figures)?;
    put_calls(&mut out, alloc, figures)?;
    put_letters(&mut out, alloc, figures, all.exchange.peers.as_slice())?;
    put_traffic(&mut out, figures)?;
    put_sessions(&mut out, figures, figures.uptime(rt))?;
    put_forgotten(&mut out, figures, figures.seconds(rt))?;
    put_taken(&mut out, alloc, figures)?;
    put_codes(&mut out, alloc, &ASKS, &figures.asks)?;
    Ok(out)
}
