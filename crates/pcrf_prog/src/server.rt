//! A run that serves.
use crate::socket_server::{Addresses, SeatPlan, ServerFault, Settings, SiteEpoch, run_server};
use crate::staying::{Console, Input, Machine, Output, StaySettings, run_staying};
use crate::words::{Names, ServeWords, StayWords};
use dia_base::{Identity, MessageForm, state_at_start};
use log::Log;
use op_tables::Tables;
use pcrf_values::DiameterIdentity;
use peer_lines::Key;
use std::alloc::{AllocError, Global};
use std::net::{Ipv4Addr, Net, TcpListener, TcpStream};
use std::random::RandomSource;
use std::sync::Wait;
use std::thread::Threads;
use std::time::Clock;

/// What a server is made from, beside its tables.
#[derive(Drop)]
pub struct Start {
    identity: Identity,
    place: SiteEpoch,
    plan: SeatPlan,
}

/// How many seconds it is since 1970, if the clock tells it.
fn seconds_now<R: Clock>(rt: &R) -> Option<u64> {
    match rt.since_1970() {
        Ok(time) => Some(time.as_secs()),
        Err(_) => None,
    }
}

/// The names of the words, the form in which the site writes, and the state that it tells; `None` where a name is empty or too long, or
/// the address is none of IPv4.
fn identity_of(
    alloc: Global,
    names: Names<'_>,
    form: MessageForm,
    state: Option<u32>,
) -> Result<Option<Identity>, AllocError> {
    let Ok(address) = names.address.parse::<Ipv4Addr>() else {
        return Ok(None);
    };
    let Some(host) = DiameterIdentity::read(alloc, names.host.as_bytes())? else {
        return Ok(None);
    };
    let Some(realm) = DiameterIdentity::read(alloc, names.realm.as_bytes())? else {
        return Ok(None);
    };
    Ok(Some(Identity {
        host,
        realm,
        address,
        form,
        state,
    }))
}

/// What the words ask for in that epoch, at a start now; `None` where they ask for more seats than there are, or for names that can't be.
pub fn start_of<R: Clock>(
    rt: &R,
    alloc: Global,
    words: &ServeWords<'_>,
    epoch: u16,
) -> Result<Option<Start>, AllocError> {
    let Some(place) = SiteEpoch::of(words.site, epoch) else {
        return Ok(None);
    };
    let Some(plan) = SeatPlan::of(words.connections as usize, words.peers.len()) else {
        return Ok(None);
    };
    let state = state_at_start(words.form, !words.peers.is_empty(), seconds_now(rt));
    let Some(identity) = identity_of(alloc, words.names, words.form, state)? else {
        return Ok(None);
    };
    Ok(Some(Start {
        identity,
        place,
        plan,
    }))
}

/// Serves, and answers how many entries the history settled with. The log is told what happens meanwhile.
pub fn serve<
    R: Net<Listener = TcpListener, Stream = TcpStream>
        + Threads
        + Wait
        + Clock
        + RandomSource
        + Sync,
    G: Log + Sync,
>(
    rt: &R,
    alloc: Global,
    words: &ServeWords<'_>,
    start: Start,
    tables: Tables,
    log: &G,
) -> Result<usize, ServerFault> {
    let Start {
        identity,
        place,
        plan,
    } = start;
    let settings = Settings {
        place,
        plan,
        turns: words.turns,
        addresses: Addresses {
            listen: words.listen,
            exchange: words.exchange,
            peers: words.peers.as_slice(),
        },
    };
    run_server(rt, alloc, identity, tables, &settings, log)
}

/// Serves as one that stays. The log is told what happens meanwhile.
pub fn stay<M: Machine, G: Log + Sync, R: Input, W: Output>(
    rt: &M,
    alloc: Global,
    words: &ServeWords<'_>,
    stay: StayWords<'_>,
    secret: Option<Key>,
    start: Start,
    tables: Tables,
    console: Console<R, W>,
    log: &G,
) -> Result<(), ServerFault> {
    let Start {
        identity,
        place,
        plan,
    } = start;
    let settings = StaySettings {
        place,
        connections: plan.connections,
        watchdog: stay.watchdog,
        wait: stay.wait,
        over: stay.over,
        again: stay.again,
        log_limit: stay.log,
        keep_ended: stay.keep_ended,
        epoch_file: stay.epoch_file,
        secret,
        status: stay.status,
        addresses: Addresses {
            listen: words.listen,
            exchange: words.exchange,
            peers: words.peers.as_slice(),
        },
    };
    run_staying(rt, alloc, identity, tables, &settings, console, log)
}
