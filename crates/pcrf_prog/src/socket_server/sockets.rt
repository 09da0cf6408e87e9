//! The sockets of a server.
use crate::socket_server::fault::ServerFault;
use crate::socket_server::journal::{tell_dialled, tell_dialling, tell_listens};
use crate::socket_server::settings::Addresses;
use log::Log;
use pcrf_serve::Role;
use std::alloc::Global;
use std::net::{Net, SocketAddr, SocketAddrV4, TcpListener, TcpStream};
use std::sync::Mutex;
use std::time::{Clock, Duration};
use std::{io, thread};

/// How often a peer site is dialled at most.
const TRIES: u32 = 600;

/// How many seconds a peer site has to answer.
const ANSWER_SECONDS: u64 = 1;

/// How many milliseconds a server waits before it dials again.
const PAUSE_MILLIS: u64 = 100;

/// How many seconds a write may take: who doesn't read for so long loses its connection.
const WRITE_SECONDS: u64 = 30;

/// A connection to a peer site.
#[derive(Drop)]
pub struct PeerLink {
    /// Who dialled sends letters, and who was dialled takes them.
    pub role: Role,
    /// The other end.
    pub address: SocketAddr,
    /// The connection, until its worker takes it.
    pub stream: Mutex<Option<TcpStream>>,
}

impl PeerLink {
    /// A connection with nobody who took it yet.
    fn of(role: Role, address: SocketAddr, stream: TcpStream) -> PeerLink {
        PeerLink {
            role,
            address,
            stream: Mutex::new(Some(stream)),
        }
    }
}

/// The sockets of a server.
#[derive(Drop)]
pub struct Sockets {
    /// Where gateways and application functions connect.
    pub listener: TcpListener,
    /// The connections to peer sites.
    pub peers: Vec<PeerLink>,
}

/// Small messages are sent at once, and a write doesn't wait for ever.
pub fn prepare(stream: &TcpStream) -> io::Result<()> {
    stream.set_nodelay(true)?;
    stream.set_write_timeout(Some(Duration::from_secs(WRITE_SECONDS)))
}

/// The address of a text.
fn address(text: &str) -> Result<SocketAddrV4, ServerFault> {
    match text.parse::<SocketAddrV4>() {
        Ok(address) => Ok(address),
        Err(_) => Err(ServerFault::Network),
    }
}

/// Binds an address.
fn bind<R: Net<Listener = TcpListener, Stream = TcpStream>>(
    rt: &R,
    text: &str,
) -> Result<TcpListener, ServerFault> {
    Ok(TcpListener::bind(rt, address(text)?)?)
}

/// Dials a peer site until it answers, or too often.
fn dial<R: Net<Listener = TcpListener, Stream = TcpStream> + Clock>(
    rt: &R,
    text: &str,
) -> Result<PeerLink, ServerFault> {
    let address = SocketAddr::V4(address(text)?);
    let answer = Duration::from_secs(ANSWER_SECONDS);
    for _ in 0..TRIES {
        if let Ok(stream) = TcpStream::connect_timeout(rt, &address, answer) {
            prepare(&stream)?;
            return Ok(PeerLink::of(Role::Dial, address, stream));
        }
        thread::sleep(rt, Duration::from_millis(PAUSE_MILLIS));
    }
    Err(ServerFault::Network)
}

/// Dials each peer site.
fn dial_all<R: Net<Listener = TcpListener, Stream = TcpStream> + Clock, G: Log>(
    rt: &R,
    addresses: &[&str],
    links: &mut Vec<PeerLink>,
    log: &G,
) -> Result<(), ServerFault> {
    for peer in addresses {
        let link = dial(rt, peer)?;
        tell_dialled(log, link.address);
        links.push(link)?;
    }
    Ok(())
}

/// Accepts a peer site.
fn accept(listener: &TcpListener) -> Result<PeerLink, ServerFault> {
    let (stream, address) = listener.accept()?;
    prepare(&stream)?;
    Ok(PeerLink::of(Role::Listen, address, stream))
}

/// Accepts so many peer sites.
fn accept_all<G: Log>(
    listener: &TcpListener,
    count: usize,
    links: &mut Vec<PeerLink>,
    log: &G,
) -> Result<(), ServerFault> {
    for _ in 0..count {
        let link = accept(listener)?;
        tell_dialling(log, link.address);
        links.push(link)?;
    }
    Ok(())
}

/// The connections to the peer sites: each is dialled, and then as many are accepted.
fn meet_peers<R: Net<Listener = TcpListener, Stream = TcpStream> + Clock, G: Log>(
    rt: &R,
    alloc: Global,
    exchanging: &TcpListener,
    peers: &[&str],
    log: &G,
) -> Result<Vec<PeerLink>, ServerFault> {
    let mut links = Vec::new(alloc);
    dial_all(rt, peers, &mut links, log)?;
    accept_all(exchanging, peers.len(), &mut links, log)?;
    Ok(links)
}

/// Binds both addresses, and meets the peer sites.
pub fn open_sockets<R: Net<Listener = TcpListener, Stream = TcpStream> + Clock, G: Log>(
    rt: &R,
    alloc: Global,
    addresses: &Addresses<'_>,
    log: &G,
) -> Result<Sockets, ServerFault> {
    let listener = bind(rt, addresses.listen)?;
    let exchanging = bind(rt, addresses.exchange)?;
    tell_listens(log, listener.local_addr()?, exchanging.local_addr()?);
    let peers = meet_peers(rt, alloc, &exchanging, addresses.peers, log)?;
    Ok(Sockets { listener, peers })
}
