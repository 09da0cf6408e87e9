//! What a server that stays needs of its machine.
use crate::kept_files::EpochFiles;
use crate::resident::Resident;
use std::net::{Net, TcpListener, TcpStream};
use std::random::RandomSource;
use std::sync::Wait;
use std::thread::Threads;
use std::time::Clock;

/// What a server that stays needs of its machine.
pub trait Machine: Net<Listener = TcpListener, Stream = TcpStream>
    + Threads
    + Wait
    + Clock
    + RandomSource
    + EpochFiles
    + Resident
    + Sync {}

impl<
    M: Net<Listener = TcpListener, Stream = TcpStream>
        + Threads
        + Wait
        + Clock
        + RandomSource
        + EpochFiles
        + Resident
        + Sync,
> Machine for M {}
