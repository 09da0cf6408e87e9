//! Connections that are accepted when they are first read, so that those that are there are served while others are awaited.
use crate::socket_server::journal::tell_connected;
use crate::socket_server::sockets::prepare;
use log::Log;
use std::alloc::{AllocError, Global};
use std::io::{self, ErrorKind, Read, Write};
use std::net::{Shutdown, TcpListener, TcpStream};
use std::sync::OnceLock;

/// Where a connection stands once it is accepted.
pub type Accepted = OnceLock<TcpStream>;

/// Room for so many connections.
pub fn places(alloc: Global, count: usize) -> Result<Vec<Accepted>, AllocError> {
    let mut places = Vec::with_capacity(alloc, count)?;
    for _ in 0..count {
        places.push(OnceLock::new())?;
    }
    Ok(places)
}

/// The reading half of a connection, which accepts it at its first read.
#[derive(Drop)]
pub struct Reading<'a, G> {
    pub(crate) listener: &'a TcpListener,
    pub(crate) place: &'a Accepted,
    /// The number of its seat.
    pub(crate) number: usize,
    pub(crate) log: &'a G,
}

impl<'a, G: Log> Reading<'a, G> {
    /// Accepts the connection.
    fn accept(&self) -> io::Result<()> {
        let (stream, peer) = self.listener.accept()?;
        prepare(&stream)?;
        tell_connected(self.log, self.number, peer);
        let _ = self.place.try_set(stream);
        Ok(())
    }

    /// The connection, which is awaited where none was accepted yet.
    fn stream(&self) -> io::Result<&'a TcpStream> {
        if self.place.get().is_none() {
            self.accept()?;
        }
        let Some(stream) = self.place.get() else {
            return Err(io::Error::from(ErrorKind::NotConnected));
        };
        Ok(stream)
    }
}

impl<G: Log> Read for Reading<'_, G> {
    fn read(&mut self, buf: &mut [u8]) -> io::Result<usize> {
        let mut stream = self.stream()?;
        stream.read(buf)
    }
}

/// The writing half of a connection, which is closed once this is dropped.
pub struct Writing<'a> {
    pub(crate) place: &'a Accepted,
}

impl Drop for Writing<'_> {
    fn drop(self) {
        if let Some(stream) = self.place.get() {
            let _ = stream.shutdown(Shutdown::Both);
        }
        let Writing { place: _ } = self;
    }
}

impl Write for Writing<'_> {
    fn write(&mut self, buf: &[u8]) -> io::Result<usize> {
        let Some(mut stream) = self.place.get() else {
            return Err(io::Error::from(ErrorKind::NotConnected));
        };
        stream.write(buf)
    }

    fn flush(&mut self) -> io::Result<()> {
        Ok(())
    }
}
