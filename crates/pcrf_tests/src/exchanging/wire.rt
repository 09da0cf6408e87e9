//! A peer that says what was written down before, a gate, and whoever reaches gateways.
ghost use Rattle.std.specs.Prelude.{◌≡◌};
ghost use Rattle.pcrf_serve.specs.Earlier.{Adds};
ghost use Rattle.pcrf_serve.specs.Events.{IsPushToHost};

use crate::values::known_gateway;
use dia_base::Origin;
use pcrf_serve::{Gate, Pushes, SharedSite};
use site_machine::Event;
use std::alloc::{AllocError, Global};
use std::io;
use std::io::{ErrorKind, Read, Write};
use std::sync::Wait;
use std::thread::Threads;

/// How many bytes are read at once.
const READ_BYTES: usize = 7;

/// How many bytes are written at once.
pub const WRITE_BYTES: usize = 5;

/// What a peer says, what it was told, and how many more reads and writes go well.
#[derive(Drop)]
pub struct Wire<'a> {
    /// What is still to be read.
    pub left: &'a [u8],
    pub reads: usize,
    pub told: &'a mut Vec<u8>,
    /// Each flush is one of these too.
    pub writes: usize,
}

/// One call more, or a failure.
fn count_call(left: &mut usize) -> io::Result<()> {
    if *left == 0 {
        return Err(io::Error::from(ErrorKind::BrokenPipe));
    }
    *left -= 1;
    Ok(())
}

impl Read for Wire<'_> {
    fn read(&mut self, buf: &mut [u8]) -> io::Result<usize> {
        count_call(&mut self.reads)?;
        let count = buf.len().min(self.left.len()).min(READ_BYTES);
        buf[..count].copy_from_slice(&self.left[..count]);
        self.left = &self.left[count..];
        Ok(count)
    }
}

impl Write for Wire<'_> {
    fn write(&mut self, buf: &[u8]) -> io::Result<usize> {
        count_call(&mut self.writes)?;
        let count = buf.len().min(WRITE_BYTES);
        self.told.extend_from_slice(&buf[..count])?;
        Ok(count)
    }

    fn flush(&mut self) -> io::Result<()> {
        count_call(&mut self.writes)
    }
}

/// A gate that lets in, and lets out, messages below a number.
#[derive(Clone, Copy)]
pub struct Doors {
    pub into: u64,
    pub out_of: u64,
}

/// Open doors.
pub const OPEN: Doors = Doors {
    into: u64::MAX,
    out_of: u64::MAX,
};

impl Gate for Doors {
    fn enter(&self, _connection: usize, message: u64) -> bool {
        message < self.into
    }

    fn leave(&self, _connection: usize, message: u64) -> bool {
        message < self.out_of
    }
}

/// Who reaches gateways.
#[derive(Clone, Copy)]
pub enum Gateways {
    /// No gateway can be reached.
    Unreached,
    /// The site is asked once what is due to a gateway.
    Asked,
    /// There is no memory.
    Refused,
}

/// The site is asked what is due to the gateway `gw`.
fn ask<R: Threads + Wait + Sync, S: SharedSite>(
    rt: &R,
    alloc: Global,
    site: &S,
    seat: &mut S::Seat,
) -> Result<(), AllocError>
    ensures { Adds IsPushToHost (S.seen seat.old) (S.seen seat.new) }
{
    let Ok(gateway) = known_gateway(alloc) else {
        return Err(AllocError);
    };
    let Origin { host, realm: _ } = gateway;
    let event = Event::Push(Some(host));
    let reply = site.call(rt, seat, &event);
    drop(reply);
    drop(event);
    Ok(())
}

impl Pushes for Gateways {
    fn push_all<R: Threads + Wait + Sync, S: SharedSite>(
        &self,
        rt: &R,
        alloc: Global,
        site: &S,
        seat: &mut S::Seat,
    ) -> Result<(), AllocError> {
        match self {
            Gateways::Unreached => Ok(()),
            Gateways::Refused => Err(AllocError),
            Gateways::Asked => ask(rt, alloc, site, seat),
        }
    }
}
