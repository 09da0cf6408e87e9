//! The writing half of a link: its letters go out by it, and between them the notices that tell which hosts the site reaches.
ghost use Rattle.std.specs.Prelude.{◌≤◌, length, IfOk};

use crate::line::Outward;
use crate::notice::{put_all, put_change};
use crate::sealed::SealedWriter;
use pcrf_values::DiameterIdentity;
use std::alloc::{AllocError, Global};
use std::collections::BTreeSet;
use std::io::{self, ErrorKind, Write};
use std::sync::{Mutex, Wait};

/// How a link is written.
#[derive(Drop)]
pub(crate) enum Output {
    /// As it is.
    Plain(Outward),
    /// With codes (docs/LETTERS.md, "Sealed links").
    Sealed(SealedWriter<Outward>),
}

impl Write for Output {
    fn write(&mut self, buf: &[u8]) -> io::Result<usize> {
        match self {
            Output::Plain(line) => line.write(buf),
            Output::Sealed(writer) => writer.write(buf),
        }
    }

    fn flush(&mut self) -> io::Result<()> {
        match self {
            Output::Plain(line) => line.flush(),
            Output::Sealed(writer) => writer.flush(),
        }
    }
}

/// The writing half of a link.
#[derive(Drop)]
pub struct Teller {
    output: Mutex<Output>,
    /// Which hosts were told, once all were.
    told: Mutex<Option<BTreeSet<DiameterIdentity>>>,
}

/// The notices by which it is told that these hosts are reached: all of them where none were told yet, else what has changed.
fn notices(
    alloc: Global,
    told: &Option<BTreeSet<DiameterIdentity>>,
    hosts: &BTreeSet<DiameterIdentity>,
) -> Result<Vec<u8>, AllocError> {
    let mut bytes = Vec::new(alloc);
    let Some(told) = told else {
        put_all(alloc, &mut bytes, hosts)?;
        return Ok(bytes);
    };
    for host in told.iter() {
        if !hosts.contains(host) {
            put_change(alloc, &mut bytes, host, false)?;
        }
    }
    for host in hosts.iter() {
        if !told.contains(host) {
            put_change(alloc, &mut bytes, host, true)?;
        }
    }
    Ok(bytes)
}

impl Teller {
    /// Of a link over which nothing was told yet.
    pub(crate) fn of(output: Output) -> Teller {
        Teller {
            output: Mutex::new(output),
            told: Mutex::new(None),
        }
    }

    /// Writes some of a letter.
    pub(crate) fn write(&self, rt: &impl Wait, buf: &[u8]) -> io::Result<usize>
        ensures { IfOk result (λ count. count ≤ length buf.now) }
    {
        self.output.lock(rt).write(buf)
    }

    /// A letter was written.
    pub(crate) fn flush(&self, rt: &impl Wait) -> io::Result<()> {
        self.output.lock(rt).flush()
    }

    /// Tells the other end that these hosts are reached, and no others: all of them at first, then each change. No letter may be being
    /// written meanwhile. Behind an error the link is to be ended.
    pub fn tell(
        &self,
        rt: &impl Wait,
        alloc: Global,
        hosts: BTreeSet<DiameterIdentity>,
    ) -> io::Result<()> {
        let mut told = self.told.lock(rt);
        let Ok(bytes) = notices(alloc, &told, &hosts) else {
            return Err(io::Error::from(ErrorKind::OutOfMemory));
        };
        *told = Some(hosts);
        if bytes.is_empty() {
            return Ok(());
        }
        let mut output = self.output.lock(rt);
        output.write_all(bytes.as_slice())?;
        output.flush()
    }
}
