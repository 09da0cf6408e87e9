//! The files of a site beside its operator tables: the secret that all sites have, and how often the site has started.
use crate::files::read_file;
use peer_lines::{Key, SecretFault, secret_of};
use std::alloc::{AllocError, Global};
use std::fs::{self, OpenFile};
use std::io::{self, ErrorKind, Write};
use std::os::unix::fs::PermissionsExt;
use std::rt::Files;
use std::str;
use thiserror::Error;

/// The most bytes that a file with a secret may have.
const SECRET_LIMIT: u64 = 65_536;

/// The most bytes that a file with an epoch may have.
const EPOCH_LIMIT: u64 = 64;

/// The bit of a file's mode by which others may read it.
const OTHERS_READ: u32 = 0o004;

/// Why a file can't be used.
#[derive(Clone, Copy, Debug, PartialEq, Eq, Error)]
pub enum FileFault {
    /// The secret can't be read.
    #[error("secret: it can't be read")]
    SecretUnreadable,
    /// Others may read it.
    #[error("secret: its mode lets others read it")]
    SecretOpen,
    /// It is no secret.
    #[error("secret: {0}")]
    NoSecret(SecretFault),
    /// The epoch can't be read.
    #[error("epoch file: it can't be read, or is no number from 0 to 65535")]
    EpochUnreadable,
    /// There is no further epoch.
    #[error("epoch file: 65535 was the last epoch")]
    EpochSpent,
    /// The next epoch can't be written.
    #[error("epoch file: the next epoch can't be written")]
    EpochUnwritten,
    /// Memory ran out.
    #[error("no memory")]
    NoMemory,
}

impl From<AllocError> for FileFault {
    ghost use Rattle.std.specs.Prelude.{◌≡◌};
    ghost use Rattle.pcrf_prog.specs.declared.kept_files.FileFault.TheVariants as faults;

    ghost from_gives = { λ _ fault. fault ≡ faults.NoMemory };

    fn from(_refused: AllocError) -> FileFault {
        FileFault::NoMemory
    }
}

/// The secret of a text, which may have blanks around it.
fn secret_of_text(alloc: Global, bytes: &[u8]) -> Result<Key, FileFault> {
    let Ok(text) = str::from_utf8(bytes) else {
        return Err(FileFault::NoSecret(SecretFault::NotHexadecimal));
    };
    match secret_of(alloc, text.trim().as_bytes()) {
        Ok(secret) => Ok(secret),
        Err(fault) => Err(FileFault::NoSecret(fault)),
    }
}

/// The secret of a file, in hexadecimal digits, of 32 bytes at least. Others mustn't be able to read it.
pub fn secret_of_file<H: Files + AllocGlobal>(rt: &H, path: &str) -> Result<Key, FileFault> {
    let Ok(told) = rt.metadata(path) else {
        return Err(FileFault::SecretUnreadable);
    };
    if told.permissions().mode() & OTHERS_READ != 0 {
        return Err(FileFault::SecretOpen);
    }
    match read_file(rt, path, SECRET_LIMIT) {
        Ok(bytes) => secret_of_text(rt.alloc(), bytes.as_slice()),
        Err(_) => Err(FileFault::SecretUnreadable),
    }
}

/// The epoch that a file says; 0 where there is none.
fn last_epoch<H: Files + AllocGlobal>(rt: &H, path: &str) -> Result<u16, FileFault> {
    let bytes = match read_file(rt, path, EPOCH_LIMIT) {
        Ok(bytes) => bytes,
        Err(error) if error.kind() == ErrorKind::NotFound => return Ok(0),
        Err(_) => return Err(FileFault::EpochUnreadable),
    };
    let Ok(text) = str::from_utf8(bytes.as_slice()) else {
        return Err(FileFault::EpochUnreadable);
    };
    match text.trim().parse::<u16>() {
        Ok(epoch) => Ok(epoch),
        Err(_) => Err(FileFault::EpochUnreadable),
    }
}

/// Writes an epoch to a new file, and has it on the disk.
fn write_epoch<H: Files>(rt: &H, path: &str, epoch: u16) -> io::Result<()> {
    let mut file = fs::create(rt, path)?;
    writeln!(file, "{epoch}")?;
    file.flush()?;
    file.sync_all()
}

/// Has a file say an epoch, on the disk: it is written beside it, and takes its name.
fn keep_epoch<H: Files>(rt: &H, alloc: Global, path: &str, epoch: u16) -> Result<(), FileFault> {
    let beside = format!(in alloc; "{path}.new")?;
    if write_epoch(rt, beside.as_str(), epoch).is_err()
        || fs::rename(rt, beside.as_str(), path).is_err()
    {
        return Err(FileFault::EpochUnwritten);
    }
    Ok(())
}

/// Who can have a file say an epoch.
pub trait EpochFiles {
    /// Has a file say an epoch, on the disk: it is written beside it, and takes its name.
    fn keep_epoch(&self, alloc: Global, path: &str, epoch: u16) -> Result<(), FileFault>;
}

// For this runtime alone: what is known of a type that has `Files` isn't known in another thread.
impl EpochFiles for HostRuntime {
    fn keep_epoch(&self, alloc: Global, path: &str, epoch: u16) -> Result<(), FileFault> {
        keep_epoch(self, alloc, path, epoch)
    }
}

/// The next epoch of a file, once the file says that.
pub fn next_epoch<H: Files + AllocGlobal>(rt: &H, path: &str) -> Result<u16, FileFault> {
    let Some(epoch) = last_epoch(rt, path)?.checked_add(1) else {
        return Err(FileFault::EpochSpent);
    };
    keep_epoch(rt, rt.alloc(), path, epoch)?;
    Ok(epoch)
}
