//! Small files, read whole.
use std::fs::{self, OpenFile};
use std::io::{self, ErrorKind, Read};
use std::rt::Files;

/// The bytes of a file, so many at most. They are counted again as they are read, since the file may have grown, or may be a pipe, which
/// tells no length.
pub fn read_file<H: Files + AllocGlobal>(rt: &H, path: &str, limit: u64) -> io::Result<Vec<u8>> {
    let file = fs::open(rt, path)?;
    let told = file.metadata()?;
    if told.is_dir() || told.len() > limit {
        return Err(io::Error::from(ErrorKind::InvalidInput));
    }
    let mut bytes = Vec::new(rt.alloc());
    let count = file.take(limit.saturating_add(1)).read_to_end(&mut bytes)?;
    if count as u64 > limit {
        return Err(io::Error::from(ErrorKind::InvalidInput));
    }
    Ok(bytes)
}
