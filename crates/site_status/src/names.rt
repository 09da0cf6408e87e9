//! Names in paths.
ghost use Rattle.std.specs.Prelude.{◌≡◌, ◌≤◌, ◌<◌, None, IfOk, IfSome, length};
ghost use Rattle.percent_encoding.specs.Percent.{percent_decode};

use percent_encoding::percent_decode;
use std::alloc::{AllocError, Global};

/// How many bytes a name has at most.
pub const NAME_LIMIT: usize = 512;

/// The bytes of a name in a path, whose escapes are read (RFC 3986, 2.1); none where it has more than a name may have.
pub fn name_of(alloc: Global, written: &[u8]) -> Result<Option<Vec<u8>>, AllocError>
    ensures read { IfOk result (λ found. IfSome found (λ name.
        name.items ≡ percent_decode written.now)) }
    ensures within { IfOk result (λ found. IfSome found (λ name. length name.items ≤ NAME_LIMIT)) }
    ensures long { IfOk result (λ found. found ≡ None
        → NAME_LIMIT < length (percent_decode written.now)) }
{
    let mut name = Vec::new(alloc);
    percent_decode(written).append_to(&mut name)?;
    if name.len() > NAME_LIMIT {
        return Ok(None);
    }
    Ok(Some(name))
}
