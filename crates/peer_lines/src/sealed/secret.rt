//! The secret that both ends have.
ghost use Rattle.std.specs.Prelude.{◌≡◌, ◌<◌, length, IfOk, IfErr, IsErr};
ghost use Rattle.hex.specs.Hex.{decode_of};
ghost use Rattle.peer_lines.specs.Secrets.{IsSecret, least_secret};
ghost use Rattle.peer_lines.specs.declared.sealed.secret.SecretFault.TheVariants as faults;

use crate::sealed::hmac::Key;
use hex::FromHexError;
use std::alloc::Global;
use thiserror::Error;

/// How many bytes a secret has at least.
const LEAST_SECRET: usize = 32;

/// Why a text is no secret.
#[derive(Clone, Copy, Debug, PartialEq, Eq, Error)]
pub enum SecretFault {
    /// It isn't hexadecimal, two digits a byte.
    #[error("it is not hexadecimal")]
    NotHexadecimal,
    /// It has too few bytes.
    #[error("it has fewer than 32 bytes")]
    TooShort,
    /// Memory ran out.
    #[error("memory ran out")]
    NoMemory,
}

/// The secret of a text in hexadecimal digits, of 32 bytes at least, as a key.
pub fn secret_of(alloc: Global, text: &[u8]) -> Result<Key, SecretFault>
    ensures key { IfOk result (λ key. IsSecret text.now key.block) }
    ensures form { IfErr result (λ e. e ≡ faults.NotHexadecimal
        → IsErr (decode_of text.now)) }
    ensures short { IfErr result (λ e. e ≡ faults.TooShort
        → IfOk (decode_of text.now) (λ bytes. length bytes < least_secret)) }
{
    let bytes = match hex::decode(alloc, text) {
        Ok(bytes) => bytes,
        Err(FromHexError::OutOfMemory) => return Err(SecretFault::NoMemory),
        Err(_) => return Err(SecretFault::NotHexadecimal),
    };
    if bytes.len() < LEAST_SECRET {
        return Err(SecretFault::TooShort);
    }
    Ok(Key::of(bytes.as_slice()))
}
