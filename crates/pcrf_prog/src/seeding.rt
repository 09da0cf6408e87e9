//! What hashes of a site that serves begin with.
use crate::socket_server::{ServerFault, tell_no_start};
use log::Log;
use pcrf_values::HashSeed;
use std::random::RandomSource;

/// A seed that nobody else knows, drawn at random from the system. The log is told if there are no random bytes.
pub fn drawn_seed<R: RandomSource, G: Log>(rt: &R, log: &G) -> Result<HashSeed, ServerFault> {
    let mut bytes = [0u8; 16];
    // Gateways choose Session-Ids. Who knew the seed could choose ones that all have one hash, and a look-up would go through all
    // of them.
    if let Err(error) = rt.fill_bytes(&mut bytes) {
        tell_no_start(log, &error);
        return Err(ServerFault::Network);
    }
    Ok(HashSeed::of(u128::from_le_bytes(bytes)))
}
