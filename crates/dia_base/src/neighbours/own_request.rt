//! Requests of the base protocol that a site sends its peers.
ghost use Rattle.std.specs.Prelude.{◌≡◌, ◌≤◌, ◌+◌, [], IfOk, OnOk};
ghost use Rattle.std.specs.List.{sum_by};
ghost use Rattle.dia_codec.specs.Drafts.{Adds};
ghost use Rattle.dia_codec.specs.Limits.{longest_message};
ghost use Rattle.dia_codec.specs.Written.{padded_len, written_spelling};
ghost use Rattle.dia_base.specs.Answers.{origin_avps};
ghost use Rattle.dia_base.specs.NeighbourAvps.{device_watchdog_command};
ghost use Rattle.dia_base.specs.NeighbourOwnRequests.{dwr, neighbour_header};

use crate::answer::{AvpWriter, put_origin};
use crate::identity::Identity;
use crate::neighbours::codes::BASE;
use crate::neighbours::codes::commands::DEVICE_WATCHDOG;
use dia_codec::{Flags, Header};
use std::alloc::{AllocError, Global};

/// The header of a watchdog's request with these identifiers.
fn watchdog_header(hop_id: u32, end_id: u32) -> Header
    ensures { result ≡ neighbour_header device_watchdog_command hop_id end_id }
{
    Header {
        flags: Flags {
            request: true,
            proxiable: false,
            error: false,
            retransmitted: false,
        },
        command: DEVICE_WATCHDOG,
        application: BASE,
        hop_id,
        end_id,
    }
}

/// The AVPs of a watchdog's request. Every one fits a message.
fn watchdog_avps(alloc: Global, identity: &Identity) -> Result<AvpWriter, AllocError>
    ensures added { IfOk result (λ out. Adds [] out (origin_avps identity.now)) }
    ensures within { OnOk result
        (20 + sum_by padded_len (origin_avps identity.now) ≤ longest_message) }
{
    identity.note_names();
    let mut out = AvpWriter::start(alloc)?;
    put_origin(&mut out, identity)?;
    Ok(out)
}

/// The bytes of the Device-Watchdog-Request with these identifiers, by which a site asks whether its peer is there (RFC 6733, 5.5.1).
#[tactic(auto, unfolding(crate::specs::NeighbourOwnRequests::dwr))]
pub fn write_dwr(
    alloc: Global,
    identity: &Identity,
    hop_id: u32,
    end_id: u32,
) -> Result<Vec<u8>, AllocError>
    ensures { IfOk result (λ bytes. bytes.items
        ≡ written_spelling (dwr identity.now hop_id end_id)) }
{
    let out = watchdog_avps(alloc, identity)?;
    match out.into_bytes(&watchdog_header(hop_id, end_id)) {
        Some(bytes) => Ok(bytes),
        None => unreachable!(),
    }
}
