//! Why a server ends without having settled.
use std::alloc::{AllocError, AllocFailed};
use std::io;
use thiserror::Error;

/// Why a server ends without having settled.
#[derive(Clone, Copy, Debug, PartialEq, Eq, Error)]
pub enum ServerFault {
    /// A socket can't be made, a peer can't be reached, or an address is none.
    #[error("network")]
    Network,
    /// The history doesn't settle.
    #[error("unsettled")]
    Unsettled,
    /// Memory ran out.
    #[error("no memory")]
    NoMemory,
}

impl From<AllocError> for ServerFault {
    ghost use Rattle.std.specs.Prelude.{◌≡◌};
    ghost use Rattle.pcrf_prog.specs.declared.socket_server.fault.ServerFault.TheVariants as faults;

    ghost from_gives = { λ _ fault. fault ≡ faults.NoMemory };

    fn from(_refused: AllocError) -> ServerFault {
        ServerFault::NoMemory
    }
}

impl<T: Drop> From<AllocFailed<T>> for ServerFault {
    ghost use Rattle.std.specs.Prelude.{◌≡◌};
    ghost use Rattle.pcrf_prog.specs.declared.socket_server.fault.ServerFault.TheVariants as faults;

    ghost from_gives = { λ _ fault. fault ≡ faults.NoMemory };

    fn from(_refused: AllocFailed<T>) -> ServerFault {
        ServerFault::NoMemory
    }
}

impl From<io::Error> for ServerFault {
    ghost use Rattle.std.specs.Prelude.{◌≡◌};
    ghost use Rattle.pcrf_prog.specs.declared.socket_server.fault.ServerFault.TheVariants as faults;

    ghost from_gives = { λ _ fault. fault ≡ faults.Network };

    fn from(_refused: io::Error) -> ServerFault {
        ServerFault::Network
    }
}
