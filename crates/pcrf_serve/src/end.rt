//! How a connection ended.
ghost use Rattle.std.specs.Prelude.{◌≡◌};
ghost use Rattle.pcrf_serve.specs.declared.end.LinkEnd.TheVariants as ends;

use dia_codec::FrameFault;
use peer_exchange::LetterFault;
use site_lock::StepFault;
use std::alloc::AllocError;

/// How a connection ended.
#[derive(Clone, Copy, Debug, PartialEq, Eq)]
pub enum LinkEnd {
    /// The input ended between messages, or every turn was made.
    Closed,
    /// The input ended within a message.
    Cut,
    /// A request for the end of the connection was granted (RFC 6733, 5.4).
    Disconnected,
    /// A length stood in a header that no message can have. Nothing is answered to it.
    Frame(FrameFault),
    /// The reader failed, or gave no end within 2^40 reads.
    ReadFailed,
    /// The writer failed.
    WriteFailed,
    /// Memory ran out.
    NoMemory,
    /// The gate let a message not through.
    Gate,
    /// A peer's letter was not read, or one for the peer not written.
    Letter(LetterFault),
    /// The site's history has no room for a further event.
    HistoryFull,
}

impl From<AllocError> for LinkEnd {
    ghost from_gives = { λ _ end. end ≡ ends.NoMemory };

    fn from(_refused: AllocError) -> LinkEnd {
        LinkEnd::NoMemory
    }
}

impl From<FrameFault> for LinkEnd {
    ghost use Rattle.pcrf_serve.specs.Ends.{end_of_frame};

    ghost from_gives = { λ fault end. end ≡ end_of_frame fault };

    fn from(fault: FrameFault) -> LinkEnd {
        match fault {
            FrameFault::NoMemory => LinkEnd::NoMemory,
            fault => LinkEnd::Frame(fault),
        }
    }
}

impl From<LetterFault> for LinkEnd {
    ghost use Rattle.pcrf_serve.specs.Ends.{end_of_letter};

    ghost from_gives = { λ fault end. end ≡ end_of_letter fault };

    fn from(fault: LetterFault) -> LinkEnd {
        match fault {
            LetterFault::NoMemory => LinkEnd::NoMemory,
            fault => LinkEnd::Letter(fault),
        }
    }
}

impl From<peer_exchange::FrameFault> for LinkEnd {
    ghost use Rattle.pcrf_serve.specs.Ends.{end_of_letters};

    ghost from_gives = { λ fault end. end ≡ end_of_letters fault };

    fn from(fault: peer_exchange::FrameFault) -> LinkEnd {
        match fault {
            peer_exchange::FrameFault::TooLong => LinkEnd::Letter(LetterFault::TooLong),
            peer_exchange::FrameFault::NoMemory => LinkEnd::NoMemory,
        }
    }
}

impl From<StepFault> for LinkEnd {
    ghost use Rattle.pcrf_serve.specs.Ends.{end_of_step};

    ghost from_gives = { λ fault end. end ≡ end_of_step fault };

    /// How a site that takes no event ends a connection that can't go on without it. Of what peers ask for and send nothing
    /// needs a counter: a clock at its end is met at pushes and aborts alone, which end no connection.
    fn from(fault: StepFault) -> LinkEnd {
        match fault {
            StepFault::HistoryFull | StepFault::ClockFull => LinkEnd::HistoryFull,
            StepFault::NoMemory => LinkEnd::NoMemory,
        }
    }
}
