//! Why a request is refused.
ghost use Rattle.std.specs.Prelude.{◌≡◌, true, false};

use std::error::Error;
use std::fmt::{self, Display, Formatter, Write};

/// The result of a refused request.
#[derive(Clone, Copy, Debug, PartialEq, Eq)]
pub struct Refusal {
    /// The value of Result-Code (RFC 6733, 7.1), or of Experimental-Result-Code (7.7).
    pub code: u32,
    /// The code is one of 3GPP's, written in an Experimental-Result (RFC 6733, 7.6).
    pub experimental: bool,
}

impl Refusal {
    /// A refusal by a Result-Code of RFC 6733.
    pub const fn base(code: u32) -> Refusal
        ensures { result ≡ record { code = code; experimental = false } }
    {
        Refusal {
            code,
            experimental: false,
        }
    }

    /// A refusal by an Experimental-Result-Code of 3GPP.
    pub const fn experimental(code: u32) -> Refusal
        ensures { result ≡ record { code = code; experimental = true } }
    {
        Refusal {
            code,
            experimental: true,
        }
    }
}

impl Display for Refusal {
    fn fmt<W: Write>(&self, f: &mut Formatter<W>) -> fmt::Result {
        if self.experimental {
            return write!(f, "Experimental-Result-Code {}", self.code);
        }
        write!(f, "Result-Code {}", self.code)
    }
}

impl Error for Refusal {}
