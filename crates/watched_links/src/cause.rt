//! Why a site ended a connection, in words.
use std::fmt::{self, Display, Formatter, Write};

/// Why a site ended a connection.
#[derive(Clone, Copy, Debug, PartialEq, Eq)]
pub enum Cause {
    /// No capabilities exchange came in time.
    NoExchange,
    /// Another message came before it (RFC 6733, 5.6).
    OtherFirst,
    /// Its Origin-Host is the site's own.
    OwnHost,
    /// Its Origin-Host isn't that of the connection's first exchange.
    OtherHost,
    /// Nothing came for so long, and then for as long again (RFC 3539, 3.4.1).
    Silent,
    /// More bytes wait for it than may.
    Overfull,
    /// A write failed, or took too long.
    Unwritten,
}

impl Display for Cause {
    fn fmt<W: Write>(&self, f: &mut Formatter<W>) -> fmt::Result {
        f.write_str(match self {
            Cause::NoExchange => "it sent no capabilities exchange in time",
            Cause::OtherFirst => "it sent another message before a capabilities exchange",
            Cause::OwnHost => "its Origin-Host is the site's own",
            Cause::OtherHost => "its Origin-Host is not the one that it had before",
            Cause::Silent => "nothing came from it, nor an answer to a watchdog",
            Cause::Overfull => "it reads too little: more waits for it than may",
            Cause::Unwritten => "it could not be written to",
        })
    }
}
