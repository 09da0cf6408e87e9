//! Which sessions are asked for, by their own record.
ghost use Rattle.std.specs.Prelude.{◌≡◌};
ghost use Rattle.std.specs.Option.{option_copied};
ghost use Rattle.rule_delta.specs.AbortsByRecord.{is_asked, is_at_home, is_at_host, shows_client};

use af_records::AfRec;

/// Of which sessions an abort is asked for.
#[derive(Clone, Copy)]
pub(crate) struct Asked<'a> {
    /// The site that is their home.
    pub(crate) site: u8,
    /// The host of their application function, any where none is given.
    pub(crate) host: Option<&'a [u8]>,
}

/// The session is live, says who its client is, was not asked to abort yet, and is one of those that are asked for.
pub(crate) fn is_asked(asked: &Asked<'_>, known: &AfRec) -> bool
    ensures { result ≡ is_asked asked.now.site (option_copied asked.now.host) known.now }
{
    known.live()
        && shows_client(known)
        && !known.aborted()
        && is_at_home(known, asked.site)
        && is_at_host(known, asked.host)
}

/// The session says who its client is, and which site served it last.
fn shows_client(known: &AfRec) -> bool
    ensures { result ≡ shows_client known.now }
{
    known.host().is_some() && known.realm().is_some() && known.last().is_some()
}

/// The site is the home of the session: it served its last request.
fn is_at_home(known: &AfRec, site: u8) -> bool
    ensures { result ≡ is_at_home site known.now }
{
    match known.last() {
        Some((tag, _)) => tag.site == site,
        None => false,
    }
}

/// The session's host is this one, any where none is given.
fn is_at_host(known: &AfRec, host: Option<&[u8]>) -> bool
    ensures { result ≡ is_at_host (option_copied host.entry) known.now }
{
    let Some(wanted) = host else {
        return true;
    };
    match known.host() {
        Some((_, shown)) => shown.as_slice() == wanted,
        None => false,
    }
}
