//! Why a credit control request may be refused.
ghost use Rattle.std.specs.Prelude.{◌≡◌, Some, None, if◌then◌else◌};
ghost use Rattle.std.specs.Option.{option_copied};
ghost use Rattle.pcrf_values.specs.Results.{authorization_rejected};
ghost use Rattle.pcrf_values.specs.Held.{is_ended};
ghost use Rattle.pcrf_values.specs.Live.{gx_is_live};
ghost use Rattle.pcrf_model.specs.Refusals.{lacks_parameters, names_no_row};
ghost use Rattle.pcrf_model.specs.Requests.{gives_no_address};
ghost use Rattle.gx_profile.specs.Requests.{ccr_view};
ghost use Rattle.site_join.specs.States.{record_facts};

use dia_base::codes::results::AUTHORIZATION_REJECTED;
use gx_profile::Ccr;
use gx_records::GxRec;
use indexed_state::Tables;
use pcrf_values::{Apn, Refusal};

/// The session has ended, as far as is known.
pub(crate) fn has_ended(known: Option<&GxRec>) -> bool
    ensures { result ≡ is_ended (record_facts (option_copied known.entry)) }
{
    match known {
        Some(session) => session.ended(),
        None => false,
    }
}

/// The session is live.
pub(crate) fn is_live(known: Option<&GxRec>) -> bool
    ensures { result ≡ gx_is_live (record_facts (option_copied known.entry)) }
{
    match known {
        Some(session) => session.live(),
        None => false,
    }
}

/// The refusal of a request that names an access point without a row in the tables.
pub(crate) fn row_refusal(tables: &Tables, apn: &Option<Apn>) -> Option<Refusal>
    ensures { result
        ≡ (if names_no_row tables.now apn.now then Some authorization_rejected else None) }
{
    match apn {
        Some(name) if tables.apn(name).is_none() => Some(Refusal::base(AUTHORIZATION_REJECTED)),
        _ => None,
    }
}

/// The request says nowhere its user is reached: it gives neither an address nor a prefix.
fn gives_no_address(ccr: &Ccr) -> bool
    ensures { result ≡ gives_no_address (ccr_view ccr.now).user }
{
    ccr.address.is_none() && ccr.prefix.is_none()
}

/// The request lacks what an initial one must give (TS 29.212, 4.5.1).
pub(crate) fn lacks(ccr: &Ccr) -> bool
    ensures { result ≡ lacks_parameters (ccr_view ccr.now) }
{
    gives_no_address(ccr) || ccr.apn.is_none() || ccr.subscribers.is_none()
}
