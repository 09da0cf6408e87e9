//! The grammars of the requests that are served, and of the groups in them, as data.
ghost use Rattle.std.specs.Prelude.{◌≡◌};
ghost use Rattle.site_core.specs.Grammars.{base_grammar, grammar_of, rows_of};

use crate::failed_avps::codes::{avps as base_avps, commands as base_commands, tgpp};
use crate::failed_avps::grammar::{AvpType, Grammar, GrammarRow};
use dia_base::codes::{GX, RX, TGPP, avps, commands};
use dia_codec::{AvpKey, Header};
use pcrf_values::limits::{
    APN_LIMIT, COMPONENTS_LIMIT, FILTERS_LIMIT, FLOWS_LIMIT, IDENTITY_LIMIT, SESSION_ID_LIMIT,
    SUBSCRIBERS_LIMIT, SUBSCRIPTION_DATA_LIMIT,
};

/// The key of an AVP of the IETF.
macro_rules! ietf {
    ($code:expr) => {
        AvpKey {
            code: $code,
            vendor: None,
        }
    };
}

/// The key of an AVP of 3GPP.
macro_rules! tgpp {
    ($code:expr) => {
        AvpKey {
            code: $code,
            vendor: Some(TGPP),
        }
    };
}

/// An AVP that stands once.
macro_rules! once {
    ($key:expr, $kind:expr $(,)?) => {
        GrammarRow {
            key: $key,
            least: 1,
            most: Some(1),
            kind: $kind,
        }
    };
}

/// An AVP that may stand so many times.
macro_rules! up_to {
    ($most:expr, $key:expr, $kind:expr $(,)?) => {
        GrammarRow {
            key: $key,
            least: 0,
            most: Some($most),
            kind: $kind,
        }
    };
}

/// An AVP that may stand any number of times.
macro_rules! any_number {
    ($key:expr, $kind:expr $(,)?) => {
        GrammarRow {
            key: $key,
            least: 0,
            most: None,
            kind: $kind,
        }
    };
}

const SESSION: GrammarRow = once!(ietf!(avps::SESSION_ID), AvpType::Text(SESSION_ID_LIMIT),);

const HOST: GrammarRow = once!(ietf!(avps::ORIGIN_HOST), AvpType::Text(IDENTITY_LIMIT));

const REALM: GrammarRow = once!(ietf!(avps::ORIGIN_REALM), AvpType::Text(IDENTITY_LIMIT));

const APPLICATION: GrammarRow = any_number!(ietf!(avps::AUTH_APPLICATION_ID), AvpType::Unsigned32);

const VENDOR_APPLICATION: GrammarRow = any_number!(
    ietf!(base_avps::VENDOR_SPECIFIC_APPLICATION_ID),
    AvpType::Grouped(Grammar::VendorApplication),
);

const REQUEST_TYPE: GrammarRow = once!(ietf!(avps::CC_REQUEST_TYPE), AvpType::Enumerated(1, 3),);

const REQUEST_NUMBER: GrammarRow = once!(ietf!(avps::CC_REQUEST_NUMBER), AvpType::Unsigned32);

const SUBSCRIPTION: GrammarRow = up_to!(
    SUBSCRIBERS_LIMIT,
    ietf!(avps::SUBSCRIPTION_ID),
    AvpType::Grouped(Grammar::Subscription),
);

const SUBSCRIPTION_TYPE: GrammarRow = once!(
    ietf!(avps::SUBSCRIPTION_ID_TYPE),
    AvpType::Enumerated(0, 4),
);

const SUBSCRIPTION_DATA: GrammarRow = once!(
    ietf!(avps::SUBSCRIPTION_ID_DATA),
    AvpType::Text(SUBSCRIPTION_DATA_LIMIT),
);

/// Framed-IP-Address.
pub(crate) const ADDRESS: GrammarRow = up_to!(
    1,
    ietf!(avps::FRAMED_IP_ADDRESS),
    AvpType::Ipv4Address
);

const PREFIX: GrammarRow = up_to!(1, ietf!(avps::FRAMED_IPV6_PREFIX), AvpType::Ipv6Prefix);

const APN: GrammarRow = up_to!(1, ietf!(avps::CALLED_STATION_ID), AvpType::Text(APN_LIMIT),);

const COMPONENT: GrammarRow = up_to!(
    COMPONENTS_LIMIT,
    tgpp!(tgpp::MEDIA_COMPONENT_DESCRIPTION),
    AvpType::Grouped(Grammar::MediaComponent),
);

const COMPONENT_NUMBER: GrammarRow = once!(
    tgpp!(tgpp::MEDIA_COMPONENT_NUMBER),
    AvpType::Unsigned32
);

const MEDIA_TYPE: GrammarRow = up_to!(1, tgpp!(tgpp::MEDIA_TYPE), AvpType::Unsigned32);

const STATUS: GrammarRow = up_to!(1, tgpp!(tgpp::FLOW_STATUS), AvpType::Enumerated(0, 4));

const RATE_UP: GrammarRow = up_to!(
    1,
    tgpp!(tgpp::MAX_REQUESTED_BANDWIDTH_UL),
    AvpType::Unsigned32,
);

const RATE_DOWN: GrammarRow = up_to!(
    1,
    tgpp!(tgpp::MAX_REQUESTED_BANDWIDTH_DL),
    AvpType::Unsigned32,
);

const FLOW: GrammarRow = up_to!(
    FLOWS_LIMIT,
    tgpp!(tgpp::MEDIA_SUB_COMPONENT),
    AvpType::Grouped(Grammar::MediaSubComponent),
);

const FLOW_NUMBER: GrammarRow = once!(tgpp!(tgpp::FLOW_NUMBER), AvpType::Unsigned32);

const FILTER: GrammarRow = up_to!(
    FILTERS_LIMIT,
    tgpp!(tgpp::FLOW_DESCRIPTION),
    AvpType::OctetString,
);

const USAGE: GrammarRow = up_to!(1, tgpp!(tgpp::FLOW_USAGE), AvpType::Enumerated(0, 2));

/// No group stands deeper than in a group of a request.
pub(crate) const DEPTH: u32 = 3;

/// The rows of a grammar, in the order in which they are judged.
pub fn rows_of(grammar: Grammar) -> &'static [GrammarRow]
    ensures { result.now ≡ rows_of grammar }
{
    match grammar {
        Grammar::CapabilitiesExchange => &[HOST, REALM, APPLICATION, VENDOR_APPLICATION],
        Grammar::PeerCommand => &[HOST, REALM],
        Grammar::VendorApplication => &[APPLICATION],
        Grammar::CreditControl => &[
            SESSION,
            HOST,
            REALM,
            REQUEST_TYPE,
            REQUEST_NUMBER,
            SUBSCRIPTION,
            ADDRESS,
            PREFIX,
            APN,
        ],
        Grammar::Subscription => &[SUBSCRIPTION_TYPE, SUBSCRIPTION_DATA],
        Grammar::Authorization => &[
            SESSION,
            HOST,
            REALM,
            ADDRESS,
            PREFIX,
            SUBSCRIPTION,
            APN,
            COMPONENT,
        ],
        Grammar::MediaComponent => &[
            COMPONENT_NUMBER,
            MEDIA_TYPE,
            STATUS,
            RATE_UP,
            RATE_DOWN,
            FLOW,
        ],
        Grammar::MediaSubComponent => { &[FLOW_NUMBER, FILTER, STATUS, USAGE, RATE_UP, RATE_DOWN] }
        Grammar::SessionTermination => &[SESSION, HOST, REALM],
    }
}

/// The grammar of a request of the base protocol.
fn base_grammar(command: u32) -> Option<Grammar>
    ensures { result ≡ base_grammar command }
{
    match command {
        base_commands::CAPABILITIES_EXCHANGE => Some(Grammar::CapabilitiesExchange),
        base_commands::DEVICE_WATCHDOG | base_commands::DISCONNECT_PEER => {
            Some(Grammar::PeerCommand)
        }
        _ => None,
    }
}

/// The grammar of a request, by its application and its command.
pub fn grammar_of(header: &Header) -> Option<Grammar>
    ensures { result ≡ grammar_of header.now }
{
    match (header.application, header.command) {
        (0, command) => base_grammar(command),
        (GX, commands::CREDIT_CONTROL) => Some(Grammar::CreditControl),
        (RX, commands::AUTHORIZATION) => Some(Grammar::Authorization),
        (RX, commands::SESSION_TERMINATION) => Some(Grammar::SessionTermination),
        _ => None,
    }
}
