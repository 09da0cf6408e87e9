//! What is seen of a message at a glance, without its being read whole.
use dia_base::codes::avps::{CC_REQUEST_TYPE, ORIGIN_HOST, RESULT_CODE, SESSION_ID};
use dia_codec::HEADER_BYTES;
use watched_links::{AvpBytes, first_avp};

/// The AVP Origin-State-Id (RFC 6733, 8.16).
const ORIGIN_STATE_ID: u32 = 278;

/// The AVP Charging-Rule-Install of 3GPP (TS 29.212, 5.3.2).
const CHARGING_RULE_INSTALL: u32 = 1001;

/// The values of the first of some AVPs of a message, where they have their lengths.
#[derive(Clone, Copy)]
pub struct Glance<'a> {
    /// Session-Id.
    pub session: Option<&'a [u8]>,
    /// Origin-Host.
    pub host: Option<&'a [u8]>,
    /// CC-Request-Type.
    pub kind: Option<u32>,
    /// Origin-State-Id.
    pub state: Option<u32>,
    /// Result-Code.
    pub code: Option<u32>,
    /// There is a Charging-Rule-Install.
    pub installs: bool,
}

/// The number that the value of an AVP is.
fn number_in(value: &[u8]) -> Option<u32> {
    Some(u32::from_be_bytes(*value.first_chunk::<4>()?))
}

impl<'a> Glance<'a> {
    /// What there is before the first AVP.
    fn nothing() -> Glance<'a> {
        Glance {
            session: None,
            host: None,
            kind: None,
            state: None,
            code: None,
            installs: false,
        }
    }

    /// Sees one more AVP.
    fn see(&mut self, avp: &AvpBytes<'a>) {
        if avp.has_vendor {
            self.installs = self.installs || avp.code == CHARGING_RULE_INSTALL;
            return;
        }
        match avp.code {
            SESSION_ID => self.session = self.session.or(Some(avp.value)),
            ORIGIN_HOST => self.host = self.host.or(Some(avp.value)),
            CC_REQUEST_TYPE => self.kind = self.kind.or(number_in(avp.value)),
            RESULT_CODE => self.code = self.code.or(number_in(avp.value)),
            ORIGIN_STATE_ID => self.state = self.state.or(number_in(avp.value)),
            _ => {}
        }
    }

    /// That of a message.
    pub fn of(message: &'a [u8]) -> Glance<'a> {
        let mut glance = Glance::nothing();
        let mut rest = message.get(HEADER_BYTES..).unwrap_or(&[]);
        for _ in 0..message.len() {
            let Some(avp) = first_avp(rest) else {
                break;
            };
            glance.see(&avp);
            rest = avp.rest;
        }
        glance
    }
}
