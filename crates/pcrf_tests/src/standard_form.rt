//! Messages of a site in the standards' form, by hand from the tables of RFC 6733, 5.3.2 and 5.5.1, byte for byte.
use crate::checks::check_same;
use crate::values::text;
use dia_base::standard::{Answered, avps_besides, put_behind, state_at_start, stated};
use dia_base::{Identity, MessageForm};
use dia_codec::{Flags, HEADER_BYTES, Header};
use std::alloc::AllocGlobal;
use std::net::Ipv4Addr;
use std::process::Abort;

/// The answer to a Capabilities-Exchange-Request that lacks an AVP: Origin-Host, Origin-Realm, Result-Code.
const REFUSED_EXCHANGE: &[u8] = b"\x01\0\0\x38\0\0\x01\x01\0\0\0\0\0\0\0\x03\0\0\0\x04\
    \0\0\x01\x08\x40\0\0\x0as0\0\0\0\0\x01\x28\x40\0\0\x09r\0\0\0\0\0\x01\x0c\x40\0\0\x0c\0\0\x13\x8d";

/// With Host-IP-Address, Vendor-Id, Product-Name, Supported-Vendor-Id, Firmware-Revision and Origin-State-Id.
const WHOLE_EXCHANGE: &[u8] = b"\x01\0\0\x84\0\0\x01\x01\0\0\0\0\0\0\0\x03\0\0\0\x04\
    \0\0\x01\x08\x40\0\0\x0as0\0\0\0\0\x01\x28\x40\0\0\x09r\0\0\0\0\0\x01\x0c\x40\0\0\x0c\0\0\x13\x8d\
    \0\0\x01\x01\x40\0\0\x0e\0\x01\xc0\0\x02\x01\0\0\0\0\x01\x0a\x40\0\0\x0c\0\0\0\0\
    \0\0\x01\x0d\0\0\0\x0cpcrf\0\0\x01\x09\x40\0\0\x0c\0\0\x28\xaf\
    \0\0\x01\x0b\0\0\0\x0c\0\0\0\x01\0\0\x01\x16\x40\0\0\x0c\x01\x02\x03\x04";

/// A Device-Watchdog-Request of the site's own: Origin-Host, Origin-Realm.
const WATCHING: &[u8] = b"\x01\0\0\x2c\x80\0\x01\x18\0\0\0\0\0\0\0\x05\0\0\0\x06\
    \0\0\x01\x08\x40\0\0\x0as0\0\0\0\0\x01\x28\x40\0\0\x09r\0\0\0";

/// With Origin-State-Id.
const WATCHING_WITH_STATE: &[u8] = b"\x01\0\0\x38\x80\0\x01\x18\0\0\0\0\0\0\0\x05\0\0\0\x06\
    \0\0\x01\x08\x40\0\0\x0as0\0\0\0\0\x01\x28\x40\0\0\x09r\0\0\0\0\0\x01\x16\x40\0\0\x0c\x01\x02\x03\x04";

/// The names of the site, which writes in the standards' form, and its state.
fn site(rt: &(impl AllocGlobal + Abort)) -> Identity {
    Identity {
        host: text(rt, rt.alloc(), b"s0"),
        realm: text(rt, rt.alloc(), b"r"),
        address: Ipv4Addr::new(192, 0, 2, 1),
        form: MessageForm::Standard,
        state: Some(0x0102_0304),
    }
}

#[test]
fn an_answer_to_an_exchange_is_whole_and_tells_the_state(rt: HostRuntime) {
    let header = Header {
        flags: Flags {
            request: true,
            proxiable: false,
            error: false,
            retransmitted: false,
        },
        command: 257,
        application: 0,
        hop_id: 3,
        end_id: 4,
    };
    let (alloc, frame) = (rt.alloc(), [0u8; HEADER_BYTES]);
    let more = avps_besides(alloc, &site(&rt), Answered::Unread, &header, &frame);
    let more = more.expect(&rt, "memory");
    let plain = Vec::from_slice(alloc, REFUSED_EXCHANGE).expect(&rt, "memory");
    let whole = put_behind(alloc, &more, plain).expect(&rt, "memory");
    check_same(&rt, whole.as_slice(), WHOLE_EXCHANGE);
}

#[test]
fn a_request_tells_the_state_in_the_standards_form(rt: HostRuntime) {
    let plain = Vec::from_slice(rt.alloc(), WATCHING).expect(&rt, "memory");
    let request = stated(rt.alloc(), &site(&rt), plain).expect(&rt, "memory");
    check_same(&rt, request.as_slice(), WATCHING_WITH_STATE);
    let start = Some(0x1_0000_0005);
    check_same(
        &rt,
        state_at_start(MessageForm::Standard, false, start),
        Some(5),
    );
}
