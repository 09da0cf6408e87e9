//! An AVP that no message can have, of a length that its header alone can say. Which AVP of a refused request is told is proved, and
//! tried by lines of `cases`.
use crate::checks::check;
use dia_codec::{Flags, HEADER_BYTES, Header, read_group};
use site_core::{failed_avp, has_unsupported};

/// The header of a credit control request.
const HEADER: Header = Header {
    flags: Flags {
        request: true,
        proxiable: true,
        error: false,
        retransmitted: false,
    },
    command: 272,
    application: 16_777_238,
    hop_id: 1,
    end_id: 2,
};

/// The header of an AVP with M and the code 1000, whose value has 65,528 bytes.
const LONG_AVP: [u8; 8] = [0, 0, 3, 232, 0x40, 1, 0, 0];

#[test]
fn unknown_avp_longer_than_any_message_is_not_told(rt: HostRuntime) {
    let mut frame = vec![in rt.alloc(); 0; HEADER_BYTES].expect(&rt, "memory");
    frame.extend_from_slice(&LONG_AVP).expect(&rt, "memory");
    frame.resize(HEADER_BYTES + 65_536, 0).expect(&rt, "memory");
    let avps = read_group(rt.alloc(), &frame[HEADER_BYTES..]).expect(&rt, "AVPs");
    check(
        &rt,
        has_unsupported(rt.alloc(), &HEADER, &avps).expect(&rt, "memory"),
    );
    let failed = failed_avp(rt.alloc(), &HEADER, 5001, &frame).expect(&rt, "memory");
    check(&rt, failed.is_none());
}
