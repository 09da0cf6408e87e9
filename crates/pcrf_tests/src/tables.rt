//! Operator tables.
use op_tables::{Tables, read_tables};
use std::alloc::Global;
use std::fmt::Write as _;
use std::process::Abort;

/// The operator tables of a network with calls: what `examples/telephony.toml` has, which explains it (`.ci/examples` compares them).
const TELEPHONY: &str = r#"
edition = 7
rtcp_bps = 5000
[signalling]
qci = 5
priority = 9
capability = 1
vulnerability = 0
max_ul = 32000
max_dl = 32000
precedence = 50
[[media]]
type = 0
qci = 1
priority = 2
capability = 0
vulnerability = 1
max_ul = 64000
max_dl = 64000
precedence = 100
[[apn]]
name = "ims"
[apn.default]
qci = 5
priority = 9
capability = 1
vulnerability = 0
ambr_ul = 1000000
ambr_dl = 2000000
[[apn.rule]]
name = "sip"
qci = 5
priority = 9
capability = 1
vulnerability = 0
max_ul = 32000
max_dl = 32000
precedence = 40
status = 2
filters = ["permit out ip from any to any"]
[[apn]]
name = "net"
"#;

/// The head of the only rule, behind which its other keys stand.
const SIP: &str = "[[apn.rule]]\nname = \"sip\"\n";

/// The head of the second access point, which has no rules.
const NET: &str = "[[apn]]\nname = \"net\"\n";

/// The operator tables of a network with calls: edition 7, a class of audio, the access point `ims` with a default and the rule
/// `sip`, and the access point `net` with neither.
pub fn telephony(rt: &impl Abort, alloc: Global) -> Tables {
    read_tables(alloc, TELEPHONY).expect(rt, "tables")
}

/// The same, but that the access point `ims` has so many rules, `a00`, `a01` and so on, in place of `sip`.
pub fn with_rules(rt: &impl Abort, alloc: Global, count: u32) -> Tables {
    let (before, behind) = TELEPHONY.split_once(SIP).expect(rt, "a rule");
    let (rule, _) = behind.split_once(NET).expect(rt, "a second access point");
    let mut text = String::new(alloc);
    text.push_str(before).expect(rt, "memory");
    for number in 0..count {
        let put = write!(text, "[[apn.rule]]\nname = \"a{number:02}\"\n{rule}");
        put.expect(rt, "memory");
    }
    text.push_str(NET).expect(rt, "memory");
    read_tables(alloc, text.as_str()).expect(rt, "tables")
}
