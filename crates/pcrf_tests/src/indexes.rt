//! Tests of `bind_index`, `pcc_rules` and `indexed_state`: which lists of rules are kept, and that an index lists what shows alone. That
//! sessions are bound, rules derived and pushes found by an index as by the passes over all sessions is proved, and tried by the random
//! worlds of `pcrf_checks`.

mod returning;
mod shared_address;
