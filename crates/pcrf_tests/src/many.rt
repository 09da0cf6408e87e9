//! Tests of many rules at once (`pcc_rules`) and of what renews lists of rules: the rules of many sessions, made side by side, are those
//! of each, in order; a site that renews its lists holds what it held, and keeps one of each live session.

mod derived;
mod making;
mod renewing;
