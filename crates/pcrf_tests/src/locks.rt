//! Tests of `site_machine`, `site_core`, `site_book` and `site_lock`: what no line of `cases` says of a site without a lock, which is
//! the end of its clock and more operations than it tells at once, and streams whose reader or writer fails; calls of threads that
//! share a site are in one history, each with a receipt, which a new site plays again; a full book stays full and settles; a seat that
//! is left out is missed.

mod drawing;
mod limits;
mod many_calls;
mod settling;
mod streams;
