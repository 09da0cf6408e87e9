//! Which AVP of a refused request is at fault, for the Failed-AVP of its answer (RFC 6733, 7.1.5 and 7.5).
//!
//! `specs/Grammars.antt` has the grammars of the requests and of their groups as data, `specs/Faults.antt` what is at fault by one,
//! `specs/Recognized.antt` which AVPs are recognized, `specs/Unsupported.antt` what has M and isn't, `specs/SessionIds.antt` which
//! Session-Ids aren't UTF-8, `specs/Uncut.antt` what is at fault where the lengths of AVPs are wrong, and `specs/Failed.antt` the
//! Failed-AVP.

mod bytes;
mod codes;
mod failed;
mod fault;
mod grammar;
mod laws;
mod recognized;
mod requests;
mod session;
mod uncut;
mod unsupported;

pub use failed::failed_avp;
pub use laws::{faults_are_refusals, served_are_recognized};
pub use session::has_ill_formed_session;
pub use unsupported::has_unsupported;
