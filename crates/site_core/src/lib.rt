//! A message's way at a site: from its bytes to the request that it asks to serve, from the reply to the bytes of the
//! answer, and so a whole stream, over any reader and writer; and which AVP of a refused request is at fault (`failed_avps`).
//! Hands on the site that decides (`site_machine`).
//!
//! `specs/Asking.antt` says what a frame asks for, `specs/Realms.antt` what it asks of a node with a realm, `specs/SessionIds.antt`
//! which Session-Ids the standards' form takes and repeats,
//! `specs/Answering.antt` the bytes of an answer, `specs/Completing.antt` what they are in either form, `specs/Cuts.antt` what
//! the frames of a stream are, `specs/Frames.antt` what a site answers to one, and `specs/Conversations.antt` what it answers to
//! the stream.
#![tactic(auto)]

mod answering;
mod completing;
mod conversing;
mod ended;
pub mod failed_avps;
mod law;
mod reading;
mod realms;
mod serving;
mod session_ids;
mod writing;

ghost use Rattle.site_core.specs.Tables.{GrammarsAreTables};

pub use answering::{Answer, answer_frame};
pub use conversing::{converse, read_limit_is_the_profiles};
pub use ended::Ended;
pub use failed_avps::{
    failed_avp, faults_are_refusals, has_ill_formed_session, has_unsupported, served_are_recognized,
};
pub use law::{one_conversation, own_form_serves_every_realm};
pub use reading::{Asked, read_request};
pub use realms::read_request_at;
pub use serving::{Serve, ServeFault};
pub use site_machine::{Event, Reply, Request, Site, StepFault};
pub use writing::{write_refusal, write_reply};

/// A law: the table that is made of a request's grammar is the table by which the request is read, groups and all, row by row in the
/// order in which they are judged. So a refusal by a table has its Failed-AVP (RFC 6733, 7.5).
pub fn grammars_are_tables()
    ensures { GrammarsAreTables }
{}
