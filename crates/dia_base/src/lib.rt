//! What every Diameter application of the PCRF shares: who it is, how it refuses, how the AVPs of a request are judged row by row
//! (RFC 6733), and the messages of the base protocol between neighbours: the capabilities exchange, the watchdog and the end of a
//! connection (5.3 to 5.5); and what an answer in the standards' form has besides its own AVPs (`standard`).
#![tactic(auto)]

mod answer;
pub mod codes;
mod form;
mod identity;
pub mod neighbours;
mod read_fault;
mod rows;
mod session_answer;
pub mod standard;

pub use answer::{
    AvpWriter, answer_header, put_origin, put_result, request_header, write_refusal_answer,
};
pub use dia_codec::Mark;
pub use form::MessageForm;
pub use identity::Identity;
pub use neighbours::{
    ApplicationId, BaseKind, BaseRequest, base_refusal, is_base_command, read_base,
    write_base_answer, write_dwr,
};
pub use pcrf_values::Refusal;
pub use read_fault::ReadFault;
pub use rows::{
    FromValue, Origin, base_key, count_of, first_with, optional_address, optional_apn,
    optional_number, optional_number_within, optional_prefix, read_avps, read_each, read_origin,
    read_subscribers, required_number, required_number_within, required_text, tgpp_key,
};
pub use session_answer::{SessionAnswer, read_session_answer};
pub use standard::{
    Answered, avps_behind_are_spelled, avps_besides, put_behind, state_at_start, stated,
};
