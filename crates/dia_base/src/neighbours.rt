//! Requests of the base protocol between neighbours, and their answers: the capabilities exchange, the watchdog and the end of
//! a connection (RFC 6733, 5.3 to 5.5); and the watchdog's request as the site sends it.

mod answer;
mod applications;
mod codes;
mod own_request;
mod request;

pub use answer::{base_refusal, write_base_answer};
pub use applications::ApplicationId;
pub use own_request::write_dwr;
pub use request::{BaseKind, BaseRequest, is_base_command, read_base};
