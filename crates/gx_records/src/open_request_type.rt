//! What a request that leaves a session open asks for.
use pcrf_values::Enumeration;

/// The CC-Request-Type of a request that leaves a session open (RFC 8506, 8.3).
#[derive(Clone, Copy, Debug, PartialEq, Eq)]
pub enum OpenRequestType {
    /// INITIAL_REQUEST, which opens it.
    Initial,
    /// UPDATE_REQUEST.
    Update,
}

impl Enumeration for OpenRequestType {
    ghost use Rattle.gx_records.specs.Numbers.{open_request_number, open_request_of};
    ghost use Rattle.gx_records.specs.laws.Numbers.{request_of_its_number};

    const LEAST: u32 = 1;

    const MOST: u32 = 2;

    ghost LEAST = { 1 };

    ghost MOST = { 2 };

    ghost number_of = { open_request_number };

    ghost value_of = { open_request_of };

    ghost of_its_number = { request_of_its_number };

    fn from_number(number: u32) -> Option<OpenRequestType> {
        match number {
            1 => Some(OpenRequestType::Initial),
            2 => Some(OpenRequestType::Update),
            _ => None,
        }
    }

    fn number(self) -> u32 {
        match self {
            OpenRequestType::Initial => 1,
            OpenRequestType::Update => 2,
        }
    }
}
