//! What a request on an AF session is.
use pcrf_values::Enumeration;

/// What stands for the type of a request on Rx, which has one kind of them that leaves a session open (this project's profile).
#[derive(Clone, Copy, Debug, PartialEq, Eq)]
pub enum AfRequestType {
    /// An AA request (TS 29.214, 4.4.1 and 4.4.2).
    AaRequest,
}

impl Enumeration for AfRequestType {
    ghost use Rattle.af_records.specs.Numbers.{af_request_number, af_request_of};
    ghost use Rattle.af_records.specs.laws.Numbers.{request_of_its_number};

    const LEAST: u32 = 0;

    const MOST: u32 = 0;

    ghost LEAST = { 0 };

    ghost MOST = { 0 };

    ghost number_of = { af_request_number };

    ghost value_of = { af_request_of };

    ghost of_its_number = { request_of_its_number };

    fn from_number(number: u32) -> Option<AfRequestType> {
        match number {
            0 => Some(AfRequestType::AaRequest),
            _ => None,
        }
    }

    fn number(self) -> u32 {
        match self {
            AfRequestType::AaRequest => 0,
        }
    }
}
