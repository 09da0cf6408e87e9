//! The head of a request (RFC 9112, sections 2 to 5), as far as it is read: its method and its target.
ghost use Rattle.std.specs.Prelude.{◌≡◌, ◌≤◌, ◌<◌, List, ℕ, length};
ghost use Rattle.httparse.specs.Grammar.{HasNoRequest, NeverHasRequest, ReadsRequest, RequestHead, print_request};
ghost use Rattle.site_status.specs.Head.{IfWhole, IsWhole, IsHeadOf, IsPartOfHead, IsPastLimits};
ghost use Rattle.site_status.specs.declared.head.Head.TheVariants.{Begun, TooLong, Malformed};

use httparse::spans::{EMPTY_HEADER_SPAN, parse_request};
use httparse::{Error, Status};

/// How many bytes a head has at most.
pub const HEAD_LIMIT: usize = 8192;

/// How many fields a head has at most.
pub const FIELD_LIMIT: usize = 64;

/// What stands at the front of the bytes of a connection.
#[derive(Clone, Copy)]
pub enum Head<'b> {
    /// A part of a head.
    Begun,
    /// A whole head.
    Whole { method: &'b [u8], target: &'b [u8] },
    /// A head that has more bytes or more fields than one may have.
    TooLong,
    /// No head, whatever follows.
    Malformed,
}

/// Reads the head at the front of the bytes of a connection, in the grammar of `httparse`.
pub fn read_head(bytes: &[u8]) -> Head<'_>
    ensures whole { IfWhole result (IsHeadOf bytes.now) }
    ensures found { (head : RequestHead) (rest : List ℕ) → ReadsRequest bytes.now head rest
        → length head.fields ≤ FIELD_LIMIT → length (print_request head) ≤ HEAD_LIMIT
        → IsWhole result }
    ensures begun { result ≡ Begun → HasNoRequest bytes.now }
    ensures short { result ≡ Begun → length bytes.now < HEAD_LIMIT }
    ensures part { length bytes.now < HEAD_LIMIT → IsPartOfHead bytes.now → result ≡ Begun }
    ensures long { result ≡ TooLong → IsPastLimits bytes.now }
    ensures malformed { result ≡ Malformed → NeverHasRequest bytes.now }
{
    let mut fields = [EMPTY_HEADER_SPAN; FIELD_LIMIT];
    match parse_request(bytes, &mut fields) {
        Ok(Status::Complete(spans)) => {
            if spans.len > HEAD_LIMIT {
                return Head::TooLong;
            }
            Head::Whole {
                method: spans.method.of(bytes),
                target: spans.path.of(bytes),
            }
        }
        Ok(Status::Partial) => {
            if bytes.len() >= HEAD_LIMIT {
                return Head::TooLong;
            }
            Head::Begun
        }
        Err(Error::TooManyHeaders) => Head::TooLong,
        Err(_) => Head::Malformed,
    }
}
