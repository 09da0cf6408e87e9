//! From the text of a filter to its parts.
ghost use Rattle.std.specs.Prelude.{◌≡◌, List, ℕ, true, option_map};
ghost use Rattle.std.specs.List.{list_all};
ghost use Rattle.std.specs.Option.{option_copied, option_map_or};
ghost use Rattle.gx_profile.specs.Filters.{are_options, begins_with_letter, endpoint_in, from_destination, from_direction, from_from, from_protocol, from_source, from_to, if_rule, is_address, is_address_byte, is_digit, is_endpoint, is_plain_address, is_port_byte, is_ports, is_protocol, is_rule, is_small_letter, is_visible, is_word, parts_of, with_ports};
ghost use Rattle.gx_profile.specs.Views.{end_view, endpoint_view, parts_view, rest_view};
ghost use Rattle.gx_profile.specs.Words.{words_left};

use crate::filters::direction::Direction;
use crate::filters::parts::{Endpoint, Parts};
use crate::filters::words::{behind, next_word};
use pcrf_values::equal_bytes;

// ---- bytes and words

/// Whether a byte is a digit.
fn is_digit(byte: u8) -> bool
    ensures { result ≡ is_digit byte }
{
    (b'0'..=b'9').contains(&byte)
}

/// Whether a byte is of a number of IPv4 or IPv6, or of its mask.
fn is_address_byte(byte: u8) -> bool
    ensures { result ≡ is_address_byte byte }
{
    let is_hexadecimal = is_digit(byte) || (b'a'..=b'f').contains(&byte);
    let is_capital = (b'A'..=b'F').contains(&byte);
    is_hexadecimal || is_capital || (b'.'..=b'/').contains(&byte) || byte == b':'
}

/// Whether a byte is of ports.
fn is_port_byte(byte: u8) -> bool
    ensures { result ≡ is_port_byte byte }
{
    is_digit(byte) || (b','..=b'-').contains(&byte)
}

/// Whether a byte is printable and no space.
fn is_visible(byte: u8) -> bool
    ensures { result ≡ is_visible byte }
{
    (b'!'..=b'~').contains(&byte)
}

/// Whether all bytes are digits.
fn are_digits(word: &[u8]) -> bool
    ensures { result ≡ list_all is_digit word.now }
{
    word.iter().all(|&byte| is_digit(byte))
}

/// Whether all bytes are of a number of IPv4 or IPv6, or of its mask.
fn are_address_bytes(word: &[u8]) -> bool
    ensures { result ≡ list_all is_address_byte word.now }
{
    word.iter().all(|&byte| is_address_byte(byte))
}

/// Whether all bytes are of ports.
fn are_port_bytes(word: &[u8]) -> bool
    ensures { result ≡ list_all is_port_byte word.now }
{
    word.iter().all(|&byte| is_port_byte(byte))
}

/// Whether all bytes are printable, and none is a space.
fn are_visible(word: &[u8]) -> bool
    ensures { result ≡ list_all is_visible word.now }
{
    word.iter().all(|&byte| is_visible(byte))
}

/// Whether a word is ports.
fn is_ports(word: &[u8]) -> bool
    ensures { result ≡ is_ports word.now }
{
    !word.is_empty() && are_port_bytes(word)
}

/// Whether a word has bytes, and all are printable.
fn is_word(word: &[u8]) -> bool
    ensures { result ≡ is_word word.now }
{
    !word.is_empty() && are_visible(word)
}

/// Whether a word is a protocol.
fn is_protocol(word: &[u8]) -> bool
    ensures { result ≡ is_protocol word.now }
{
    equal_bytes(word, b"ip") || (!word.is_empty() && are_digits(word))
}

/// Whether a word is an address, without `!`.
fn is_plain_address(word: &[u8]) -> bool
    ensures { result ≡ is_plain_address word.now }
{
    equal_bytes(word, b"any")
        || equal_bytes(word, b"assigned")
        || (!word.is_empty() && are_address_bytes(word))
}

/// Whether a word is an address.
fn is_address(word: &[u8]) -> bool
    ensures { result ≡ is_address word.now }
{
    let Some((first, rest)) = word.split_first() else {
        return false;
    };
    if *first == b'!' {
        return is_plain_address(rest);
    }
    is_plain_address(word)
}

/// Whether a word begins with a small letter.
fn begins_with_letter(word: &[u8]) -> bool
    ensures { result ≡ begins_with_letter word.now }
{
    let Some(first) = word.first() else {
        return false;
    };
    (b'a'..=b'z').contains(first)
}

// ---- parts

/// Whether an address, and ports where they are given, are what they have to be.
fn is_endpoint(end: &Endpoint<'_>) -> bool
    ensures { result ≡ is_endpoint (endpoint_view end.now) }
{
    let Some(ports) = end.ports else {
        return is_address(end.address);
    };
    is_address(end.address) && is_ports(ports)
}

/// Whether all that is left of a text are words.
fn are_words(text: Option<&[u8]>) -> bool
    ensures { result ≡ list_all is_word (words_left (option_copied text.entry)) }
{
    let mut left = text;
    while let Some((word, rest)) = next_word(left) {
        if !is_word(word) {
            return false;
        }
        left = rest;
    }
    true
}

/// Whether what is left of a text are options.
fn are_options(text: Option<&[u8]>) -> bool
    ensures { result ≡ are_options (words_left (option_copied text.entry)) }
{
    let Some((name, _)) = next_word(text) else {
        return true;
    };
    begins_with_letter(name) && are_words(text)
}

/// Whether each part of a filter is what the rule asks for.
#[tactic(auto, unfolding(crate::specs::Filters::is_rule))]
fn is_rule(parts: &Parts<'_>) -> bool
    ensures { result ≡ is_rule (parts_view parts.now) }
{
    is_protocol(parts.protocol)
        && is_endpoint(&parts.source)
        && is_endpoint(&parts.destination)
        && are_options(parts.options)
}

/// An address, and the ports behind it where there are any, and what is left.
fn with_ports<'a>(address: &'a [u8], text: Option<&'a [u8]>) -> (Endpoint<'a>, Option<&'a [u8]>)
    ensures { end_view result
        ≡ with_ports address.entry.now (words_left (option_copied text.entry)) }
{
    let plain = Endpoint {
        address,
        ports: None,
    };
    let Some((word, rest)) = next_word(text) else {
        return (plain, None);
    };
    if !is_ports(word) {
        return (plain, text);
    }
    let ported = Endpoint {
        address,
        ports: Some(word),
    };
    (ported, rest)
}

/// Where packets come from or go to, and what is left behind it.
fn endpoint_in(text: Option<&[u8]>) -> Option<(Endpoint<'_>, Option<&[u8]>)>
    ensures { option_map end_view result ≡ endpoint_in (words_left (option_copied text.entry)) }
{
    let (address, rest) = next_word(text)?;
    Some(with_ports(address, rest))
}

/// The parts of a filter whose direction was read.
fn parts_behind_direction(direction: Direction, text: Option<&[u8]>) -> Option<Parts<'_>>
    ensures { option_map parts_view result
        ≡ from_protocol direction (words_left (option_copied text.entry)) }
{
    let (protocol, text) = next_word(text)?;
    let text = behind(text, b"from")?;
    let (source, text) = endpoint_in(text)?;
    let text = behind(text, b"to")?;
    let (destination, options) = endpoint_in(text)?;
    let parts = Parts {
        direction,
        protocol,
        source,
        destination,
        options,
    };
    if !is_rule(&parts) {
        return None;
    }
    Some(parts)
}

/// The parts of a text, where it is a filter.
#[tactic(auto, unfolding(crate::specs::Filters::parts_of))]
pub(crate) fn parts_of(text: &[u8]) -> Option<Parts<'_>>
    ensures { option_map parts_view result ≡ parts_of text.now }
{
    let text = behind(Some(text), b"permit")?;
    let (word, text) = next_word(text)?;
    if equal_bytes(word, b"in") {
        return parts_behind_direction(Direction::Uplink, text);
    }
    if equal_bytes(word, b"out") {
        return parts_behind_direction(Direction::Downlink, text);
    }
    None
}
