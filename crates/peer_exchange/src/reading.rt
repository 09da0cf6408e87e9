//! Letters read from bytes.
ghost use Rattle.std.specs.Prelude.{◌≡◌, ℕ, ◌++◌, ◌∷◌, ◌≤◌, [], true, length, map, IfOk, Some, None, Ok};
ghost use Rattle.std.specs.List.{flat_map};
ghost use Rattle.pcrf_model.specs.Sessions.{gx, af};
ghost use Rattle.pcrf_model.specs.Letters.{LetterValue};
ghost use Rattle.fact_codec.specs.Reading.{many};
ghost use Rattle.fact_codec.specs.Reading as parts;
ghost use Rattle.site_join.specs.Groups.{group_of};
ghost use Rattle.site_join.specs.States.{session_of, facts_in};
ghost use Rattle.peer_exchange.specs.Form.{IsReadIn, IsSpelled, is_addressed, is_formed, is_letter};
ghost use Rattle.peer_exchange.specs.Reading.{Gives, gx_group, af_group, group, operation, range, held_gx_group, held_af_group, held_group, snapshot, acknowledgement, body, content, letter_of};
ghost use Rattle.peer_exchange.specs.Spelling.{group_bytes, operation_bytes, held_group_bytes, body_bytes, letter_bytes_in, spelling_in};
ghost use Rattle.fact_codec.specs.Spelling.{word_bytes};
ghost use Rattle.peer_exchange.specs.Values.{body_value};

use crate::body::{Acknowledgement, Body, Range, Snapshot};
use crate::fault::LetterFault;
use crate::letter::Letter;
use crate::limits::MOST_BYTES;
use fact_codec::{
    LetterVersion, Unread, af_facts_at, byte_at, gx_facts_at, held_af_facts_at, held_gx_facts_at,
    long_at, short_at, text_at, word_at,
};
use lattice_core::Tag;
use pcrf_values::{AfSid, GxSid, HashSeed};
use site_join::{Operation, SessionFacts, State, are_groups};
use std::alloc::Global;

/// The facts of an operation on a gateway's session, behind the kind of the session.
#[tactic(auto, using(crate::proofs::Added::added), unfolding(crate::specs::Spelling::group_bytes))]
fn gx_facts_on(
    alloc: Global,
    version: LetterVersion,
    counter: u64,
    site: u8,
    number: u32,
    bytes: &[u8],
) -> Result<(SessionFacts, &[u8]), Unread>
    ensures read { parts.Gives (λ x. ((session_of x.0, facts_in x.0), x.1.now)) result
        (gx_group version counter site number bytes.now) }
    ensures spelled { IfOk result (λ x. 1 ∷ bytes.now
        ≡ group_bytes (session_of x.0) (facts_in x.0) ++ x.1.now) }
{
    let field_tag = Tag {
        number,
        counter,
        site,
    };
    let told_tag = Tag {
        number: 0,
        counter,
        site,
    };
    let (id, rest) = text_at(alloc, bytes)?;
    let (facts, rest) = gx_facts_at(alloc, version, field_tag, told_tag, rest)?;
    Ok((SessionFacts::Gx(GxSid::of(id), facts), rest))
}

/// Those of an operation on an AF session.
#[tactic(auto, using(crate::proofs::Added::added), unfolding(crate::specs::Spelling::group_bytes))]
fn af_facts_on(
    alloc: Global,
    version: LetterVersion,
    counter: u64,
    site: u8,
    bytes: &[u8],
) -> Result<(SessionFacts, &[u8]), Unread>
    ensures read { parts.Gives (λ x. ((session_of x.0, facts_in x.0), x.1.now)) result
        (af_group version counter site bytes.now) }
    ensures spelled { IfOk result (λ x. 2 ∷ bytes.now
        ≡ group_bytes (session_of x.0) (facts_in x.0) ++ x.1.now) }
{
    let tag = Tag {
        number: 0,
        counter,
        site,
    };
    let (id, rest) = text_at(alloc, bytes)?;
    let (facts, rest) = af_facts_at(alloc, version, tag, rest)?;
    Ok((SessionFacts::Af(AfSid::of(id), facts), rest))
}

/// A session with the facts of an operation of that stamp and number on it.
#[tactic(auto, unfolding(crate::specs::Reading::group))]
fn session_facts_at(
    alloc: Global,
    version: LetterVersion,
    counter: u64,
    site: u8,
    number: u32,
    bytes: &[u8],
) -> Result<(SessionFacts, &[u8]), Unread>
    ensures read { parts.Gives (λ x. ((session_of x.0, facts_in x.0), x.1.now)) result
        (group version counter site number bytes.now) }
    ensures spelled { IfOk result (λ x. bytes.now
        ≡ group_bytes (session_of x.0) (facts_in x.0) ++ x.1.now) }
{
    let (kind, rest) = byte_at(bytes)?;
    match kind {
        1 => gx_facts_on(alloc, version, counter, site, number, rest),
        2 => af_facts_on(alloc, version, counter, site, rest),
        _ => Err(Unread::BadShape),
    }
}

/// An operation that a site may make.
#[tactic(auto, using(crate::proofs::Added::added), unfolding(crate::specs::Reading::operation, crate::specs::Spelling::operation_bytes))]
fn operation_at(
    alloc: Global,
    version: LetterVersion,
    bytes: &[u8],
) -> Result<(Operation, &[u8]), Unread>
    ensures read { parts.Gives (λ x. (x.0, x.1.now)) result (operation version bytes.now) }
    ensures spelled { IfOk result (λ x. bytes.now ≡ operation_bytes x.0 ++ x.1.now) }
{
    let (counter, rest) = long_at(bytes)?;
    let (site, rest) = byte_at(rest)?;
    let (number, rest) = word_at(rest)?;
    let (facts, rest) = session_facts_at(alloc, version, counter, site, number, rest)?;
    let Some(operation) = Operation::of(counter, site, number, facts) else {
        return Err(Unread::BadShape);
    };
    Ok((operation, rest))
}

/// So many operations. Room is made for each as it is read.
fn list_of_operations(
    alloc: Global,
    version: LetterVersion,
    count: u32,
    bytes: &[u8],
) -> Result<(Vec<Operation>, &[u8]), Unread>
    ensures read { parts.Gives (λ x. (x.0.items, x.1.now)) result
        (many (operation version) count bytes.now) }
    ensures spelled { IfOk result (λ x. bytes.now
        ≡ flat_map operation_bytes x.0.items ++ x.1.now) }
    ensures counted { IfOk result (λ x. length x.0.items ≡ count) }
{
    let mut items = Vec::new(alloc);
    let mut rest = bytes;
    for _ in 0..count {
        let (item, after) = operation_at(alloc, version, rest)?;
        items.push(item)?;
        rest = after;
    }
    Ok((items, rest))
}

/// A range, behind its kind.
#[tactic(auto, using(crate::proofs::Added::added), unfolding(crate::specs::Reading::range))]
fn range_at(alloc: Global, version: LetterVersion, bytes: &[u8]) -> Result<(Body, &[u8]), Unread>
    ensures read { parts.Gives (λ x. (body_value x.0, x.1.now)) result (range version bytes.now) }
    ensures spelled { IfOk result (λ x. 1 ∷ bytes.now ≡ body_bytes (body_value x.0) ++ x.1.now) }
{
    let (from, rest) = long_at(bytes)?;
    let (count, rest) = word_at(rest)?;
    let (operations, rest) = list_of_operations(alloc, version, count, rest)?;
    Ok((Body::Range(Range { from, operations }), rest))
}

/// What a state holds of a gateway's session, behind the kind of the session.
#[tactic(auto, using(crate::proofs::Added::added), unfolding(crate::specs::Spelling::held_group_bytes))]
fn held_gx_group_at(
    alloc: Global,
    version: LetterVersion,
    bytes: &[u8],
) -> Result<(SessionFacts, &[u8]), Unread>
    ensures read { parts.Gives (λ x. (group_of x.0, x.1.now)) result
        (held_gx_group version bytes.now) }
    ensures spelled { IfOk result (λ x. 1 ∷ bytes.now
        ≡ held_group_bytes (group_of x.0) ++ x.1.now) }
{
    let (id, rest) = text_at(alloc, bytes)?;
    let (facts, rest) = held_gx_facts_at(alloc, version, rest)?;
    Ok((SessionFacts::Gx(GxSid::of(id), facts), rest))
}

/// What a state holds of an AF session, behind the kind of the session.
#[tactic(auto, using(crate::proofs::Added::added), unfolding(crate::specs::Spelling::held_group_bytes))]
fn held_af_group_at(
    alloc: Global,
    version: LetterVersion,
    bytes: &[u8],
) -> Result<(SessionFacts, &[u8]), Unread>
    ensures read { parts.Gives (λ x. (group_of x.0, x.1.now)) result
        (held_af_group version bytes.now) }
    ensures spelled { IfOk result (λ x. 2 ∷ bytes.now
        ≡ held_group_bytes (group_of x.0) ++ x.1.now) }
{
    let (id, rest) = text_at(alloc, bytes)?;
    let (facts, rest) = held_af_facts_at(alloc, version, rest)?;
    Ok((SessionFacts::Af(AfSid::of(id), facts), rest))
}

/// What a state holds of a session.
#[tactic(auto, unfolding(crate::specs::Reading::held_group))]
fn held_group_at(
    alloc: Global,
    version: LetterVersion,
    bytes: &[u8],
) -> Result<(SessionFacts, &[u8]), Unread>
    ensures read { parts.Gives (λ x. (group_of x.0, x.1.now)) result
        (held_group version bytes.now) }
    ensures spelled { IfOk result (λ x. bytes.now ≡ held_group_bytes (group_of x.0) ++ x.1.now) }
{
    let (kind, rest) = byte_at(bytes)?;
    match kind {
        1 => held_gx_group_at(alloc, version, rest),
        2 => held_af_group_at(alloc, version, rest),
        _ => Err(Unread::BadShape),
    }
}

/// What a state holds of so many sessions. Room is made for each as it is read.
fn list_of_groups(
    alloc: Global,
    version: LetterVersion,
    count: u32,
    bytes: &[u8],
) -> Result<(Vec<SessionFacts>, &[u8]), Unread>
    ensures read { parts.Gives (λ x. (map group_of x.0.items, x.1.now)) result
        (many (held_group version) count bytes.now) }
    ensures spelled { IfOk result (λ x. bytes.now
        ≡ flat_map held_group_bytes (map group_of x.0.items) ++ x.1.now) }
    ensures counted { IfOk result (λ x. length (map group_of x.0.items) ≡ count) }
{
    let mut items = Vec::new(alloc);
    let mut rest = bytes;
    for _ in 0..count {
        let (item, after) = held_group_at(alloc, version, rest)?;
        items.push(item)?;
        rest = after;
    }
    Ok((items, rest))
}

/// A whole state, behind its kind: groups in their order, each fact with its tag, none with a greater counter than the
/// clock.
#[tactic(auto, using(crate::proofs::Added::added), unfolding(crate::specs::Reading::snapshot))]
fn snapshot_at(
    alloc: Global,
    seed: HashSeed,
    version: LetterVersion,
    bytes: &[u8],
) -> Result<(Body, &[u8]), Unread>
    ensures read { parts.Gives (λ x. (body_value x.0, x.1.now)) result
        (snapshot version bytes.now) }
    ensures spelled { IfOk result (λ x. 2 ∷ bytes.now ≡ body_bytes (body_value x.0) ++ x.1.now) }
{
    let (clock, rest) = long_at(bytes)?;
    let (log_length, rest) = long_at(rest)?;
    let (count, rest) = word_at(rest)?;
    let (groups, rest) = list_of_groups(alloc, version, count, rest)?;
    if !are_groups(clock, groups.as_slice()) {
        return Err(Unread::BadShape);
    }
    let state = State::of_groups(alloc, seed, clock, groups)?;
    Ok((Body::Snapshot(Snapshot { state, log_length }), rest))
}

/// An acknowledgement, behind its kind.
#[tactic(auto, using(crate::proofs::Added::added), unfolding(crate::specs::Reading::acknowledgement))]
fn acknowledgement_at(bytes: &[u8]) -> Result<(Body, &[u8]), Unread>
    ensures read { parts.Gives (λ x. (body_value x.0, x.1.now)) result
        (acknowledgement bytes.now) }
    ensures spelled { IfOk result (λ x. 3 ∷ bytes.now ≡ body_bytes (body_value x.0) ++ x.1.now) }
{
    let (maker, rest) = byte_at(bytes)?;
    let (maker_epoch, rest) = short_at(rest)?;
    let (cursor, rest) = long_at(rest)?;
    let said = Acknowledgement {
        maker,
        maker_epoch,
        cursor,
    };
    Ok((Body::Acknowledgement(said), rest))
}

/// What a letter says.
#[tactic(auto, unfolding(crate::specs::Reading::body))]
fn body_at(
    alloc: Global,
    seed: HashSeed,
    version: LetterVersion,
    bytes: &[u8],
) -> Result<(Body, &[u8]), Unread>
    ensures read { parts.Gives (λ x. (body_value x.0, x.1.now)) result (body version bytes.now) }
    ensures spelled { IfOk result (λ x. bytes.now ≡ body_bytes (body_value x.0) ++ x.1.now) }
{
    let (kind, rest) = byte_at(bytes)?;
    match kind {
        1 => range_at(alloc, version, rest),
        2 => snapshot_at(alloc, seed, version, rest),
        3 => acknowledgement_at(rest),
        _ => Err(Unread::BadShape),
    }
}

/// What follows the edition on a letter of that edition.
#[tactic(auto, using(crate::proofs::Added::added), unfolding(crate::specs::Reading::content, crate::specs::Spelling::letter_bytes_in))]
fn content_at(
    alloc: Global,
    seed: HashSeed,
    version: LetterVersion,
    edition: u32,
    bytes: &[u8],
) -> Result<(Letter, &[u8]), Unread>
    ensures read { parts.Gives (λ x. (x.0, x.1.now)) result (content version edition bytes.now) }
    ensures spelled { IfOk result (λ x. version ∷ [] ++ word_bytes edition ++ bytes.now
        ≡ letter_bytes_in version x.0 ++ x.1.now) }
    ensures edition { IfOk result (λ x. x.0.edition ≡ edition) }
    ensures addressed { IfOk result (λ x. is_addressed x.0 ≡ true) }
    ensures formed { IfOk result (λ x. is_formed x.0.body ≡ true) }
{
    let (site, rest) = byte_at(bytes)?;
    let (epoch, rest) = short_at(rest)?;
    let (said, rest) = body_at(alloc, seed, version, rest)?;
    let Some(letter) = Letter::of(edition, site, epoch, said) else {
        return Err(Unread::BadShape);
    };
    letter.note_kept();
    Ok((letter, rest))
}

/// The letter of that edition that the bytes are, judged in the order of its faults. If it has a whole state, the state's hashes
/// begin with that seed.
#[tactic(auto, unfolding(crate::specs::Reading::letter_of))]
pub fn read_letter_seeded(
    alloc: Global,
    seed: HashSeed,
    frame: &[u8],
    edition: u32,
) -> Result<Letter, LetterFault>
    ensures read { Gives (λ l. l) result (letter_of edition frame.now) }
    ensures spelled { IfOk result (λ l. IsSpelled frame.now l) }
    ensures edition { IfOk result (λ l. l.edition ≡ edition) }
    ensures formed { IfOk result (λ l. is_letter l ≡ true) }
{
    let (length, counted) = word_at(frame)?;
    let (number, rest) = byte_at(counted)?;
    let Some(version) = LetterVersion::of(u32::from(number)) else {
        return Err(LetterFault::BadVersion);
    };
    let (found, rest) = word_at(rest)?;
    if found != edition {
        return Err(LetterFault::BadEdition);
    }
    if counted.len() != length as usize || length > MOST_BYTES {
        return Err(LetterFault::BadShape);
    }
    let (letter, rest) = content_at(alloc, seed, version, edition, rest)?;
    if !rest.is_empty() {
        return Err(LetterFault::BadShape);
    }
    Ok(letter)
}

/// The letter that all bytes of a frame are, its length before it, for a site whose operator tables have that edition. Hashes of
/// its state, if it has a whole one, begin with a seed that anybody knows.
pub fn read_letter(alloc: Global, frame: &[u8], edition: u32) -> Result<Letter, LetterFault>
    // What is read is spelled so in a version that is read, of the form, and of the edition.
    ensures found { IfOk result (λ l. IsSpelled frame.now l) }
    ensures form { IfOk result (λ l. is_letter l ≡ true) }
    ensures edition { IfOk result (λ l. l.edition ≡ edition) }
    // What is spelled so in a version that has it is read, unless memory runs out.
    ensures only { (v : ℕ) (l : LetterValue) → IsReadIn v l → l.edition ≡ edition
        → frame.now ≡ spelling_in v l → Gives (λ x. x) result (Ok l) }
    // Which fault it is.
    ensures exact { Gives (λ l. l) result (letter_of edition frame.now) }
{
    read_letter_seeded(alloc, HashSeed::of(0), frame, edition)
}
