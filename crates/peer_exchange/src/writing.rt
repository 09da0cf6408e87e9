//! Letters written as bytes.
ghost use Rattle.std.specs.Prelude.{◌≡◌, ◌++◌, ◌∷◌, ◌≤◌, ◌<◌, ◌^◌, ◌⊎◌, [], length, map, drop, Ok, OnOk, IfOk, IfErr, IsErrOf};
ghost use Rattle.std.specs.List.{flat_map};
ghost use Rattle.site_join.specs.Groups.{group_of};
ghost use Rattle.site_join.specs.States.{session_of, facts_in};
ghost use Rattle.peer_exchange.specs.Limits.{length_bytes, longest_letter};
ghost use Rattle.fact_codec.specs.Spelling.{word_bytes};
ghost use Rattle.peer_exchange.specs.Spelling.{group_bytes, operation_bytes, operations_bytes, held_group_bytes, groups_bytes, held_bytes, body_bytes, letter_bytes, spelling};
ghost use Rattle.peer_exchange.specs.Reading.{letter_of};
ghost use Rattle.peer_exchange.specs.Values.{body_value};

use crate::body::{Acknowledgement, Body, Range, Snapshot};
use crate::fault::LetterFault;
use crate::letter::Letter;
use crate::limits::{LENGTH_BYTES, MOST_BYTES};
use fact_codec::{
    LETTER_VERSION, Unwritten, put_facts, put_held_facts, put_long, put_short, put_text, put_word,
};
use site_join::{Operation, SessionFacts};
use std::alloc::{AllocError, Global};

/// Adds a session with facts on it.
#[tactic(auto, using(crate::proofs::Added::added), unfolding(crate::specs::Spelling::group_bytes))]
fn put_session_facts(out: &mut Vec<u8>, facts: &SessionFacts) -> Result<(), Unwritten>
    ensures written { OnOk result (out.new.items
        ≡ out.old.items ++ group_bytes (session_of facts.now) (facts_in facts.now)) }
    ensures too_long { IsErrOf result Unwritten.TooLong
        → 2 ^ 32 ≤ length (group_bytes (session_of facts.now) (facts_in facts.now)) }
{
    match facts {
        SessionFacts::Gx(id, facts) => {
            out.push(1)?;
            put_text(out, id.as_slice())?;
            put_facts(out, facts.as_slice())
        }
        SessionFacts::Af(id, facts) => {
            out.push(2)?;
            put_text(out, id.as_slice())?;
            put_facts(out, facts.as_slice())
        }
    }
}

/// Adds an operation.
#[tactic(auto, using(crate::proofs::Added::added), unfolding(crate::specs::Spelling::operation_bytes))]
fn put_operation(out: &mut Vec<u8>, operation: &Operation) -> Result<(), Unwritten>
    ensures written { OnOk result (out.new.items
        ≡ out.old.items ++ operation_bytes operation.now) }
    ensures too_long { IsErrOf result Unwritten.TooLong
        → 2 ^ 32 ≤ length (operation_bytes operation.now) }
{
    put_long(out, operation.counter())?;
    out.push(operation.site())?;
    put_word(out, operation.number())?;
    put_session_facts(out, operation.facts())
}

/// Adds operations, and before them how many they are.
#[tactic(auto, using(crate::proofs::Added::added))]
fn put_operations(out: &mut Vec<u8>, operations: &[Operation]) -> Result<(), Unwritten>
    ensures written { OnOk result (out.new.items
        ≡ out.old.items ++ operations_bytes operations.now) }
    ensures too_long { IsErrOf result Unwritten.TooLong
        → 2 ^ 32 ≤ length (operations_bytes operations.now) }
{
    let count = operations.len();
    if count > u32::MAX as usize {
        return Err(Unwritten::TooLong);
    }
    put_word(out, count as u32)?;
    for operation in operations {
        put_operation(out, operation)?;
    }
    Ok(())
}

/// Adds a range.
#[tactic(auto, using(crate::proofs::Added::added))]
fn put_range(out: &mut Vec<u8>, range: &Range) -> Result<(), Unwritten>
    ensures written { OnOk result (out.new.items
        ≡ out.old.items ++ body_bytes (body_value (Body.Range range.now))) }
    ensures too_long { IsErrOf result Unwritten.TooLong
        → 2 ^ 32 ≤ length (body_bytes (body_value (Body.Range range.now))) }
{
    out.push(1)?;
    put_long(out, range.from)?;
    put_operations(out, range.operations.as_slice())
}

/// Adds what a state holds of a session.
#[tactic(auto, using(crate::proofs::Added::added), unfolding(crate::specs::Spelling::held_group_bytes))]
fn put_group(out: &mut Vec<u8>, group: &SessionFacts) -> Result<(), Unwritten>
    ensures written { OnOk result (out.new.items
        ≡ out.old.items ++ held_group_bytes (group_of group.now)) }
    ensures too_long { IsErrOf result Unwritten.TooLong
        → 2 ^ 32 ≤ length (held_group_bytes (group_of group.now)) }
{
    match group {
        SessionFacts::Gx(id, facts) => {
            out.push(1)?;
            put_text(out, id.as_slice())?;
            put_held_facts(out, facts.as_slice())
        }
        SessionFacts::Af(id, facts) => {
            out.push(2)?;
            put_text(out, id.as_slice())?;
            put_held_facts(out, facts.as_slice())
        }
    }
}

/// Adds what a state holds session by session, and before it of how many.
#[tactic(auto, using(crate::proofs::Added::added))]
fn put_groups(out: &mut Vec<u8>, groups: &[SessionFacts]) -> Result<(), Unwritten>
    ensures written { OnOk result (out.new.items
        ≡ out.old.items ++ groups_bytes (map group_of groups.now)) }
    ensures too_long { IsErrOf result Unwritten.TooLong
        → 2 ^ 32 ≤ length (groups_bytes (map group_of groups.now)) }
{
    let count = groups.len();
    if count > u32::MAX as usize {
        return Err(Unwritten::TooLong);
    }
    put_word(out, count as u32)?;
    for group in groups {
        put_group(out, group)?;
    }
    Ok(())
}

/// Adds what a state holds under a clock, with the length of a log.
#[tactic(auto, using(crate::proofs::Added::added))]
fn put_held(
    out: &mut Vec<u8>,
    clock: u64,
    log_length: u64,
    groups: &[SessionFacts],
) -> Result<(), Unwritten>
    ensures written { OnOk result (out.new.items ≡ out.old.items
        ++ held_bytes clock log_length (map group_of groups.now)) }
    ensures too_long { IsErrOf result Unwritten.TooLong
        → 2 ^ 32 ≤ length (held_bytes clock log_length (map group_of groups.now)) }
{
    out.push(2)?;
    put_long(out, clock)?;
    put_long(out, log_length)?;
    put_groups(out, groups)
}

/// Adds a whole state.
fn put_snapshot(out: &mut Vec<u8>, snapshot: &Snapshot) -> Result<(), Unwritten>
    ensures written { OnOk result (out.new.items
        ≡ out.old.items ++ body_bytes (body_value (Body.Snapshot snapshot.now))) }
    ensures too_long { IsErrOf result Unwritten.TooLong
        → 2 ^ 32 ≤ length (body_bytes (body_value (Body.Snapshot snapshot.now))) }
{
    let clock = snapshot.state.clock();
    let groups = snapshot.state.groups(*out.allocator())?;
    put_held(out, clock, snapshot.log_length, groups.as_slice())
}

/// Adds an acknowledgement.
#[tactic(auto, using(crate::proofs::Added::added))]
fn put_acknowledgement(out: &mut Vec<u8>, said: &Acknowledgement) -> Result<(), AllocError>
    ensures { OnOk result (out.new.items
        ≡ out.old.items ++ body_bytes (body_value (Body.Acknowledgement said.now))) }
{
    out.push(3)?;
    out.push(said.maker)?;
    put_short(out, said.maker_epoch)?;
    put_long(out, said.cursor)?;
    Ok(())
}

/// Adds what a letter says.
fn put_body(out: &mut Vec<u8>, body: &Body) -> Result<(), Unwritten>
    ensures written { OnOk result (out.new.items
        ≡ out.old.items ++ body_bytes (body_value body.now)) }
    ensures too_long { IsErrOf result Unwritten.TooLong
        → 2 ^ 32 ≤ length (body_bytes (body_value body.now)) }
{
    match body {
        Body::Range(range) => put_range(out, range),
        Body::Snapshot(snapshot) => put_snapshot(out, snapshot),
        Body::Acknowledgement(said) => Ok(put_acknowledgement(out, said)?),
    }
}

/// Adds a letter without its length.
#[tactic(auto, using(crate::proofs::Added::added), unfolding(crate::specs::Spelling::letter_bytes_in))]
fn put_letter(out: &mut Vec<u8>, letter: &Letter) -> Result<(), Unwritten>
    ensures written { OnOk result (out.new.items ≡ out.old.items ++ letter_bytes letter.now) }
    ensures too_long { IsErrOf result Unwritten.TooLong
        → 2 ^ 32 ≤ length (letter_bytes letter.now) }
{
    out.push(LETTER_VERSION)?;
    put_word(out, letter.edition())?;
    out.push(letter.site())?;
    put_short(out, letter.epoch())?;
    put_body(out, letter.body())
}

/// Writes the number of bytes that follow it into the first four.
fn set_length(frame: &mut Vec<u8>, count: u32)
    requires { length_bytes ≤ length frame.old.items }
    ensures { frame.new.items ≡ word_bytes count ++ drop length_bytes frame.old.items }
{
    let [first, second, third, fourth] = count.to_be_bytes();
    frame[0] = first;
    frame[1] = second;
    frame[2] = third;
    frame[3] = fourth;
}

/// The spelling of a letter in the last version, of at most 2^30 bytes behind its length.
pub fn write_letter(alloc: Global, letter: &Letter) -> Result<Vec<u8>, LetterFault>
    ensures written { IfOk result (λ v. v.items ≡ spelling letter.now) }
    ensures again { IfOk result (λ v. letter_of letter.now.edition v.items ≡ Ok letter.now) }
    ensures fits { OnOk result (length (letter_bytes letter.now) ≤ longest_letter) }
    ensures too_long { IsErrOf result LetterFault.TooLong
        → longest_letter < length (letter_bytes letter.now) }
    ensures fault { IfErr result (λ e. (e ≡ LetterFault.TooLong) ⊎ (e ≡ LetterFault.NoMemory)) }
{
    letter.note_kept();
    let mut frame = Vec::new(alloc);
    put_word(&mut frame, 0)?;
    put_letter(&mut frame, letter)?;
    let length = frame.len() - LENGTH_BYTES;
    if length > MOST_BYTES as usize {
        return Err(LetterFault::TooLong);
    }
    set_length(&mut frame, length as u32);
    Ok(frame)
}
