//! Both ends of a link prove that they have one secret before the first record.
ghost use Rattle.std.specs.Prelude.{◌≡◌, ◌≢◌, ◌++◌, IfOk, IfErr, OnOk};
ghost use Rattle.std.specs.Io.KnownBytes.{Appends, Consumes};
ghost use Rattle.peer_lines.specs.Hmac.{code_under};
ghost use Rattle.peer_lines.specs.Proving.{greeting_bytes, link_key, proof_of, proved_bytes, site_beside};
ghost use Rattle.peer_lines.specs.declared.sealed.course.Side.TheVariants as sides;
ghost use Rattle.peer_lines.specs.declared.sealed.fault.SealFault.TheVariants as faults;

use crate::sealed::course::Side;
use crate::sealed::fault::SealFault;
use crate::sealed::hmac::{CODE_BYTES, Key, are_same};
use std::io::{ErrorKind, Read, Write};

/// How many bytes a challenge has.
pub const CHALLENGE_BYTES: usize = 32;

/// How many bytes a greeting has.
pub const GREETING_BYTES: usize = 37;

/// What a greeting begins with: `pcr`, and the version 1. As the length of a letter it is more than any letter has.
const MARK: [u8; MARK_BYTES] = [0x70, 0x63, 0x72, 0x01];

/// How many bytes it has.
const MARK_BYTES: usize = 4;

/// How many bytes are behind it.
const BEHIND_MARK: usize = GREETING_BYTES - MARK_BYTES;

/// What the key of a link's records is coded for.
const FOR_RECORDS: u8 = 3;

/// What an end of a link says first: the number of its site, and a challenge, which it takes for no other link.
#[derive(Clone, Copy)]
pub struct Greeting {
    pub site: u8,
    pub challenge: [u8; CHALLENGE_BYTES],
}

impl Greeting {
    /// Its bytes.
    fn bytes(&self) -> [u8; GREETING_BYTES]
        ensures { result ≡ greeting_bytes self.now }
    {
        let mut bytes = [0u8; GREETING_BYTES];
        bytes[..4].copy_from_slice(&MARK);
        bytes[4] = self.site;
        bytes[5..].copy_from_slice(&self.challenge);
        bytes
    }
}

/// What both ends said.
#[derive(Clone, Copy)]
pub struct Greetings {
    pub dialler: Greeting,
    pub listener: Greeting,
}

impl Greetings {
    /// The code of both, for that.
    fn code(&self, secret: &Key, what: u8) -> [u8; CODE_BYTES]
        ensures { result ≡ code_under secret.now.block
            (proved_bytes what self.now.dialler self.now.listener) }
    {
        let head = [what, self.dialler.site, self.listener.site];
        secret.code(&head, &self.dialler.challenge, &self.listener.challenge)
    }

    /// The proof of a side.
    fn proof(&self, secret: &Key, side: Side) -> [u8; CODE_BYTES]
        ensures { result ≡ proof_of secret.now.block side self.now.dialler self.now.listener }
    {
        self.code(secret, side.byte())
    }

    /// The site of the other end than that one.
    pub fn site_beside(&self, side: Side) -> u8
        ensures { result ≡ site_beside side self.now }
    {
        match side {
            Side::Dialler => self.listener.site,
            Side::Listener => self.dialler.site,
        }
    }

    /// The key of the link's records.
    pub fn key(&self, secret: &Key) -> Key
        ensures { result.block ≡ link_key secret.now.block self.now.dialler self.now.listener }
    {
        Key::of(&self.code(secret, FOR_RECORDS))
    }
}

/// Reads just so many bytes.
fn read_whole<R: Read>(reader: &mut R, bytes: &mut [u8]) -> Result<(), SealFault>
    ensures bytes { OnOk result
        (Consumes (R.remaining reader.old) (R.remaining reader.new) bytes.new) }
    ensures fault { IfErr result (λ e. e ≢ faults.WriteFailed) }
{
    match reader.read_exact(bytes) {
        Ok(()) => Ok(()),
        Err(error) if error.kind() == ErrorKind::UnexpectedEof => Err(SealFault::Cut),
        Err(_) => Err(SealFault::ReadFailed),
    }
}

/// Writes all of the bytes, and hands them on.
fn write_whole<W: Write>(writer: &mut W, bytes: &[u8]) -> Result<(), SealFault>
    ensures bytes { OnOk result
        (Appends (W.contents writer.old) (W.contents writer.new) bytes.now) }
    ensures fault { IfErr result (λ e. e ≡ faults.WriteFailed) }
{
    if writer.write_all(bytes).is_err() || writer.flush().is_err() {
        return Err(SealFault::WriteFailed);
    }
    Ok(())
}

/// Reads the greeting of the other end, which is another site's. Its mark is judged once its four bytes are there.
fn read_greeting<R: Read>(reader: &mut R, own: u8) -> Result<Greeting, SealFault>
    ensures read { IfOk result (λ g.
        Consumes (R.remaining reader.old) (R.remaining reader.new) (greeting_bytes g)) }
    ensures other { IfOk result (λ g. g.site ≢ own) }
    ensures fault { IfErr result (λ e. e ≢ faults.WriteFailed) }
{
    let mut mark = [0u8; MARK_BYTES];
    read_whole(reader, &mut mark)?;
    if !are_same(&mark, &MARK) {
        return Err(SealFault::NoGreeting);
    }
    let mut rest = [0u8; BEHIND_MARK];
    read_whole(reader, &mut rest)?;
    let site = rest[0];
    if site == own {
        return Err(SealFault::OwnNumber);
    }
    let mut challenge = [0u8; CHALLENGE_BYTES];
    challenge.copy_from_slice(&rest[1..]);
    Ok(Greeting { site, challenge })
}

/// Reads the proof of the other end.
fn read_proof<R: Read>(reader: &mut R, proof: &[u8; CODE_BYTES]) -> Result<(), SealFault>
    ensures read { OnOk result
        (Consumes (R.remaining reader.old) (R.remaining reader.new) proof.now) }
    ensures fault { IfErr result (λ e. e ≢ faults.WriteFailed) }
{
    let mut bytes = [0u8; CODE_BYTES];
    read_whole(reader, &mut bytes)?;
    if !are_same(&bytes, proof) {
        return Err(SealFault::WrongProof);
    }
    Ok(())
}

/// Proves to who was dialled that this end has the secret, once that one has proved it: it says its greeting, reads the other's
/// greeting and proof, and then writes its own proof.
pub fn prove_dialling<R: Read, W: Write>(
    reader: &mut R,
    writer: &mut W,
    secret: &Key,
    own: Greeting,
) -> Result<Greetings, SealFault>
    ensures own { IfOk result (λ both. both.dialler ≡ own) }
    ensures other { IfOk result (λ both. both.listener.site ≢ own.site) }
    ensures read { IfOk result (λ both. Consumes (R.remaining reader.old) (R.remaining reader.new)
        (greeting_bytes both.listener
        ++ proof_of secret.now.block sides.Listener own both.listener)) }
    ensures written { IfOk result (λ both. Appends (W.contents writer.old) (W.contents writer.new)
        (greeting_bytes own ++ proof_of secret.now.block sides.Dialler own both.listener)) }

    // Who has proved nothing gets no proof.
    ensures silent { IfErr result (λ e. e ≢ faults.WriteFailed
        → Appends (W.contents writer.old) (W.contents writer.new) (greeting_bytes own)) }
{
    write_whole(writer, &own.bytes())?;
    let listener = read_greeting(reader, own.site)?;
    let both = Greetings {
        dialler: own,
        listener,
    };
    read_proof(reader, &both.proof(secret, Side::Listener))?;
    write_whole(writer, &both.proof(secret, Side::Dialler))?;
    Ok(both)
}

/// Proves to who dialled that this end has the secret, and has it proved by that one: it reads the other's greeting, says its own
/// greeting and proof, and then reads the other's proof.
pub fn prove_listening<R: Read, W: Write>(
    reader: &mut R,
    writer: &mut W,
    secret: &Key,
    own: Greeting,
) -> Result<Greetings, SealFault>
    ensures own { IfOk result (λ both. both.listener ≡ own) }
    ensures other { IfOk result (λ both. both.dialler.site ≢ own.site) }
    ensures read { IfOk result (λ both. Consumes (R.remaining reader.old) (R.remaining reader.new)
        (greeting_bytes both.dialler
        ++ proof_of secret.now.block sides.Dialler both.dialler own)) }
    ensures written { IfOk result (λ both. Appends (W.contents writer.old) (W.contents writer.new)
        (greeting_bytes own ++ proof_of secret.now.block sides.Listener both.dialler own)) }
{
    let dialler = read_greeting(reader, own.site)?;
    let both = Greetings {
        dialler,
        listener: own,
    };
    write_whole(writer, &own.bytes())?;
    write_whole(writer, &both.proof(secret, Side::Listener))?;
    read_proof(reader, &both.proof(secret, Side::Dialler))?;
    Ok(both)
}
