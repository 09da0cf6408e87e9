//! AVPs of an answer, one after another; what every answer is made of, and the answer that refuses a request.
ghost use Rattle.std.specs.Prelude.{◌≡◌, ◌+◌, ◌≤◌, ◌<◌, [], ◌∷◌, List, length, IfOk, OnOk, OnErr, IfSome, IfNone, true, ◌++◌, IfErr};
ghost use Rattle.dia_base.specs.Avps.{base_key, tgpp_key, experimental_result};
ghost use Rattle.dia_base.specs.Answers.{text_avp, number_avp, plain_avp, tgpp_avp, AddsSome, answer_header, application_avps, group_avp, is_protocol_error, is_permanent_failure, names_application, experimental_avps, origin_avps, refusal_answer, refused_avps, result_avp, session_avps};
ghost use Rattle.dia_codec.specs.Drafts.{Adds, Closes, Opens};
ghost use Rattle.dia_codec.specs.Fields.{AvpValue};
ghost use Rattle.dia_codec.specs.Limits.{avp_header_bytes, longest_message};
ghost use Rattle.dia_codec.specs.Written.{word_bytes, written_len, written_spelling};
ghost use Rattle.std.specs.Option.{option_copied};
ghost use Rattle.dia_codec.specs.declared.fault.WriteFault.TheVariants as write;
ghost use Rattle.dia_base.specs.Requests.{request_header};

use crate::codes::{GX, RX, TGPP, avps, commands, results};
use crate::identity::Identity;
use crate::rows::{base_key, tgpp_key};
use dia_codec::{Flags, Header, Mark, MessageWriter, WriteFault};
use pcrf_values::Refusal;
use std::alloc::{AllocError, Global};
use std::marker::Model;

/// The AVPs of a message in the order of writing, as the bytes that they are. RFC 6733's own stand without a vendor and with
/// the M bit, 3GPP's with its vendor; none has the P bit (4.1, 4.5). After an error all is as it was.
#[derive(Drop)]
pub struct AvpWriter {
    message: MessageWriter,
}

impl Model for AvpWriter {
    ghost use Rattle.std.specs.Prelude.{ℕ, List};

    ghost Value = { List ℕ };

    ghost view = { λ w. w.message };
}

impl AvpWriter {
    /// No AVP yet.
    pub fn start(alloc: Global) -> Result<AvpWriter, AllocError>
        ensures { IfOk result (λ writer. writer ≡ []) }
    {
        let message = MessageWriter::start(alloc)?;
        Ok(AvpWriter { message })
    }

    /// Adds an AVP whose value is these bytes.
    pub fn text(&mut self, code: u32, bytes: &[u8]) -> Result<(), AllocError>
        ensures added { OnOk result
            (Adds self.old self.new (text_avp (base_key code) bytes.now ∷ [])) }
        ensures refused { OnErr result (self.new ≡ self.old) }
    {
        self.message.value(base_key(code), true, bytes)
    }

    /// Adds an AVP without the M bit whose value is these bytes.
    pub fn plain_text(&mut self, code: u32, bytes: &[u8]) -> Result<(), AllocError>
        ensures added { OnOk result
            (Adds self.old self.new (plain_avp (base_key code) bytes.now ∷ [])) }
        ensures refused { OnErr result (self.new ≡ self.old) }
    {
        self.message.value(base_key(code), false, bytes)
    }

    /// Adds an AVP whose value is a number, big-endian (Unsigned32 or Enumerated).
    pub fn number(&mut self, code: u32, number: u32) -> Result<(), AllocError>
        ensures added { OnOk result
            (Adds self.old self.new (number_avp (base_key code) number ∷ [])) }
        ensures refused { OnErr result (self.new ≡ self.old) }
    {
        self.message.number(base_key(code), true, number)
    }

    /// Adds an AVP of 3GPP whose value is these bytes, with the M bit or without it.
    pub fn tgpp_text(&mut self, code: u32, mandatory: bool, bytes: &[u8]) -> Result<(), AllocError>
        ensures added { OnOk result
            (Adds self.old self.new (tgpp_avp (tgpp_key code) mandatory bytes.now ∷ [])) }
        ensures refused { OnErr result (self.new ≡ self.old) }
    {
        self.message.value(tgpp_key(code), mandatory, bytes)
    }

    /// Adds an AVP of 3GPP whose value is a number, big-endian (Unsigned32 or Enumerated).
    pub fn tgpp_number(&mut self, code: u32, mandatory: bool, number: u32) -> Result<(), AllocError>
        ensures added { OnOk result
            (Adds self.old self.new (tgpp_avp (tgpp_key code) mandatory (word_bytes number) ∷ [])) }
        ensures refused { OnErr result (self.new ≡ self.old) }
    {
        self.message.number(tgpp_key(code), mandatory, number)
    }

    /// Begins a group (Grouped, RFC 6733, 4.4): the AVPs that are added next, to its `close`.
    pub fn open(&mut self, code: u32) -> Result<Mark, AllocError>
        ensures opened { IfOk result (λ mark.
            Opens (base_key code) true self.old self.new mark.at) }
        ensures refused { OnErr result (self.new ≡ self.old) }
    {
        self.message.open(base_key(code), true)
    }

    /// Begins a group of 3GPP, with the M bit or without it.
    pub fn open_tgpp(&mut self, code: u32, mandatory: bool) -> Result<Mark, AllocError>
        ensures opened { IfOk result (λ mark.
            Opens (tgpp_key code) mandatory self.old self.new mark.at) }
        ensures refused { OnErr result (self.new ≡ self.old) }
    {
        self.message.open(tgpp_key(code), mandatory)
    }

    /// Ends the group that was begun there.
    pub fn close(&mut self, mark: Mark)
        requires { mark.at + avp_header_bytes ≤ length self.old }
        ensures { Closes mark.at self.old self.new }
    {
        self.message.close(mark);
    }

    /// The bytes of the message with this header, None where they are more than a message may have.
    pub fn into_bytes(self, header: &Header) -> Option<Vec<u8>>
        ensures written { IfSome result (λ bytes. (avps : List AvpValue) → Adds [] self avps
            → bytes.items ≡ written_spelling (record { header = header.now; avps = avps })) }
        ensures fits { IfSome result (λ _. (avps : List AvpValue) → Adds [] self avps
            → written_len (record { header = header.now; avps = avps }) ≤ longest_message) }
        ensures too_long { IfNone result ((avps : List AvpValue) → Adds [] self avps
            → longest_message < written_len (record { header = header.now; avps = avps })) }
    {
        let AvpWriter { message } = self;
        message.into_bytes(header)
    }
}

/// The header of an answer that tells of this refusal, or of success: the request's command, application, identifiers
/// and P bit; E where the refusal is a protocol error (RFC 6733, 3 and 6.2).
pub fn answer_header(header: &Header, refusal: Option<Refusal>) -> Header
    ensures { result ≡ answer_header header.now refusal }
{
    Header {
        flags: Flags {
            request: false,
            proxiable: header.flags.proxiable,
            error: refusal.is_some_and(is_protocol_error),
            retransmitted: false,
        },
        command: header.command,
        application: header.application,
        hop_id: header.hop_id,
        end_id: header.end_id,
    }
}

/// The header of a request that this site makes: R and P (RFC 6733, 3).
pub fn request_header(command: u32, application: u32, hop_id: u32, end_id: u32) -> Header
    ensures { result ≡ request_header command application hop_id end_id }
{
    Header {
        flags: Flags {
            request: true,
            proxiable: true,
            error: false,
            retransmitted: false,
        },
        command,
        application,
        hop_id,
        end_id,
    }
}

/// Whether the refusal is a protocol error (RFC 6733, 7.1.3).
fn is_protocol_error(refusal: Refusal) -> bool
    ensures { result ≡ is_protocol_error refusal }
{
    refusal.code / 1000 == 3
}

/// Writes Origin-Host and Origin-Realm (RFC 6733, 6.3 and 6.4). After an error the writer holds what it held, or the
/// Origin-Host besides.
pub fn put_origin(out: &mut AvpWriter, identity: &Identity) -> Result<(), AllocError>
    ensures written { OnOk result (Adds out.old out.new (origin_avps identity.now)) }
    ensures begun { OnErr result (AddsSome (origin_avps identity.now) out.old out.new) }
{
    out.text(avps::ORIGIN_HOST, identity.host.as_slice())?;
    out.text(avps::ORIGIN_REALM, identity.realm.as_slice())?;
    Ok(())
}

/// Writes what the Experimental-Result of a code of 3GPP holds (RFC 6733, 7.6).
fn put_experimental(out: &mut AvpWriter, code: u32) -> Result<(), AllocError>
    ensures { OnOk result (Adds out.old out.new (experimental_avps code)) }
{
    out.number(avps::VENDOR_ID, TGPP)?;
    out.number(avps::EXPERIMENTAL_RESULT_CODE, code)?;
    Ok(())
}

/// Writes the Experimental-Result of a code of 3GPP.
fn put_experimental_result(out: &mut AvpWriter, code: u32) -> Result<(), AllocError>
    ensures { OnOk result (Adds out.old out.new
        (group_avp experimental_result (experimental_avps code) ∷ [])) }
{
    let mark = out.open(avps::EXPERIMENTAL_RESULT)?;
    put_experimental(out, code)?;
    out.close(mark);
    Ok(())
}

/// Writes the result: DIAMETER_SUCCESS where there is no refusal, else the refusal's Result-Code, or the
/// Experimental-Result of a code of 3GPP (RFC 6733, 7.1 and 7.6).
pub fn put_result(out: &mut AvpWriter, refusal: Option<Refusal>) -> Result<(), AllocError>
    ensures written { OnOk result (Adds out.old out.new (result_avp refusal ∷ [])) }
{
    match refusal {
        None => out.number(avps::RESULT_CODE, results::SUCCESS)?,
        Some(refusal) if refusal.experimental => put_experimental_result(out, refusal.code)?,
        Some(refusal) => out.number(avps::RESULT_CODE, refusal.code)?,
    }
    Ok(())
}

/// Whether the Auth-Application-Id stands in an answer that tells of this refusal.
fn names_application(header: &Header, refusal: Refusal) -> bool
    ensures { result ≡ names_application header.now refusal }
{
    let gx = header.command == commands::CREDIT_CONTROL && header.application == GX;
    let rx = header.command == commands::AUTHORIZATION && header.application == RX;
    refusal.code / 1000 == 5 && (gx || rx)
}

/// Writes what such an answer has behind its Session-Id.
fn put_refused(
    out: &mut AvpWriter,
    identity: &Identity,
    header: &Header,
    refusal: Refusal,
) -> Result<(), AllocError>
    ensures { OnOk result
        (Adds out.old out.new (refused_avps identity.now header.now refusal)) }
{
    put_application(out, header, refusal)?;
    put_origin(out, identity)?;
    put_result(out, Some(refusal))?;
    Ok(())
}

/// Writes the Session-Id, where there is one.
fn put_session(out: &mut AvpWriter, session: Option<&[u8]>) -> Result<(), AllocError>
    ensures { OnOk result (Adds out.old out.new (session_avps (option_copied session.entry))) }
{
    let Some(id) = session else {
        return Ok(());
    };
    out.text(avps::SESSION_ID, id)?;
    Ok(())
}

/// Writes the Auth-Application-Id, where it stands.
fn put_application(out: &mut AvpWriter, header: &Header, refusal: Refusal) -> Result<(), AllocError>
    ensures { OnOk result (Adds out.old out.new (application_avps header.now refusal)) }
{
    if !names_application(header, refusal) {
        return Ok(());
    }
    out.number(avps::AUTH_APPLICATION_ID, header.application)?;
    Ok(())
}

/// The bytes of the answer to a request that could not be read or isn't served (RFC 6733, 7.2): its Session-Id where one is
/// known, the Auth-Application-Id where the request's own answer would have it and it failed for good, the origin, and the
/// result. It fits a message where the Session-Id has at most 512 bytes.
#[tactic(auto, unfolding(crate::specs::Answers::refusal_answer))]
pub fn write_refusal_answer(
    alloc: Global,
    identity: &Identity,
    header: &Header,
    refusal: Refusal,
    session: Option<&[u8]>,
) -> Result<Vec<u8>, WriteFault>
    ensures written { IfOk result (λ bytes. bytes.items ≡ written_spelling
        (refusal_answer identity.now header.now refusal (option_copied session.entry))) }
    ensures fits { OnOk result (written_len
        (refusal_answer identity.now header.now refusal (option_copied session.entry))
        ≤ longest_message) }
    ensures too_long { IfErr result (λ fault. fault ≡ write.TooLong → longest_message < written_len
        (refusal_answer identity.now header.now refusal (option_copied session.entry))) }
{
    let mut out = AvpWriter::start(alloc)?;
    put_session(&mut out, session)?;
    put_refused(&mut out, identity, header, refusal)?;
    match out.into_bytes(&answer_header(header, Some(refusal))) {
        Some(bytes) => Ok(bytes),
        None => Err(WriteFault::TooLong),
    }
}
