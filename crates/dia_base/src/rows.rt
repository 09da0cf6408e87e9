//! AVPs of a message, judged row by row. Each reader judges one row of a table and gives what stands there: one AVP, groups of
//! AVPs, AVPs that may stand several times, who sent the request, and the subscribers that it names (Subscription-Id, RFC 8506,
//! 8.46). Else it gives the first refusal of the row (RFC 6733, 7.1.5): 5009 where the AVP stands too often, 5005 where it is
//! missing, then 5014 or 5004 of a value, or, of a group, what its own rows refuse.
ghost use Rattle.std.specs.Prelude.{◌≡◌, ◌<◌, ◌≤◌, length, OnOk, OnErr, IfOk, IfErr, IfSome, Some, option_map, option_copied, ℕ, List, None, map, ◌↔◌, IsTrue};
ghost use Rattle.std.specs.Net.Addr.{ipv4_octets};
ghost use Rattle.pcrf_values.specs.Limits.{apn_limit};
ghost use Rattle.pcrf_values.specs.Results.{avp_occurs_too_many_times};
ghost use Rattle.pcrf_values.specs.Texts.{small_letters};
ghost use Rattle.dia_codec.specs.Spelling.{avp_view, avp_views};
ghost use Rattle.dia_base.specs.Avps.{base_key, tgpp_key, origin_host, origin_realm, subscription_id_type};
ghost use Rattle.dia_base.specs.Rows.{first_at, values_of, value_of, value_in, number_at, IsOnlyAt, required, optional, unsigned32, enumerated, text_to, ipv4_address, ipv6_prefix, prefix_at, prefix_in, Accepts, RefusesWith, RefusesAnyKind, FaultsWith, Kind, is_too_often, repeated, IsFaultOf, IsFaultOfAnyGroup, AcceptsAll, rows_refusal};
ghost use Rattle.dia_codec.specs.Reading.{avps_of};
ghost use Rattle.dia_base.specs.Origins.{origin_rows};
ghost use Rattle.pcrf_values.specs.Numbers.{subscription_number};
ghost use Rattle.dia_base.specs.Subscriptions.{subscription, subscription_type_row, subscription_row, subscriber_of, subscribers_of};

use crate::codes::TGPP;
use crate::codes::avps::{
    ORIGIN_HOST, ORIGIN_REALM, SUBSCRIPTION_ID, SUBSCRIPTION_ID_DATA, SUBSCRIPTION_ID_TYPE,
};
use crate::codes::results::{
    AVP_OCCURS_TOO_MANY_TIMES, INVALID_AVP_LENGTH, INVALID_AVP_VALUE, MISSING_AVP,
};
use crate::read_fault::ReadFault;
use dia_codec::{Avp, AvpKey, MsgFault, read_group};
use pcrf_values::limits::SUBSCRIBERS_LIMIT;
use pcrf_values::{
    Apn, BoundedText, DiameterIdentity, Exact, Ipv6Prefix, Ranked, Refusal, Subscriber,
    Subscribers, SubscriptionType, Text, same,
};
use std::alloc::{AllocError, Global};
use std::net::Ipv4Addr;

/// The key of an AVP of RFC 6733 or another document of the IETF.
pub const fn base_key(code: u32) -> AvpKey
    ensures { result ≡ base_key code }
{
    AvpKey { code, vendor: None }
}

/// The key of an AVP of 3GPP, vendor 10415.
pub const fn tgpp_key(code: u32) -> AvpKey
    ensures { result ≡ tgpp_key code }
{
    AvpKey {
        code,
        vendor: Some(TGPP),
    }
}

/// How many AVPs have a key.
pub fn count_of(avps: &[Avp<'_>], key: AvpKey) -> usize
    ensures { result ≡ length (values_of key (avp_views avps.now)) }
{
    let mut count = 0;
    for avp in avps {
        if avp.key() == key {
            count += 1;
        }
    }
    count
}

/// The first AVP with a key, if there is one.
pub fn first_with<'a, 'f>(avps: &'a [Avp<'f>], key: AvpKey) -> Option<&'a Avp<'f>>
    ensures avp { option_map avp_view (option_copied result) ≡ first_at key (avp_views avps.now) }
    ensures value { value_in (option_copied result) ≡ value_of key (avp_views avps.now) }
{
    for avp in avps {
        if avp.key() == key {
            return Some(avp);
        }
    }
    None
}

/// The AVP with a key, which may stand once at most.
fn at_most_once<'a, 'f>(avps: &'a [Avp<'f>], key: AvpKey) -> Result<Option<&'a Avp<'f>>, Refusal>
    ensures found { IfOk result (λ avp. IsOnlyAt key (avp_views avps.now) (option_copied avp)) }
    ensures refused { IfErr result (λ refusal. refusal ≡ avp_occurs_too_many_times) }
    ensures repeated { OnErr result (1 < length (values_of key (avp_views avps.now))) }
{
    let mut found: Option<&'a Avp<'f>> = None;
    for avp in avps {
        if avp.key() == key {
            if found.is_some() {
                return Err(Refusal::base(AVP_OCCURS_TOO_MANY_TIMES));
            }
            found = Some(avp);
        }
    }
    Ok(found)
}

/// The AVP with a key, which stands exactly once.
#[tactic(auto, unfolding(crate::specs::Rows::row_refusal))]
fn exactly_once<'a, 'f>(avps: &'a [Avp<'f>], key: AvpKey) -> Result<&'a Avp<'f>, Refusal>
    ensures found { IfOk result (λ avp. IsOnlyAt key (avp_views avps.now) (Some avp.now)) }
    ensures refused { IfErr result (RefusesAnyKind key (avp_views avps.now)) }
{
    let found = at_most_once(avps, key)?;
    let Some(avp) = found else {
        return Err(Refusal::base(MISSING_AVP));
    };
    Ok(avp)
}

/// Reads a text of 1 to `MOST` bytes, which stands exactly once.
#[tactic(auto, unfolding(crate::specs::Rows::row_refusal))]
pub fn required_text<const MOST: usize>(
    alloc: Global,
    avps: &[Avp<'_>],
    key: AvpKey,
) -> Result<BoundedText<MOST>, ReadFault>
    ensures accepted { OnOk result (Accepts (required key (text_to MOST)) (avp_views avps.now)) }
    ensures text { IfOk result (λ text. value_of key (avp_views avps.now) ≡ Some text) }
    ensures refused { IfErr result (FaultsWith (required key (text_to MOST)) (avp_views avps.now)) }
{
    let avp = exactly_once(avps, key)?;
    let Some(text) = BoundedText::read(alloc, avp.text())? else {
        return Err(ReadFault::Refused(Refusal::base(INVALID_AVP_VALUE)));
    };
    Ok(text)
}

/// Reads a number, which stands exactly once.
#[tactic(auto, unfolding(crate::specs::Rows::row_refusal))]
pub fn required_number(avps: &[Avp<'_>], key: AvpKey) -> Result<u32, Refusal>
    ensures accepted { OnOk result (Accepts (required key unsigned32) (avp_views avps.now)) }
    ensures number { IfOk result (λ number. number_at key (avp_views avps.now) ≡ Some number) }
    ensures refused { IfErr result (RefusesWith (required key unsigned32) (avp_views avps.now)) }
{
    let avp = exactly_once(avps, key)?;
    let Some(number) = avp.number() else {
        return Err(Refusal::base(INVALID_AVP_LENGTH));
    };
    Ok(number)
}

/// Reads a number within a range, which stands exactly once.
#[tactic(auto, unfolding(crate::specs::Rows::row_refusal))]
pub fn required_number_within(
    avps: &[Avp<'_>],
    key: AvpKey,
    least: u32,
    most: u32,
) -> Result<u32, Refusal>
    ensures accepted { OnOk result
        (Accepts (required key (enumerated least most)) (avp_views avps.now)) }
    ensures number { IfOk result (λ number. number_at key (avp_views avps.now) ≡ Some number) }
    ensures least { IfOk result (λ number. least ≤ number) }
    ensures most { IfOk result (λ number. number ≤ most) }
    ensures refused { IfErr result
        (RefusesWith (required key (enumerated least most)) (avp_views avps.now)) }
{
    let avp = exactly_once(avps, key)?;
    let Some(number) = avp.number() else {
        return Err(Refusal::base(INVALID_AVP_LENGTH));
    };
    if number < least || number > most {
        return Err(Refusal::base(INVALID_AVP_VALUE));
    }
    Ok(number)
}

/// Reads a number, which may stand once.
#[tactic(auto, unfolding(crate::specs::Rows::row_refusal))]
pub fn optional_number(avps: &[Avp<'_>], key: AvpKey) -> Result<Option<u32>, Refusal>
    ensures accepted { OnOk result (Accepts (optional key unsigned32) (avp_views avps.now)) }
    ensures number { IfOk result (λ number. number ≡ number_at key (avp_views avps.now)) }
    ensures refused { IfErr result (RefusesWith (optional key unsigned32) (avp_views avps.now)) }
{
    let found = at_most_once(avps, key)?;
    let Some(avp) = found else {
        return Ok(None);
    };
    let Some(number) = avp.number() else {
        return Err(Refusal::base(INVALID_AVP_LENGTH));
    };
    Ok(Some(number))
}

/// Reads a number within a range, which may stand once.
#[tactic(auto, unfolding(crate::specs::Rows::row_refusal))]
pub fn optional_number_within(
    avps: &[Avp<'_>],
    key: AvpKey,
    least: u32,
    most: u32,
) -> Result<Option<u32>, Refusal>
    ensures accepted { OnOk result
        (Accepts (optional key (enumerated least most)) (avp_views avps.now)) }
    ensures number { IfOk result (λ number. number ≡ number_at key (avp_views avps.now)) }
    ensures least { IfOk result (λ number. IfSome number (λ given. least ≤ given)) }
    ensures most { IfOk result (λ number. IfSome number (λ given. given ≤ most)) }
    ensures refused { IfErr result
        (RefusesWith (optional key (enumerated least most)) (avp_views avps.now)) }
{
    let found = at_most_once(avps, key)?;
    let Some(avp) = found else {
        return Ok(None);
    };
    let Some(number) = avp.number() else {
        return Err(Refusal::base(INVALID_AVP_LENGTH));
    };
    if number < least || number > most {
        return Err(Refusal::base(INVALID_AVP_VALUE));
    }
    Ok(Some(number))
}

/// Reads an IPv4 address, which may stand once.
#[tactic(auto, unfolding(crate::specs::Rows::row_refusal))]
pub fn optional_address(avps: &[Avp<'_>], key: AvpKey) -> Result<Option<Ipv4Addr>, Refusal>
    ensures accepted { OnOk result (Accepts (optional key ipv4_address) (avp_views avps.now)) }
    ensures address { IfOk result (λ address.
        option_map ipv4_octets address ≡ value_of key (avp_views avps.now)) }
    ensures refused { IfErr result (RefusesWith (optional key ipv4_address) (avp_views avps.now)) }
{
    let found = at_most_once(avps, key)?;
    let Some(avp) = found else {
        return Ok(None);
    };
    let Some(address) = avp.address() else {
        return Err(Refusal::base(INVALID_AVP_VALUE));
    };
    Ok(Some(address))
}

/// The prefix that a value gives: a byte that doesn't count, the length in bits, and the bits.
fn prefix_in(value: &[u8]) -> Option<Ipv6Prefix>
    ensures { result ≡ prefix_in value.now }
{
    let (_, value) = value.split_first()?;
    let (bits, bytes) = value.split_first()?;
    Ipv6Prefix::of(*bits, bytes)
}

/// Reads an IPv6 prefix, which may stand once (RFC 3162, 2.3; bits past its length are dropped).
#[tactic(auto, unfolding(crate::specs::Rows::row_refusal))]
pub fn optional_prefix(avps: &[Avp<'_>], key: AvpKey) -> Result<Option<Ipv6Prefix>, Refusal>
    ensures accepted { OnOk result (Accepts (optional key ipv6_prefix) (avp_views avps.now)) }
    ensures prefix { IfOk result (λ prefix. prefix ≡ prefix_at key (avp_views avps.now)) }
    ensures refused { IfErr result (RefusesWith (optional key ipv6_prefix) (avp_views avps.now)) }
{
    let found = at_most_once(avps, key)?;
    let Some(avp) = found else {
        return Ok(None);
    };
    let Some(prefix) = prefix_in(avp.text()) else {
        return Err(Refusal::base(INVALID_AVP_VALUE));
    };
    Ok(Some(prefix))
}

/// Reads an access point name, which may stand once. Its ASCII capitals are folded to small letters.
#[tactic(auto, unfolding(crate::specs::Rows::row_refusal))]
pub fn optional_apn(alloc: Global, avps: &[Avp<'_>], key: AvpKey) -> Result<Option<Apn>, ReadFault>
    ensures accepted { OnOk result
        (Accepts (optional key (text_to apn_limit)) (avp_views avps.now)) }
    ensures apn { IfOk result (λ apn. apn
        ≡ option_map small_letters (value_of key (avp_views avps.now))) }
    ensures refused { IfErr result
        (FaultsWith (optional key (text_to apn_limit)) (avp_views avps.now)) }
{
    let found = at_most_once(avps, key)?;
    let Some(avp) = found else {
        return Ok(None);
    };
    let Some(apn) = Apn::folded(alloc, avp.text())? else {
        return Err(ReadFault::Refused(Refusal::base(INVALID_AVP_VALUE)));
    };
    Ok(Some(apn))
}

/// Reads the AVPs of a group (Grouped, RFC 6733, 4.4).
pub fn read_avps(alloc: Global, value: &[u8]) -> Result<Vec<Avp<'_>>, ReadFault>
    ensures avps { IfOk result (λ avps. avps_of value.now ≡ Some (avp_views avps.items)) }
    ensures refused { IfErr result (IsFaultOfAnyGroup value.now) }
{
    match read_group(alloc, value) {
        Ok(avps) => Ok(avps),
        Err(MsgFault::NoMemory) => Err(ReadFault::NoMemory),
        Err(_) => Err(ReadFault::Refused(Refusal::base(INVALID_AVP_LENGTH))),
    }
}

/// What the value of an AVP is read as.
pub trait FromValue: Sized + Drop {
    ghost kind: { Kind };

    ghost of_value: { List ℕ → Self };

    /// Reads the value of an AVP, or gives the first refusal of it.
    fn from_value(alloc: Global, value: &[u8]) -> Result<Self, ReadFault>
        ensures accepted { OnOk result (kind value.now ≡ None) }
        ensures read { IfOk result (λ read. read ≡ of_value value.now) }
        ensures refused { IfErr result (IsFaultOf (kind value.now)) };
}

/// They stand more often than a row allows, where it has a limit.
fn is_too_often(count: usize, most: Option<usize>) -> bool
    ensures { result ≡ is_too_often most count }
{
    match most {
        Some(most) => count > most,
        None => false,
    }
}

/// Reads the AVPs with a key, which may stand `most` times, or any number of times, in the order in which they stand. Each is
/// judged wholly before the next.
pub fn read_each<V: FromValue>(
    alloc: Global,
    avps: &[Avp<'_>],
    key: AvpKey,
    most: Option<usize>,
) -> Result<Vec<V>, ReadFault>
    ensures accepted { OnOk result (Accepts (repeated key most V.kind) (avp_views avps.now)) }
    ensures read { IfOk result (λ each.
        each.items ≡ map V.of_value (values_of key (avp_views avps.now))) }
    ensures within { IfOk result (λ each. IfSome most (λ n. length each.items ≤ n)) }
    ensures refused { IfErr result (FaultsWith (repeated key most V.kind) (avp_views avps.now)) }
{
    if is_too_often(count_of(avps, key), most) {
        return Err(ReadFault::Refused(Refusal::base(AVP_OCCURS_TOO_MANY_TIMES)));
    }
    let mut each = Vec::new(alloc);
    for avp in avps {
        if avp.key() == key {
            each.push(V::from_value(alloc, avp.text())?)?;
        }
    }
    Ok(each)
}

impl FromValue for Text {
    ghost use Rattle.dia_base.specs.Rows.{octet_string};

    ghost kind = { octet_string };

    ghost of_value = { λ value. value };

    fn from_value(alloc: Global, value: &[u8]) -> Result<Text, ReadFault> {
        Ok(Text::read(alloc, value)?)
    }
}

/// The node that sent a request (RFC 6733, 6.3 and 6.4).
#[derive(Debug, Drop, PartialEq, Eq)]
pub struct Origin {
    /// Origin-Host.
    pub host: DiameterIdentity,
    /// Origin-Realm.
    pub realm: DiameterIdentity,
}

impl Origin {
    /// An equal origin.
    pub fn try_copy(&self) -> Result<Origin, AllocError>
        ensures { IfOk result (λ copy. copy ≡ self.now) }
    {
        let host = self.host.try_copy()?;
        let realm = self.realm.try_copy()?;
        Ok(Origin { host, realm })
    }
}

impl Exact for Origin {
    fn equal(&self, other: &Origin) -> bool {
        same(&self.host, &other.host) && same(&self.realm, &other.realm)
    }
}

/// Reads Origin-Host, and then Origin-Realm.
pub fn read_origin(alloc: Global, avps: &[Avp<'_>]) -> Result<Origin, ReadFault>
    ensures accepted { OnOk result (AcceptsAll origin_rows (avp_views avps.now)) }
    ensures host { IfOk result (λ o. value_of origin_host (avp_views avps.now) ≡ Some o.host) }
    ensures realm { IfOk result (λ o. value_of origin_realm (avp_views avps.now) ≡ Some o.realm) }
    ensures refused { IfErr result (IsFaultOf (rows_refusal origin_rows (avp_views avps.now))) }
{
    let host = required_text(alloc, avps, base_key(ORIGIN_HOST))?;
    let realm = required_text(alloc, avps, base_key(ORIGIN_REALM))?;
    Ok(Origin { host, realm })
}

/// Reads the Subscription-Id-Type.
fn read_subscription_type(avps: &[Avp<'_>]) -> Result<SubscriptionType, Refusal>
    ensures accepted { OnOk result (Accepts subscription_type_row (avp_views avps.now)) }
    ensures number { IfOk result (λ kind.
        number_at subscription_id_type (avp_views avps.now) ≡ Some (subscription_number kind)) }
    ensures refused { IfErr result (RefusesWith subscription_type_row (avp_views avps.now)) }
{
    let first = SubscriptionType::EndUserE164.number();
    let last = SubscriptionType::EndUserPrivate.number();
    let number = required_number_within(avps, base_key(SUBSCRIPTION_ID_TYPE), first, last)?;
    let Some(kind) = SubscriptionType::from_number(number) else {
        unreachable!()
    };
    Ok(kind)
}

/// Reads the value of a Subscription-Id.
#[tactic(auto, unfolding(crate::specs::Rows::row_refusal))]
fn read_subscription(alloc: Global, value: &[u8]) -> Result<Subscriber, ReadFault>
    ensures accepted { OnOk result (subscription value.now ≡ None) }
    ensures subscriber { IfOk result (λ subscriber. subscriber ≡ subscriber_of value.now) }
    ensures refused { IfErr result (IsFaultOf (subscription value.now)) }
{
    let avps = read_avps(alloc, value)?;
    let kind = read_subscription_type(&avps)?;
    let data = required_text(alloc, &avps, base_key(SUBSCRIPTION_ID_DATA))?;
    Ok(Subscriber::of(kind, data))
}

impl FromValue for Subscriber {
    ghost kind = { subscription };

    ghost of_value = { subscriber_of };

    fn from_value(alloc: Global, value: &[u8]) -> Result<Subscriber, ReadFault> {
        read_subscription(alloc, value)
    }
}

/// Reads the subscribers that a request names, each once; None where it names none.
pub fn read_subscribers(alloc: Global, avps: &[Avp<'_>]) -> Result<Option<Subscribers>, ReadFault>
    ensures accepted { OnOk result (Accepts subscription_row (avp_views avps.now)) }
    ensures subscribers { IfOk result (λ subscribers.
        subscribers ≡ subscribers_of (avp_views avps.now)) }
    ensures refused { IfErr result (FaultsWith subscription_row (avp_views avps.now)) }
{
    let key = base_key(SUBSCRIPTION_ID);
    let given = read_each::<Subscriber>(alloc, avps, key, Some(SUBSCRIBERS_LIMIT))?;
    let set = Subscribers::of(alloc, given)?;
    Ok(set)
}
