//! Facts of one kind of session, by their types; and what facts say of sessions of both kinds: where each of these facts stands,
//! and how two of one field compare.
ghost use Rattle.std.specs.Prelude.{◌≡◌, [], IfOk};
ghost use Rattle.std.specs.Option.{option_cmp};
ghost use Rattle.std.specs.Ordering.{is_eq};
ghost use Rattle.pcrf_values.specs.Places.{Component, Flow, position_cmp, removed_position};
ghost use Rattle.pcrf_values.specs.Values.{entry_cmp, value_cmp};
ghost use Rattle.pcrf_values.specs.Facts.{Fact, End, Aborted, position, entry, fact_cmp};
ghost use Rattle.lattice_core.specs.Beneath.{beneath_of};
ghost use Rattle.lattice_core.specs.Orders.{is_field, parts_cmp, fields_cmp};
ghost use Rattle.pcrf_values.specs.declared.tag.Tag.{Tag};
ghost use Rattle.lattice_core.specs.SessionFacts.{session_fact};
ghost use Rattle.lattice_core.specs.SessionValues.{session_number, session_value};

use pcrf_values::{
    Apn, DiameterIdentity, Enumerated, Enumeration, Ipv6Prefix, Ranked, Subscribers,
};
use std::alloc::AllocError;
use std::cmp::Ordering;
use std::marker::Model;
use std::net::Ipv4Addr;

/// The kinds of facts, in the order in which they stand.
const END: u8 = 1;

pub const SESSION_FIELD: u8 = 2;

const COMPONENT_REMOVED: u8 = 3;

const FLOW_REMOVED: u8 = 4;

pub const COMPONENT_FIELD: u8 = 5;

pub const FLOW_FIELD: u8 = 6;

pub const RULE_NAME: u8 = 7;

const ABORTED: u8 = 8;

/// Where a fact stands among those of its session: by the kind of fact, component, flow, field and name.
#[derive(Drop)]
pub struct Position<'a> {
    pub code: u8,
    pub component: u32,
    pub flow: u32,
    pub field: u8,
    pub name: &'a [u8],
}

impl<'a> Model for Position<'a> {
    ghost use Rattle.pcrf_values.specs.Places as places;

    ghost Value = { places.Position };

    ghost view = { λ p. (p.code, (p.component, (p.flow, (p.field, p.name.now)))) };
}

impl<'a> Position<'a> {
    /// Positions in the order in which the facts of a session stand.
    pub fn compare(&self, other: &Position<'_>) -> Ordering
        ensures { result ≡ position_cmp self.now other.now }
    {
        match self.code.cmp(&other.code) {
            Ordering::Equal => self.compare_parts(other),
            Ordering::Less => Ordering::Less,
            Ordering::Greater => Ordering::Greater,
        }
    }

    /// Both are one position. What tells most positions apart is looked at first.
    pub(crate) fn is(&self, other: &Position<'_>) -> bool
        ensures { result ≡ is_eq (position_cmp self.now other.now) }
    {
        self.field == other.field
            && self.code == other.code
            && self.component == other.component
            && self.flow == other.flow
            && (self.name.is_empty() && other.name.is_empty() || self.name.cmp(other.name).is_eq())
    }

    /// Positions of one kind of facts, the same way.
    fn compare_parts(&self, other: &Position<'_>) -> Ordering
        ensures { result ≡ parts_cmp self.now.1 other.now.1 }
    {
        match self.component.cmp(&other.component) {
            Ordering::Equal => self.compare_fields(other),
            Ordering::Less => Ordering::Less,
            Ordering::Greater => Ordering::Greater,
        }
    }

    /// Positions in one component, the same way.
    fn compare_fields(&self, other: &Position<'_>) -> Ordering
        ensures { result ≡ fields_cmp self.now.1.1 other.now.1.1 }
    {
        match self.flow.cmp(&other.flow) {
            Ordering::Equal => match self.field.cmp(&other.field) {
                Ordering::Equal => self.name.cmp(other.name),
                Ordering::Less => Ordering::Less,
                Ordering::Greater => Ordering::Greater,
            },
            Ordering::Less => Ordering::Less,
            Ordering::Greater => Ordering::Greater,
        }
    }

    /// The position of these parts, without a name.
    pub fn of(code: u8, component: u32, flow: u32, field: u8) -> Position<'a>
        ensures { result ≡ (code, (component, (flow, (field, [])))) }
    {
        Position {
            code,
            component,
            flow,
            field,
            name: &[],
        }
    }

    /// Where the end stands.
    pub fn of_end() -> Position<'a>
        ensures { result ≡ position End }
    {
        Position::of(END, 0, 0, 0)
    }

    /// Where it stands that the session was aborted.
    pub fn of_abort() -> Position<'a>
        ensures { result ≡ position Aborted }
    {
        Position::of(ABORTED, 0, 0, 0)
    }

    /// Where the removal of a component stands.
    pub fn of_component_removal(component: u32) -> Position<'a>
        ensures { result ≡ removed_position (Component component) }
    {
        Position::of(COMPONENT_REMOVED, component, 0, 0)
    }

    /// Where the removal of a flow stands.
    pub fn of_flow_removal(component: u32, flow: u32) -> Position<'a>
        ensures { result ≡ removed_position (Flow component flow) }
    {
        Position::of(FLOW_REMOVED, component, flow, 0)
    }
}

/// What of its session a fact stands beneath: it falls with that.
#[derive(Clone, Copy)]
pub enum Beneath {
    /// The end stands alone.
    Nothing,
    /// The session itself.
    Session,
    /// A component.
    Component(u32),
    /// A flow of a component.
    Flow(u32, u32),
}

/// A fact of sessions of one kind.
pub trait TypedFact: Drop + Sized {
    /// The fact, as the definitions have it.
    ghost fact: { Self → Fact };

    /// Where the fact stands among those of its session.
    fn position(&self) -> Position<'_>
        ensures { result ≡ position (fact self.now) };

    /// The fact is a field: it removes nothing.
    fn is_field(&self) -> bool
        ensures { result ≡ is_field (fact self.now) };

    /// What the fact falls with.
    fn beneath(&self) -> Beneath
        ensures { result ≡ beneath_of (fact self.now) };

    /// How two facts at one position compare: by tag, and then by value.
    fn compare_entry(&self, other: &Self) -> Ordering
        requires { position (fact self.now) ≡ position (fact other.now) }
        ensures { result ≡ option_cmp entry_cmp (entry (fact self.now)) (entry (fact other.now)) };

    /// An equal fact.
    fn try_copy(&self) -> Result<Self, AllocError>
        ensures { IfOk result (λ r. r ≡ self.now) };
}

/// A fact where it is, as the fact.
impl<'a, F: TypedFact> TypedFact for &'a F {
    ghost fact = { λ f. F.fact f.now };

    fn position(&self) -> Position<'_> {
        F::position(*self)
    }

    fn is_field(&self) -> bool {
        F::is_field(*self)
    }

    fn beneath(&self) -> Beneath {
        F::beneath(*self)
    }

    fn compare_entry(&self, other: &&'a F) -> Ordering {
        F::compare_entry(*self, *other)
    }

    fn try_copy(&self) -> Result<&'a F, AllocError> {
        Ok(*self)
    }
}

/// Facts in their order.
pub(crate) fn compare<F: TypedFact>(one: &F, other: &F) -> Ordering
    ensures { result ≡ fact_cmp (F.fact one.now) (F.fact other.now) }
{
    match one.position().compare(&other.position()) {
        Ordering::Equal => one.compare_entry(other),
        Ordering::Less => Ordering::Less,
        Ordering::Greater => Ordering::Greater,
    }
}

/// What a fact says of a session. `L` is the number of the type of its last request.
#[derive(Debug, Drop)]
pub enum SessionValue<L> {
    /// Framed-IP-Address (RFC 7155, 4.4.10.5.1).
    Address(Ipv4Addr),
    /// Called-Station-Id (RFC 7155, 4.2.5).
    Apn(Apn),
    /// Subscription-Id (RFC 8506, 8.46).
    Subscribers(Subscribers),
    /// Origin-Host of the client (RFC 6733, 6.3).
    Host(DiameterIdentity),
    /// Origin-Realm of the client (RFC 6733, 6.4).
    Realm(DiameterIdentity),
    /// CC-Request-Type of the last request (RFC 8506, 8.3), 0 for Rx.
    Last(L),
    /// Framed-IPv6-Prefix (RFC 7155, 4.4.10.5.6).
    Prefix(Ipv6Prefix),
}

impl<L: Ranked> SessionValue<L> {
    /// An equal value.
    pub fn try_copy(&self) -> Result<SessionValue<L>, AllocError>
        ensures { IfOk result (λ r. r ≡ self.now) }
    {
        match self {
            SessionValue::Address(address) => Ok(SessionValue::Address(*address)),
            SessionValue::Apn(apn) => Ok(SessionValue::Apn(apn.try_copy()?)),
            SessionValue::Subscribers(ids) => Ok(SessionValue::Subscribers(ids.try_copy()?)),
            SessionValue::Host(host) => Ok(SessionValue::Host(host.try_copy()?)),
            SessionValue::Realm(realm) => Ok(SessionValue::Realm(realm.try_copy()?)),
            SessionValue::Last(last) => Ok(SessionValue::Last(last.try_copy()?)),
            SessionValue::Prefix(prefix) => Ok(SessionValue::Prefix(*prefix)),
        }
    }
}

/// The number of the field.
fn number_of<E: Enumeration>(value: &SessionValue<Enumerated<E>>) -> u8
    ensures { result ≡ session_number value.now }
{
    match value {
        SessionValue::Address(_) => 1,
        SessionValue::Apn(_) => 2,
        SessionValue::Subscribers(_) => 3,
        SessionValue::Host(_) => 4,
        SessionValue::Realm(_) => 5,
        SessionValue::Last(_) => 6,
        SessionValue::Prefix(_) => 7,
    }
}

/// Where the field of that number stands.
pub fn position_of_field<'a>(field: u8) -> Position<'a>
    ensures { result ≡ (2, (0, (0, (field, [])))) }
{
    Position::of(SESSION_FIELD, 0, 0, field)
}

/// Where a field of a session stands.
pub fn session_position<'a, E: Enumeration>(value: &SessionValue<Enumerated<E>>) -> Position<'a>
    ensures { (t : Tag) → result ≡ position (session_fact t value.now) }
{
    position_of_field(number_of(value))
}

/// How two values of one field compare.
pub fn compare_values<E: Enumeration>(
    one: &SessionValue<Enumerated<E>>,
    other: &SessionValue<Enumerated<E>>,
) -> Ordering
    requires { session_number one.now ≡ session_number other.now }
    ensures { result ≡ value_cmp (session_value one.now) (session_value other.now) }
{
    match (one, other) {
        (SessionValue::Address(one), SessionValue::Address(other)) => one.cmp(other),
        (SessionValue::Apn(one), SessionValue::Apn(other)) => one.cmp(other),
        (SessionValue::Subscribers(one), SessionValue::Subscribers(other)) => one.cmp(other),
        (SessionValue::Host(one), SessionValue::Host(other)) => one.cmp(other),
        (SessionValue::Realm(one), SessionValue::Realm(other)) => one.cmp(other),
        (SessionValue::Last(one), SessionValue::Last(other)) => one.cmp(other),
        (SessionValue::Prefix(one), SessionValue::Prefix(other)) => one.cmp(other),
        _ => Ordering::Equal,
    }
}
