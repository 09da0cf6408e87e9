//! Numbers within a range, and values that stand for numbers: those of Enumerated AVPs, as facts have them, what a credit control
//! request is for, and what a flow is used for.
ghost use Rattle.std.specs.Prelude.{◌≡◌, ◌<◌, ◌≤◌, ℕ, option_map, IfSome, IfNone};
ghost use Rattle.pcrf_values.specs.Numbers.{number_within, request_kind_number, request_kind_of, flow_usage_number, flow_usage_of};
ghost use Rattle.pcrf_values.specs.declared.numbers.FlowUsage.TheVariants as usage;

use crate::order::Ranked;
use std::alloc::AllocError;
use std::cmp::Ordering;
use std::fmt::Debug;
use std::marker::Model;

/// A number from `LEAST` to `MOST`, which contracts see as that number.
#[derive(Clone, Copy, Debug, PartialEq, Eq, PartialOrd, Ord)]
pub struct BoundedNumber<const LEAST: u32, const MOST: u32> {
    number: u32,
}

/// A standardised quality of service class (QoS-Class-Identifier, TS 29.212, 5.3.17).
pub type QosClass = BoundedNumber<1, 9>;

/// The priority of allocation and retention, 1 the highest (Priority-Level, TS 29.212, 5.3.45).
pub type PriorityLevel = BoundedNumber<1, 15>;

impl<const LEAST: u32, const MOST: u32> Model for BoundedNumber<LEAST, MOST> {
    ghost use Rattle.std.specs.Prelude.{ℕ, ◌≤◌};

    ghost Value = { ℕ };

    ghost view = { λ b. b.number };

    ghost inverse = { λ number. record { number = number } };

    ghost invariant = { λ b. (LEAST ≤ b.number) × (b.number ≤ MOST) };
}

impl<const LEAST: u32, const MOST: u32> BoundedNumber<LEAST, MOST> {
    /// The number, where it is within the range.
    pub fn of(number: u32) -> Option<BoundedNumber<LEAST, MOST>>
        ensures { result ≡ number_within LEAST MOST number }
    {
        if number < LEAST || number > MOST {
            return None;
        }
        Some(BoundedNumber { number })
    }

    /// The number.
    pub fn get(self) -> u32
        ensures number { result ≡ self.entry }
        ensures least { LEAST ≤ result }
        ensures most { result ≤ MOST }
    {
        self.number
    }
}

impl<const LEAST: u32, const MOST: u32> Ranked for BoundedNumber<LEAST, MOST> {
    ghost use Rattle.pcrf_values.specs.laws.Exact.{nat_same};

    ghost same = { nat_same };

    fn try_copy(&self) -> Result<BoundedNumber<LEAST, MOST>, AllocError> {
        Ok(*self)
    }
}

/// The values that an AVP of type Enumerated may have (RFC 6733, 4.3.1), each with its number.
pub trait Enumeration: Copy + Debug {
    ghost LEAST: { ℕ };

    ghost MOST: { ℕ };

    ghost number_of: { Self → ℕ };

    ghost value_of: { ℕ → Self };

    ghost of_its_number: { (x : Self) → value_of (number_of x) ≡ x };

    /// The least of their numbers.
    const LEAST: u32;
    /// The greatest of their numbers. All from the least on are those of values.
    const MOST: u32;

    /// The value that has a number.
    fn from_number(number: u32) -> Option<Self>
        ensures { option_map Self.number_of result ≡ number_within Self.LEAST Self.MOST number };

    /// The number of the value.
    fn number(self) -> u32
        ensures number { result ≡ Self.number_of self }
        ensures least { Self.LEAST ≤ result }
        ensures most { result ≤ Self.MOST };
}

/// A value of an Enumerated AVP, which contracts see as its number. Ordered by these numbers.
#[derive(Copy, Debug)]
pub struct Enumerated<E: Enumeration> {
    value: E,
}

impl<E: Enumeration> Model for Enumerated<E> {
    ghost use Rattle.std.specs.Prelude.{ℕ};

    ghost Value = { ℕ };

    ghost view = { λ e. E.number_of e.value };

    ghost inverse = { λ number. record { value = E.value_of number } };

    ghost inverse_ok = { λ a _. λ i. record { value = E.of_its_number a.value i } };
}

impl<E: Enumeration> Enumerated<E> {
    /// The value.
    pub fn of(value: E) -> Enumerated<E>
        ensures { result ≡ E.number_of value }
    {
        Enumerated { value }
    }

    /// The value that has a number.
    pub fn from_number(number: u32) -> Option<Enumerated<E>>
        ensures { result ≡ number_within E.LEAST E.MOST number }
    {
        let value = E::from_number(number)?;
        Some(Enumerated { value })
    }

    /// The value.
    pub fn value(self) -> E
        ensures { E.number_of result ≡ self }
    {
        self.value
    }

    /// Its number.
    pub fn number(self) -> u32
        ensures number { result ≡ self }
        ensures least { E.LEAST ≤ result }
        ensures most { result ≤ E.MOST }
    {
        self.value.number()
    }
}

impl<E: Enumeration> Clone for Enumerated<E> {
    ghost use Rattle.std.specs.Prelude.{◌≡◌};

    ghost is_clone = { λ x y. y ≡ x };

    fn clone(&self) -> Result<Enumerated<E>, AllocError> {
        Ok(*self)
    }
}

impl<E: Enumeration> PartialEq for Enumerated<E> {
    ghost use Rattle.std.specs.Ordering.{eq_by_cmp, nat_cmp};
    ghost use Rattle.std.specs.Cmp.{partial_equiv_from_equiv};
    ghost use Rattle.std.proofs.lemmas.Cmp.{eq_by_cmp_equiv, nat_cmp_total};

    ghost eq = { eq_by_cmp nat_cmp };

    ghost laws = { partial_equiv_from_equiv (eq_by_cmp_equiv nat_cmp_total) };

    fn eq(&self, other: &Enumerated<E>) -> bool {
        self.cmp(other) == Ordering::Equal
    }
}

impl<E: Enumeration> Eq for Enumerated<E> {
    ghost use Rattle.std.proofs.lemmas.Cmp.{eq_by_cmp_equiv, nat_cmp_total};

    ghost laws = { eq_by_cmp_equiv nat_cmp_total };
}

impl<E: Enumeration> PartialOrd for Enumerated<E> {
    ghost use Rattle.std.specs.Ordering.{as_partial_cmp, nat_cmp};
    ghost use Rattle.std.specs.Cmp.{partial_order_from_total};
    ghost use Rattle.std.proofs.lemmas.Cmp.{nat_cmp_total};

    ghost partial_cmp = { as_partial_cmp nat_cmp };

    ghost laws = { partial_order_from_total nat_cmp_total };

    fn partial_cmp(&self, other: &Enumerated<E>) -> Option<Ordering> {
        Some(self.cmp(other))
    }
}

impl<E: Enumeration> Ord for Enumerated<E> {
    ghost use Rattle.std.specs.Prelude.{refl};
    ghost use Rattle.std.specs.Ordering.{nat_cmp};
    ghost use Rattle.std.proofs.lemmas.Cmp.{nat_cmp_total};

    ghost cmp = { nat_cmp };

    ghost total = { nat_cmp_total };

    ghost matches_partial_cmp = { λ _ _. refl };

    ghost matches_eq = { λ _ _. refl };

    fn cmp(&self, other: &Enumerated<E>) -> Ordering {
        self.number().cmp(&other.number())
    }
}

impl<E: Enumeration> Ranked for Enumerated<E> {
    ghost use Rattle.pcrf_values.specs.laws.Exact.{nat_same};

    ghost same = { nat_same };

    fn try_copy(&self) -> Result<Enumerated<E>, AllocError> {
        Ok(*self)
    }
}

/// What a credit control request is for (CC-Request-Type, RFC 8506, 8.3). Gx has no event requests.
#[derive(Clone, Copy, Debug, PartialEq, Eq)]
pub enum RequestKind {
    /// INITIAL_REQUEST: the gateway opens a session.
    Initial,
    /// UPDATE_REQUEST: the gateway tells of a change of the session.
    Update,
    /// TERMINATION_REQUEST: the gateway ends the session.
    Termination,
}

impl RequestKind {
    /// The kind that has a number.
    pub fn from_number(number: u32) -> Option<RequestKind>
        ensures kind { result ≡ request_kind_of number }
        ensures unknown { IfNone result (request_kind_number RequestKind.Initial ≤ number →
            request_kind_number RequestKind.Termination < number) }
    {
        match number {
            1 => Some(RequestKind::Initial),
            2 => Some(RequestKind::Update),
            3 => Some(RequestKind::Termination),
            _ => None,
        }
    }

    /// The number of the kind.
    pub fn number(self) -> u32
        ensures { result ≡ request_kind_number self }
    {
        match self {
            RequestKind::Initial => 1,
            RequestKind::Update => 2,
            RequestKind::Termination => 3,
        }
    }
}

/// What a flow is used for (Flow-Usage, TS 29.214, 5.3.12).
#[derive(Clone, Copy, Debug, PartialEq, Eq)]
pub enum FlowUsage {
    /// Nothing is said.
    NoInformation,
    /// The control of a stream of media (RTCP).
    Rtcp,
    /// Signalling between the subscriber and the application function.
    AfSignalling,
}

impl FlowUsage {
    /// The usage that has a number.
    pub fn from_number(number: u32) -> Option<FlowUsage>
        ensures known { IfSome result (λ usage. flow_usage_number usage ≡ number) }
        ensures unknown { IfNone result (flow_usage_number usage.AfSignalling < number) }
    {
        match number {
            0 => Some(FlowUsage::NoInformation),
            1 => Some(FlowUsage::Rtcp),
            2 => Some(FlowUsage::AfSignalling),
            _ => None,
        }
    }

    /// The number of the usage.
    pub fn number(self) -> u32
        ensures { result ≡ flow_usage_number self }
    {
        match self {
            FlowUsage::NoInformation => 0,
            FlowUsage::Rtcp => 1,
            FlowUsage::AfSignalling => 2,
        }
    }
}

impl Enumeration for FlowUsage {
    ghost use Rattle.pcrf_values.specs.Numbers.{flow_usage_number, flow_usage_of};
    ghost use Rattle.pcrf_values.specs.laws.Numbers.{usage_of_its_number};

    const LEAST: u32 = 0;

    const MOST: u32 = 2;

    ghost LEAST = { 0 };

    ghost MOST = { 2 };

    ghost number_of = { flow_usage_number };

    ghost value_of = { flow_usage_of };

    ghost of_its_number = { usage_of_its_number };

    fn from_number(number: u32) -> Option<FlowUsage> {
        FlowUsage::from_number(number)
    }

    fn number(self) -> u32 {
        FlowUsage::number(self)
    }
}
