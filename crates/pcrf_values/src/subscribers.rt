//! Subscribers, each named by a type of name and the name itself, and the subscribers of a session.
ghost use Rattle.std.specs.Prelude.{◌≡◌, ◌<◌, ◌≤◌, length, IfSome, IfNone, IfOk};
ghost use Rattle.pcrf_values.specs.Numbers.{subscription_number};
ghost use Rattle.pcrf_values.specs.Subscribers.{subscriber_cmp};
ghost use Rattle.pcrf_values.specs.Ascending.{ascending};
ghost use Rattle.pcrf_values.specs.Limits.{subscribers_limit};
ghost use Rattle.pcrf_values.specs.Texts.{one_to};

use crate::limits::SUBSCRIBERS_LIMIT;
use crate::lists::{Listed, ascending_of};
use crate::order::Ranked;
use crate::text::SubscriptionData;
use std::alloc::{AllocError, Global};
use std::cmp::Ordering;
use std::hash::{Hash, Hasher};
use std::marker::Model;

/// What a subscriber is named by (Subscription-Id-Type, RFC 8506, 8.47).
#[derive(Clone, Copy, Debug, PartialEq, Eq, PartialOrd, Ord)]
pub enum SubscriptionType {
    /// A telephone number (E.164).
    EndUserE164,
    /// An international mobile subscriber identity (E.212).
    EndUserImsi,
    /// A SIP URI.
    EndUserSipUri,
    /// A network access identifier.
    EndUserNai,
    /// An identity of the operator's own.
    EndUserPrivate,
}

impl SubscriptionType {
    /// The type that has a number.
    pub fn from_number(number: u32) -> Option<SubscriptionType>
        ensures known { IfSome result (λ kind. subscription_number kind ≡ number) }
        ensures unknown { IfNone result (4 < number) }
    {
        match number {
            0 => Some(SubscriptionType::EndUserE164),
            1 => Some(SubscriptionType::EndUserImsi),
            2 => Some(SubscriptionType::EndUserSipUri),
            3 => Some(SubscriptionType::EndUserNai),
            4 => Some(SubscriptionType::EndUserPrivate),
            _ => None,
        }
    }

    /// The number of the type.
    pub fn number(self) -> u32
        ensures number { result ≡ subscription_number self }
        ensures within { result ≤ 4 }
    {
        match self {
            SubscriptionType::EndUserE164 => 0,
            SubscriptionType::EndUserImsi => 1,
            SubscriptionType::EndUserSipUri => 2,
            SubscriptionType::EndUserNai => 3,
            SubscriptionType::EndUserPrivate => 4,
        }
    }
}

/// A subscriber, which contracts see as the number of the type and the bytes of the name. Ordered by type, and then by name.
#[derive(Debug, Drop)]
pub struct Subscriber {
    kind: SubscriptionType,
    name: SubscriptionData,
}

impl Model for Subscriber {
    ghost use Rattle.std.specs.Prelude.{ℕ, List};
    ghost use Rattle.pcrf_values.specs.Numbers.{subscription_number};

    ghost Value = { ℕ × List ℕ };

    ghost view = { λ s. (subscription_number s.kind, s.name) };
}

impl Subscriber {
    /// The subscriber of a type that has a name.
    pub fn of(kind: SubscriptionType, name: SubscriptionData) -> Subscriber
        ensures { result ≡ (subscription_number kind, name) }
    {
        Subscriber { kind, name }
    }

    /// What the subscriber is named by.
    pub fn kind(&self) -> SubscriptionType
        ensures { subscription_number result ≡ self.now.0 }
    {
        self.kind
    }

    /// The name.
    pub fn name(&self) -> &SubscriptionData
        ensures { result.now ≡ self.now.1 }
    {
        &self.name
    }
}

impl PartialEq for Subscriber {
    ghost use Rattle.std.specs.Ordering.{eq_by_cmp};
    ghost use Rattle.std.specs.Cmp.{partial_equiv_from_equiv};
    ghost use Rattle.std.proofs.lemmas.Cmp.{eq_by_cmp_equiv};
    ghost use Rattle.pcrf_values.specs.laws.Values.{subscriber_total};

    ghost eq = { eq_by_cmp subscriber_cmp };

    ghost laws = { partial_equiv_from_equiv (eq_by_cmp_equiv subscriber_total) };

    fn eq(&self, other: &Subscriber) -> bool {
        self.cmp(other) == Ordering::Equal
    }
}

impl Eq for Subscriber {
    ghost use Rattle.std.proofs.lemmas.Cmp.{eq_by_cmp_equiv};
    ghost use Rattle.pcrf_values.specs.laws.Values.{subscriber_total};

    ghost laws = { eq_by_cmp_equiv subscriber_total };
}

impl Hash for Subscriber {
    ghost use Rattle.std.specs.Prelude.{[], ◌∷◌};
    ghost use Rattle.pcrf_values.specs.laws.Exact.{input_alike};
    ghost use Rattle.pcrf_values.specs.laws.Values.{subscriber_same};

    ghost hash_input = { λ s. s.1 ∷ [] };

    ghost respects_eq = { input_alike subscriber_same (λ s. s.1 ∷ []) };

    /// By the name alone: few are named alike in two ways.
    fn hash<H: Hasher>(&self, state: &mut H) {
        state.write(self.name.as_slice());
    }
}

impl PartialOrd for Subscriber {
    ghost use Rattle.std.specs.Ordering.{as_partial_cmp};
    ghost use Rattle.std.specs.Cmp.{partial_order_from_total};
    ghost use Rattle.pcrf_values.specs.laws.Values.{subscriber_total};

    ghost partial_cmp = { as_partial_cmp subscriber_cmp };

    ghost laws = { partial_order_from_total subscriber_total };

    fn partial_cmp(&self, other: &Subscriber) -> Option<Ordering> {
        Some(self.cmp(other))
    }
}

impl Ord for Subscriber {
    ghost use Rattle.std.specs.Prelude.{refl};
    ghost use Rattle.pcrf_values.specs.laws.Values.{subscriber_total};

    ghost cmp = { subscriber_cmp };

    ghost total = { subscriber_total };

    ghost matches_partial_cmp = { λ _ _. refl };

    ghost matches_eq = { λ _ _. refl };

    fn cmp(&self, other: &Subscriber) -> Ordering {
        let kinds = self.kind.number().cmp(&other.kind.number());
        kinds.then(self.name.cmp(&other.name))
    }
}

impl Ranked for Subscriber {
    ghost use Rattle.pcrf_values.specs.laws.Values.{subscriber_same};

    ghost same = { subscriber_same };

    fn try_copy(&self) -> Result<Subscriber, AllocError> {
        Ok(Subscriber {
            kind: self.kind,
            name: self.name.try_copy()?,
        })
    }
}

/// A set of 1 to 16 subscribers, which contracts see as its one ascending list. Ordered as these lists, member by member, a prefix first.
#[derive(Debug, Drop, PartialEq, Eq, PartialOrd, Ord)]
pub struct Subscribers {
    list: Listed<Subscriber>,
}

impl Model for Subscribers {
    ghost use Rattle.std.specs.Prelude.{◌≡◌, ℕ, List, ◌<◌, ◌≤◌, length};
    ghost use Rattle.pcrf_values.specs.Ascending.{ascending};
    ghost use Rattle.pcrf_values.specs.Limits.{subscribers_limit};
    ghost use Rattle.pcrf_values.specs.Subscribers.{subscriber_cmp};

    ghost Value = { List (ℕ × List ℕ) };

    ghost view = { λ s. s.list };

    ghost inverse = { λ list. record { list = list } };

    ghost invariant = { λ s. (0 < length s.list) × (length s.list ≤ subscribers_limit) × (ascending subscriber_cmp s.list ≡ s.list) };
}

impl Subscribers {
    /// The set of these subscribers; `None` where there are none or more than 16 different ones.
    pub fn of(alloc: Global, given: Vec<Subscriber>) -> Result<Option<Subscribers>, AllocError>
        ensures { IfOk result (λ set.
            set ≡ one_to subscribers_limit (ascending subscriber_cmp given.items)) }
    {
        let members = ascending_of(alloc, given)?;
        if members.is_empty() || members.len() > SUBSCRIBERS_LIMIT {
            return Ok(None);
        }
        Ok(Some(Subscribers {
            list: Listed::of(members),
        }))
    }

    /// The subscribers, in ascending order.
    pub fn as_slice(&self) -> &[Subscriber]
        ensures members { result.now ≡ self.now }
        ensures not_empty { 0 < length self.now }
        ensures within { length self.now ≤ subscribers_limit }
        ensures ascending { ascending subscriber_cmp self.now ≡ self.now }
    {
        self.list.as_slice()
    }

    /// The subscribers in ascending order, out of the set.
    pub fn into_vec(self) -> Vec<Subscriber>
        ensures { result.items ≡ self }
    {
        self.list.into_vec()
    }
}

impl Ranked for Subscribers {
    ghost use Rattle.pcrf_values.specs.laws.Exact.{list_same};
    ghost use Rattle.pcrf_values.specs.laws.Values.{subscriber_same};

    ghost same = { list_same subscriber_same };

    fn try_copy(&self) -> Result<Subscribers, AllocError> {
        Ok(Subscribers {
            list: self.list.try_copy()?,
        })
    }
}
