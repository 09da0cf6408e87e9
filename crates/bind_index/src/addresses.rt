//! Session-Ids by address, where an address is compared as one number.
ghost use Rattle.std.specs.Prelude.{◌≡◌, [], OnOk, OnErr};
ghost use Rattle.std.specs.Option.{option_copied};
ghost use Rattle.std.specs.declared.net.ipv4_addr.Ipv4Addr.{Ipv4Addr as Address};
ghost use Rattle.bind_index.specs.Lists.{ids_at, ids_or_none, with_id, without_id};
ghost use Rattle.bind_index.specs.Index.{address_cmp};

use crate::lists::{SessionIds, SessionLists};
use pcrf_values::{HashSeed, Ranked};
use std::alloc::{AllocError, Global};
use std::cmp::Ordering;
use std::hash::{Hash, Hasher};
use std::marker::Model;
use std::net::Ipv4Addr;

/// An address as the number that its octets spell, the greatest first; which contracts see as the address.
#[derive(Drop)]
struct AddressNumber {
    number: u32,
}

impl Model for AddressNumber {
    ghost use Rattle.std.specs.Prelude.{◌<◌, ◌^◌};
    ghost use Rattle.std.specs.declared.net.ipv4_addr.Ipv4Addr.{Ipv4Addr};
    ghost use Rattle.bind_index.specs.Numbers.{address_of};

    ghost Value = { Ipv4Addr };

    ghost view = { λ a. address_of a.number };

    ghost invariant = { λ a. a.number < 2 ^ 32 };
}

impl AddressNumber {
    /// That of an address.
    fn of(address: &Ipv4Addr) -> AddressNumber
        ensures { result ≡ address.now }
    {
        let octets = address.octets();
        AddressNumber {
            number: u32::from_be_bytes(octets),
        }
    }
}

impl PartialEq for AddressNumber {
    ghost use Rattle.std.specs.Ordering.{eq_by_cmp};
    ghost use Rattle.std.specs.Cmp.{partial_equiv_from_equiv};
    ghost use Rattle.std.proofs.lemmas.Cmp.{eq_by_cmp_equiv};
    ghost use Rattle.bind_index.specs.Index.{address_cmp};
    ghost use Rattle.bind_index.specs.Numbers.{address_total};

    ghost eq = { eq_by_cmp address_cmp };

    ghost laws = { partial_equiv_from_equiv (eq_by_cmp_equiv address_total) };

    fn eq(&self, other: &AddressNumber) -> bool {
        self.cmp(other) == Ordering::Equal
    }
}

impl Eq for AddressNumber {
    ghost use Rattle.std.proofs.lemmas.Cmp.{eq_by_cmp_equiv};
    ghost use Rattle.bind_index.specs.Numbers.{address_total};

    ghost laws = { eq_by_cmp_equiv address_total };
}

impl Hash for AddressNumber {
    ghost use Rattle.std.specs.Prelude.{[], ◌∷◌};
    ghost use Rattle.std.specs.Net.Addr.{ipv4_octets};
    ghost use Rattle.pcrf_values.specs.laws.Addresses.{address_same};
    ghost use Rattle.pcrf_values.specs.laws.Exact.{input_alike};

    ghost hash_input = { λ a. ipv4_octets a ∷ [] };

    ghost respects_eq = { input_alike address_same (λ a. ipv4_octets a ∷ []) };

    fn hash<H: Hasher>(&self, state: &mut H) {
        state.write(&self.number.to_be_bytes());
    }
}

impl PartialOrd for AddressNumber {
    ghost use Rattle.std.specs.Ordering.{as_partial_cmp};
    ghost use Rattle.std.specs.Cmp.{partial_order_from_total};
    ghost use Rattle.bind_index.specs.Index.{address_cmp};
    ghost use Rattle.bind_index.specs.Numbers.{address_total};

    ghost partial_cmp = { as_partial_cmp address_cmp };

    ghost laws = { partial_order_from_total address_total };

    fn partial_cmp(&self, other: &AddressNumber) -> Option<Ordering> {
        Some(self.cmp(other))
    }
}

impl Ord for AddressNumber {
    ghost use Rattle.std.specs.Prelude.{refl};
    ghost use Rattle.bind_index.specs.Index.{address_cmp};
    ghost use Rattle.bind_index.specs.Numbers.{address_total};

    ghost cmp = { address_cmp };

    ghost total = { address_total };

    ghost matches_partial_cmp = { λ _ _. refl };

    ghost matches_eq = { λ _ _. refl };

    fn cmp(&self, other: &AddressNumber) -> Ordering {
        self.number.cmp(&other.number)
    }
}

impl Ranked for AddressNumber {
    ghost use Rattle.pcrf_values.specs.laws.Addresses.{address_same};

    ghost same = { address_same };

    fn try_copy(&self) -> Result<AddressNumber, AllocError> {
        Ok(AddressNumber {
            number: self.number,
        })
    }
}

/// Session-Ids under addresses, which contracts see as the list of addresses with their ascending lists. An address
/// is found by its hash, and a Session-Id under it in the logarithm of their number there.
#[derive(Drop)]
pub(crate) struct AddressLists<S: Ranked> {
    lists: SessionLists<AddressNumber, S>,
}

impl<S: Ranked> Model for AddressLists<S> {
    ghost use Rattle.std.specs.Prelude.{List};
    ghost use Rattle.std.specs.declared.net.ipv4_addr.Ipv4Addr.{Ipv4Addr};

    ghost Value = { List (Ipv4Addr × List S) };

    ghost view = { λ l. l.lists };
}

impl<S: Ranked> AddressLists<S> {
    /// No list. Hashes begin with this seed.
    pub(crate) fn seeded(alloc: Global, seed: HashSeed) -> AddressLists<S>
        ensures { (a : Address) → ids_at address_cmp result a ≡ [] }
    {
        AddressLists {
            lists: SessionLists::seeded(alloc, seed),
        }
    }

    /// The Session-Ids under an address, if there are some.
    pub(crate) fn at(&self, address: &Ipv4Addr) -> Option<&SessionIds<S>>
        ensures { ids_or_none (option_copied result) ≡ ids_at address_cmp self.now address.now }
    {
        self.lists.at(&AddressNumber::of(address))
    }

    /// Lists a session under an address; a refusal changes nothing.
    pub(crate) fn add(&mut self, address: &Ipv4Addr, id: &S) -> Result<(), AllocError>
        ensures added { OnOk result ((a : Address) → ids_at address_cmp self.new a
            ≡ with_id address_cmp S.cmp self.old address.now id.now a) }
        ensures unchanged { OnErr result ((a : Address) →
            ids_at address_cmp self.new a ≡ ids_at address_cmp self.old a) }
    {
        self.lists.add(&AddressNumber::of(address), id)
    }

    /// Takes a session out of the list under an address, where it is there.
    pub(crate) fn remove(&mut self, address: &Ipv4Addr, id: &S)
        ensures { (a : Address) → ids_at address_cmp self.new a
            ≡ without_id address_cmp S.cmp self.old address.now id.now a }
    {
        self.lists.remove(&AddressNumber::of(address), id);
    }
}
