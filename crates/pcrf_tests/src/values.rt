//! Texts, names and subscribers.
use dia_base::{Identity, MessageForm, Origin};
use pcrf_values::{BoundedText, Filters, Subscriber, SubscriptionType};
use std::alloc::{AllocError, Global};
use std::net::Ipv4Addr;
use std::process::Abort;

/// A text.
pub fn text<const MOST: usize>(rt: &impl Abort, alloc: Global, bytes: &[u8]) -> BoundedText<MOST> {
    let read = BoundedText::read(alloc, bytes).expect(rt, "memory");
    read.expect(rt, "a short text")
}

/// The names of a peer of the realm `r`.
pub fn origin(rt: &impl Abort, alloc: Global, host: &[u8]) -> Origin {
    Origin {
        host: text(rt, alloc, host),
        realm: text(rt, alloc, b"r"),
    }
}

/// The names of the site `s0` of that realm, at this machine's own address.
pub fn identity(rt: &impl Abort, alloc: Global) -> Identity {
    let Origin { host, realm } = origin(rt, alloc, b"s0");
    Identity {
        host,
        realm,
        address: Ipv4Addr::LOCALHOST,
        form: MessageForm::Own,
        state: None,
    }
}

/// One of few subscribers; the first is the one of a gateway's request.
pub fn subscriber(rt: &impl Abort, alloc: Global, number: u8) -> Subscriber {
    let name = format!(in alloc; "00101000000000{}", number.saturating_add(1));
    let name = name.expect(rt, "memory");
    let data = text(rt, alloc, name.as_bytes());
    drop(name);
    Subscriber::of(SubscriptionType::EndUserImsi, data)
}

/// The packets of a flow: all that come from the network.
pub fn filters(rt: &impl Abort, alloc: Global) -> Filters {
    let mut filters = Vec::new(alloc);
    filters
        .push(text(rt, alloc, b"permit out ip from any to any"))
        .expect(rt, "memory");
    Filters::of(filters).expect(rt, "one filter")
}

/// The gateway `gw`, if there is memory.
pub fn known_gateway(alloc: Global) -> Result<Origin, AllocError> {
    let (Some(host), Some(realm)) = (
        BoundedText::read(alloc, b"gw")?,
        BoundedText::read(alloc, b"r")?,
    ) else {
        return Err(AllocError);
    };
    Ok(Origin { host, realm })
}
