//! A site of a world, which is given messages by its number.
ghost use Rattle.pcrf_world.specs.Addressed.{HappensAt};
ghost use Rattle.site_core.specs.Frames.{NeverFull};

use crate::world::{World, WorldOutcome};
use dia_base::{Identity, MessageForm};
use pcrf_values::Ranked;
use site_core::{Reply, Request, Serve, ServeFault, Site};
use std::alloc::{AllocError, Global};

/// A world, and the number and the names of the one of its sites that serves.
#[derive(Drop)]
pub(crate) struct AddressedSite {
    world: World,
    number: usize,
    identity: Identity,
}

/// Why no site serves; the world comes back.
#[derive(Drop)]
pub(crate) enum Unaddressed {
    /// The world has no site of that number.
    NoSuchSite(World),
    /// Memory ran out.
    NoMemory(World),
}

/// A copy of a site's names, with a form of its own.
fn names_of(site: &Site, form: MessageForm) -> Result<Identity, AllocError> {
    let names = site.identity();
    let host = names.host.try_copy()?;
    let realm = names.realm.try_copy()?;
    Ok(Identity {
        host,
        realm,
        address: names.address,
        form,
        state: names.state,
    })
}

impl AddressedSite {
    /// The site of a number, which answers in this form.
    pub(crate) fn of(
        world: World,
        number: usize,
        form: MessageForm,
    ) -> Result<AddressedSite, Unaddressed> {
        let Some(site) = world.site(number) else {
            return Err(Unaddressed::NoSuchSite(world));
        };
        let Ok(identity) = names_of(site, form) else {
            return Err(Unaddressed::NoMemory(world));
        };
        Ok(AddressedSite {
            world,
            number,
            identity,
        })
    }

    /// The world as it then is.
    pub(crate) fn into_world(self) -> World {
        self.world
    }
}

impl Serve for AddressedSite {
    ghost names = { λ s. s.identity };

    ghost may_reply = { HappensAt };

    ghost is_full = { NeverFull };

    fn identity(&self) -> &Identity {
        &self.identity
    }

    fn serve(&mut self, request: Request) -> (Request, Result<Reply, ServeFault>) {
        match self.world.serve(self.number, &request) {
            Ok(WorldOutcome::Replied(reply)) => (request, Ok(reply)),
            Ok(_) => unreachable!(),
            // The world has the site, so memory ran out.
            Err(_) => (request, Err(ServeFault::NoMemory)),
        }
    }
}
