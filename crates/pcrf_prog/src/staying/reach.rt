//! How gateways are reached by who exchanges letters with peer sites.
use crate::staying::journal::Journal;
use crate::staying::machine::Machine;
use log::Log;
use pcrf_serve::{Gateways, Pushes, SharedSite};
use std::alloc::{AllocError, Global};
use std::sync::Wait;
use std::thread::Threads;
use watched_links::Posting;

/// How the gateways of a server are reached.
#[derive(Clone, Copy)]
pub struct Reach<'a, 'r, M: Machine, G: Log> {
    pub rt: &'r M,
    pub gateways: &'a Gateways<Posting<'r, M>, Journal<'r, M, G>>,
}

impl<M: Machine, G: Log> Pushes for Reach<'_, '_, M, G> {
    fn push_all<R: Threads + Wait + Sync, S: SharedSite>(
        &self,
        rt: &R,
        alloc: Global,
        site: &S,
        seat: &mut S::Seat,
    ) -> Result<(), AllocError> {
        self.gateways.push_all(rt, alloc, site, seat)
    }
}
