//! What is found at a site of one session.
ghost use Rattle.std.specs.Prelude.{◌≡◌, IfOk, IfSome, option_map};
ghost use Rattle.pcrf_model.specs.Bindings.{bind};
ghost use Rattle.pcrf_model.specs.Sessions.{gx, af};
ghost use Rattle.site_looks.specs.Looks.{IsCallFound, IsGatewayFound, shown};

use af_records::AfRec;
use bind_index::{SessionIds, network_of};
use gx_records::GxRec;
use lattice_core::Join;
use pcrf_values::{AfSid, GxSid, Ranked, Rule};
use site_lock::Site;
use std::alloc::AllocError;

/// What a site knows of a gateway's session.
#[derive(Drop)]
pub struct GatewayFound {
    /// What it holds of it.
    pub known: GxRec,
    /// The PCC rules that it has.
    pub rules: Vec<Rule>,
}

/// Why no gateway's session carries the media of an application function's.
#[derive(Clone, Copy, Debug, PartialEq, Eq)]
pub enum Unbound {
    /// It is ended, or the site knows only some facts of it.
    NotLive,
    /// No live session of a gateway stands where its user is reached.
    NobodyThere,
    /// Those that stand there have another access point, another subscriber or another prefix.
    OthersThere,
}

/// What a site knows of an application function's session.
#[derive(Drop)]
pub struct CallFound {
    /// What it holds of it.
    pub known: AfRec,
    /// The gateway's session that carries its media, if one does. Nothing is known of that while the site has no index of its sessions, as behind
    /// an event for which memory was refused.
    pub binding: Option<Option<GxSid>>,
    /// Why none does.
    pub unbound: Option<Unbound>,
}

/// What a site knows of the gateway's session of that Session-Id, if anything.
pub fn gateway_session(site: &Site, id: &GxSid) -> Result<Option<GatewayFound>, AllocError>
    ensures { IfOk result (IsGatewayFound site.now id.now) }
{
    let Some(known) = site.sessions().gx(id) else {
        return Ok(None);
    };
    let known = known.try_copy()?;
    let rules = site.rules_of(id)?;
    Ok(Some(GatewayFound { known, rules }))
}

/// The gateway's session that carries the media of that one, if one does; nothing where the site has no index.
fn binding_of(site: &Site, id: &AfSid) -> Result<Option<Option<GxSid>>, AllocError>
    ensures { IfOk result (λ binding. IfSome binding (λ bound.
        option_map gx bound ≡ bind (shown site.now) (af id.now))) }
{
    let Some(index) = site.index() else {
        return Ok(None);
    };
    match index.bind(site.sessions(), id) {
        Some(gateway) => Ok(Some(Some(gateway.try_copy()?))),
        None => Ok(Some(None)),
    }
}

/// Whether a live session is among these.
fn has_live(site: &Site, ids: Option<&SessionIds<GxSid>>) -> bool {
    let Some(ids) = ids else {
        return false;
    };
    for id in ids.iter() {
        if let Some(known) = site.sessions().gx(id) {
            if known.live() {
                return true;
            }
        }
    }
    false
}

/// Whether a live session of a gateway is listed where the user of a call is reached.
fn is_anybody_there(site: &Site, call: &AfRec) -> bool {
    let Some(index) = site.index() else {
        return false;
    };
    if let Some((_, address)) = call.address() {
        if has_live(site, index.gateways_at(*address)) {
            return true;
        }
    }
    match call.prefix() {
        Some((_, prefix)) => has_live(site, index.gateways_in(&network_of(prefix))),
        None => false,
    }
}

/// Why a call that is bound to nothing isn't.
fn why_unbound(site: &Site, call: &AfRec) -> Unbound {
    if !call.live() {
        Unbound::NotLive
    } else if is_anybody_there(site, call) {
        Unbound::OthersThere
    } else {
        Unbound::NobodyThere
    }
}

/// What a site knows of the application function's session of that Session-Id, if anything.
pub fn call(site: &Site, id: &AfSid) -> Result<Option<CallFound>, AllocError>
    ensures { IfOk result (IsCallFound site.now id.now) }
{
    let Some(known) = site.sessions().af(id) else {
        return Ok(None);
    };
    let known = known.try_copy()?;
    let binding = binding_of(site, id)?;
    let unbound = match &binding {
        Some(None) => Some(why_unbound(site, &known)),
        _ => None,
    };
    Ok(Some(CallFound {
        known,
        binding,
        unbound,
    }))
}
