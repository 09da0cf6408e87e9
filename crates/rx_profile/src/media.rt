//! What a media component and a flow say besides their flows and filters (TS 29.214, 5.3), and both as they stand in the AVPs,
//! before they are judged among themselves.
ghost use Rattle.std.specs.Prelude.{◌≡◌, ◌↔◌, ◌<◌, ◌≤◌, OnOk, IfOk, IfErr, IfSome, IfNone, IsTrue, Some, option_map};
ghost use Rattle.dia_codec.specs.Spelling.{avp_views};
ghost use Rattle.pcrf_values.specs.Numbers.{flow_usage_number};
ghost use Rattle.pcrf_model.specs.Making.{is_removed};
ghost use Rattle.dia_base.specs.Rows.{Accepts, AcceptsAll, RefusesWith, number_at, rows_refusal, IsFaultOf};
ghost use Rattle.rx_profile.specs.Avps.{flow_status, flow_usage, max_requested_bandwidth_dl, max_requested_bandwidth_ul, media_component_number, media_type};
ghost use Rattle.rx_profile.specs.Numbers.{media_status_number, rate_rows, status_row, usage_row};
ghost use Rattle.rx_profile.specs.declared.media.MediaStatus.TheVariants as status;
ghost use Rattle.rx_profile.specs.Media.{component_head_rows, component_in, component_rows, flow_in, flow_rows};

use crate::codes::avps::{
    FLOW_DESCRIPTION, FLOW_NUMBER, FLOW_STATUS, FLOW_USAGE, MAX_REQUESTED_BANDWIDTH_DL,
    MAX_REQUESTED_BANDWIDTH_UL, MEDIA_COMPONENT_NUMBER, MEDIA_SUB_COMPONENT, MEDIA_TYPE,
};
use crate::component::Numbered;
use dia_base::{
    FromValue, ReadFault, Refusal, optional_number, optional_number_within, read_avps, read_each,
    required_number, tgpp_key,
};
use dia_codec::Avp;
use pcrf_values::limits::{FILTERS_LIMIT, FLOWS_LIMIT};
use pcrf_values::{FlowStatus, FlowUsage, Text};
use std::alloc::Global;
use std::marker::Model;

/// What an application function says of the directions of media or of a flow (Flow-Status, TS 29.214, 5.3.11).
#[derive(Clone, Copy, Debug, PartialEq, Eq)]
pub enum MediaStatus {
    /// Which of them are open.
    Open(FlowStatus),
    /// The media or the flow is gone.
    Removed,
}

impl MediaStatus {
    /// The status that has a number.
    pub fn from_number(number: u32) -> Option<MediaStatus>
        ensures known { IfSome result (λ status. media_status_number status ≡ number) }
        ensures unknown { IfNone result (media_status_number status.Removed < number) }
    {
        if number == MediaStatus::Removed.number() {
            return Some(MediaStatus::Removed);
        }
        let Some(status) = FlowStatus::from_number(number) else {
            return None;
        };
        Some(MediaStatus::Open(status))
    }

    /// The number of the status.
    pub fn number(self) -> u32
        ensures { result ≡ media_status_number self }
    {
        match self {
            MediaStatus::Open(status) => status.number(),
            MediaStatus::Removed => 4,
        }
    }
}

/// A Flow-Status removes what it stands in.
pub fn is_removed(status: Option<MediaStatus>) -> bool
    ensures { result ≡ is_removed (option_map media_status_number status) }
{
    match status {
        Some(MediaStatus::Removed) => true,
        Some(MediaStatus::Open(_)) | None => false,
    }
}

/// Both say the same of a use, or nothing.
pub(crate) fn same_usage(ours: Option<FlowUsage>, theirs: Option<FlowUsage>) -> bool
    ensures { IsTrue result
        ↔ (option_map flow_usage_number ours ≡ option_map flow_usage_number theirs) }
{
    match (ours, theirs) {
        (Some(ours), Some(theirs)) => ours.number() == theirs.number(),
        (None, None) => true,
        _ => false,
    }
}

/// Both say the same of the directions, or nothing.
pub(crate) fn same_status(ours: Option<MediaStatus>, theirs: Option<MediaStatus>) -> bool
    ensures { IsTrue result
        ↔ (option_map media_status_number ours ≡ option_map media_status_number theirs) }
{
    match (ours, theirs) {
        (Some(ours), Some(theirs)) => ours.number() == theirs.number(),
        (None, None) => true,
        _ => false,
    }
}

/// The greatest bit rates that an application function asks for, in bit/s (Max-Requested-Bandwidth-UL and -DL, TS 29.214,
/// 5.3.15 and 5.3.14).
#[derive(Clone, Copy, Debug, PartialEq, Eq)]
pub struct Rates {
    pub up: Option<u32>,
    pub down: Option<u32>,
}

/// A flow but for its filters (Media-Sub-Component, TS 29.214, 5.3.18).
#[derive(Clone, Copy, Debug, PartialEq, Eq)]
pub struct FlowParts {
    /// Flow-Number.
    pub number: u32,
    /// Flow-Usage.
    pub usage: Option<FlowUsage>,
    /// Flow-Status.
    pub status: Option<MediaStatus>,
    pub rates: Rates,
}

/// A media component but for its flows (Media-Component-Description, TS 29.214, 5.3.16).
#[derive(Clone, Copy, Debug, PartialEq, Eq)]
pub struct ComponentParts {
    /// Media-Component-Number.
    pub number: u32,
    /// Media-Type.
    pub media_type: Option<u32>,
    /// Flow-Status.
    pub status: Option<MediaStatus>,
    pub rates: Rates,
}

/// Reads the Flow-Status.
pub fn read_status(avps: &[Avp<'_>]) -> Result<Option<MediaStatus>, Refusal>
    ensures accepted { OnOk result (Accepts status_row (avp_views avps.now)) }
    ensures status { IfOk result (λ status.
        option_map media_status_number status ≡ number_at flow_status (avp_views avps.now)) }
    ensures refused { IfErr result (RefusesWith status_row (avp_views avps.now)) }
{
    let first = FlowStatus::EnabledUplink.number();
    let last = MediaStatus::Removed.number();
    let given = optional_number_within(avps, tgpp_key(FLOW_STATUS), first, last)?;
    let Some(number) = given else {
        return Ok(None);
    };
    let Some(status) = MediaStatus::from_number(number) else {
        unreachable!()
    };
    Ok(Some(status))
}

/// Reads the Flow-Usage.
pub fn read_usage(avps: &[Avp<'_>]) -> Result<Option<FlowUsage>, Refusal>
    ensures accepted { OnOk result (Accepts usage_row (avp_views avps.now)) }
    ensures usage { IfOk result (λ usage.
        option_map flow_usage_number usage ≡ number_at flow_usage (avp_views avps.now)) }
    ensures refused { IfErr result (RefusesWith usage_row (avp_views avps.now)) }
{
    let first = FlowUsage::NoInformation.number();
    let last = FlowUsage::AfSignalling.number();
    let given = optional_number_within(avps, tgpp_key(FLOW_USAGE), first, last)?;
    let Some(number) = given else {
        return Ok(None);
    };
    let Some(usage) = FlowUsage::from_number(number) else {
        unreachable!()
    };
    Ok(Some(usage))
}

/// Reads Max-Requested-Bandwidth-UL and then -DL, in bit/s, each none where it doesn't stand.
pub fn read_rates(avps: &[Avp<'_>]) -> Result<Rates, Refusal>
    ensures accepted { OnOk result (AcceptsAll rate_rows (avp_views avps.now)) }
    ensures up { IfOk result (λ rates.
        rates.up ≡ number_at max_requested_bandwidth_ul (avp_views avps.now)) }
    ensures down { IfOk result (λ rates.
        rates.down ≡ number_at max_requested_bandwidth_dl (avp_views avps.now)) }
    ensures refused { IfErr result (λ refusal.
        rows_refusal rate_rows (avp_views avps.now) ≡ Some refusal) }
{
    let up = optional_number(avps, tgpp_key(MAX_REQUESTED_BANDWIDTH_UL))?;
    let down = optional_number(avps, tgpp_key(MAX_REQUESTED_BANDWIDTH_DL))?;
    Ok(Rates { up, down })
}

/// A flow whose filters may be any texts.
#[derive(Drop)]
pub struct RawFlow {
    pub parts: FlowParts,
    pub filters: Vec<Text>,
}

impl Model for RawFlow {
    ghost use Rattle.std.specs.Prelude.{◌≤◌, length};
    ghost use Rattle.pcrf_values.specs.Sets.{if_any};
    ghost use Rattle.pcrf_model.specs.Requests.{FlowValue};
    ghost use Rattle.pcrf_values.specs.Limits.{filters_limit};
    ghost use Rattle.rx_profile.specs.Values.{flow_value};

    ghost Value = { FlowValue };

    ghost view = { λ f. flow_value f.parts (if_any f.filters.items) };

    ghost invariant = { λ f. length f.filters.items ≤ filters_limit };
}

/// A component whose flows may have equal numbers.
#[derive(Drop)]
pub struct RawComponent {
    pub parts: ComponentParts,
    pub flows: Vec<RawFlow>,
}

impl Model for RawComponent {
    ghost use Rattle.std.specs.Prelude.{◌≤◌, length};
    ghost use Rattle.pcrf_model.specs.Requests.{ComponentValue};
    ghost use Rattle.pcrf_values.specs.Limits.{flows_limit};
    ghost use Rattle.rx_profile.specs.Values.{component_value};

    ghost Value = { ComponentValue };

    ghost view = { λ c. component_value c.parts c.flows.items };

    ghost invariant = { λ c. length c.flows.items ≤ flows_limit };
}

impl Numbered for RawFlow {
    ghost number_of = { λ f. f.number };

    fn number(&self) -> u32 {
        self.parts.number
    }
}

impl Numbered for RawComponent {
    ghost number_of = { λ c. c.number };

    fn number(&self) -> u32 {
        self.parts.number
    }
}

/// Reads the AVPs of a flow.
fn read_flow(alloc: Global, avps: &[Avp<'_>]) -> Result<RawFlow, ReadFault>
    ensures accepted { OnOk result (AcceptsAll flow_rows (avp_views avps.now)) }
    ensures flow { IfOk result (λ flow. flow ≡ flow_in (avp_views avps.now)) }
    ensures refused { IfErr result (IsFaultOf (rows_refusal flow_rows (avp_views avps.now))) }
{
    let number = required_number(avps, tgpp_key(FLOW_NUMBER))?;
    let filters = read_each::<Text>(alloc, avps, tgpp_key(FLOW_DESCRIPTION), Some(FILTERS_LIMIT))?;
    let status = read_status(avps)?;
    let usage = read_usage(avps)?;
    let rates = read_rates(avps)?;
    let parts = FlowParts {
        number,
        usage,
        status,
        rates,
    };
    Ok(RawFlow { parts, filters })
}

impl FromValue for RawFlow {
    ghost use Rattle.rx_profile.specs.Media.{flow, flow_of};

    ghost kind = { flow };

    ghost of_value = { flow_of };

    fn from_value(alloc: Global, value: &[u8]) -> Result<RawFlow, ReadFault> {
        let avps = read_avps(alloc, value)?;
        read_flow(alloc, &avps)
    }
}

/// Reads what a component says besides its flows.
fn read_component_parts(avps: &[Avp<'_>]) -> Result<ComponentParts, Refusal>
    ensures accepted { OnOk result (AcceptsAll component_head_rows (avp_views avps.now)) }
    ensures number { IfOk result (λ parts.
        number_at media_component_number (avp_views avps.now) ≡ Some parts.number) }
    ensures media { IfOk result (λ parts.
        parts.media_type ≡ number_at media_type (avp_views avps.now)) }
    ensures status { IfOk result (λ parts.
        option_map media_status_number parts.status ≡ number_at flow_status (avp_views avps.now)) }
    ensures up { IfOk result (λ parts.
        parts.rates.up ≡ number_at max_requested_bandwidth_ul (avp_views avps.now)) }
    ensures down { IfOk result (λ parts.
        parts.rates.down ≡ number_at max_requested_bandwidth_dl (avp_views avps.now)) }
    ensures refused { IfErr result (λ refusal.
        rows_refusal component_head_rows (avp_views avps.now) ≡ Some refusal) }
{
    let number = required_number(avps, tgpp_key(MEDIA_COMPONENT_NUMBER))?;
    let media_type = optional_number(avps, tgpp_key(MEDIA_TYPE))?;
    let status = read_status(avps)?;
    let rates = read_rates(avps)?;
    Ok(ComponentParts {
        number,
        media_type,
        status,
        rates,
    })
}

/// Reads the AVPs of a component.
fn read_component(alloc: Global, avps: &[Avp<'_>]) -> Result<RawComponent, ReadFault>
    ensures accepted { OnOk result (AcceptsAll component_rows (avp_views avps.now)) }
    ensures component { IfOk result (λ component.
        component ≡ component_in (avp_views avps.now)) }
    ensures refused { IfErr result
        (IsFaultOf (rows_refusal component_rows (avp_views avps.now))) }
{
    let parts = read_component_parts(avps)?;
    let flows = read_each::<RawFlow>(
        alloc,
        avps,
        tgpp_key(MEDIA_SUB_COMPONENT),
        Some(FLOWS_LIMIT),
    )?;
    Ok(RawComponent { parts, flows })
}

impl FromValue for RawComponent {
    ghost use Rattle.rx_profile.specs.Media.{component, component_of};

    ghost kind = { component };

    ghost of_value = { component_of };

    fn from_value(alloc: Global, value: &[u8]) -> Result<RawComponent, ReadFault> {
        let avps = read_avps(alloc, value)?;
        read_component(alloc, &avps)
    }
}
