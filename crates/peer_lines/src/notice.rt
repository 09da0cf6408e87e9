//! What a site tells another over a link beside letters: which hosts it reaches (docs/LETTERS.md, "Who reaches whom").
ghost use Rattle.std.specs.Prelude.{◌≡◌, ◌+◌, ◌*◌, ◌≤◌, ◌++◌, [], length, OnOk, if◌then◌else◌};
ghost use Rattle.std.specs.List.{concat};
ghost use Rattle.pcrf_values.specs.Limits.{identity_limit};
ghost use Rattle.peer_lines.specs.NoticeReading.{Gives};
ghost use Rattle.peer_lines.specs.Notices.{change_frame, each_at, frame_of, frames_of, has_room, host_at, host_bytes, hosts_at, hosts_frame, kind_part, most_host_bytes, most_said, notice_of, notice_value, said_bytes, short_at, told_at};

use crate::heads::HeadFault;
use pcrf_values::DiameterIdentity;
use std::alloc::{AllocError, Global};
use std::collections::BTreeSet;

/// What stands where a letter has its version.
pub(crate) const MARK: u8 = 240;

/// How many bytes of a notice its length doesn't count, and how many there are with the mark.
const LENGTH_BYTES: usize = 4;

pub(crate) const FRONT_BYTES: usize = 5;

/// The most that the length of a notice says.
const MOST: usize = 1 << 16;

/// How many bytes of a notice that tells of many hosts come before them, of those that its length counts: the mark, the kind and a count.
const COUNTED_BYTES: usize = 4;

/// The most bytes of the hosts of one notice.
const MOST_HOST_BYTES: usize = MOST - COUNTED_BYTES;

/// How many bytes a host has beside its name.
const HOST_HEAD_BYTES: usize = 2;

/// The kinds of notices.
const ALL: u8 = 1;

const REACHED: u8 = 2;

const LEFT: u8 = 3;

const PART: u8 = 4;

/// What a site says of the hosts that it reaches.
#[derive(Debug, Drop)]
pub enum Notice {
    /// These, and no others.
    All(BTreeSet<DiameterIdentity>),
    /// These, and others, of which the next notice tells.
    Part(BTreeSet<DiameterIdentity>),
    /// One more.
    Reached(DiameterIdentity),
    /// One less.
    Left(DiameterIdentity),
}

/// Writes a host.
#[tactic(auto, unfolding(crate::specs::Notices::short_bytes), using(crate::proofs::Notices::added))]
fn put_host(bytes: &mut Vec<u8>, host: &DiameterIdentity) -> Result<(), AllocError>
    ensures written { OnOk result (bytes.new.items ≡ bytes.old.items ++ host_bytes host.now) }
    ensures named { length host.now ≤ identity_limit }
{
    let text = host.as_slice();
    let length = text.len() as u16;
    bytes.extend_from_slice(&length.to_be_bytes())?;
    bytes.extend_from_slice(text)?;
    Ok(())
}

/// Writes a notice of that kind with this behind it.
#[tactic(auto, unfolding(crate::specs::Notices::word_bytes, crate::specs::Notices::frame_of), using(crate::proofs::Notices::added))]
fn put_notice(bytes: &mut Vec<u8>, kind: u8, said: &[u8]) -> Result<(), AllocError>
    requires { length said.now + 2 ≤ most_said }
    ensures { OnOk result (bytes.new.items ≡ bytes.old.items ++ frame_of kind said.now) }
{
    let length = said.len() as u32 + 2;
    bytes.extend_from_slice(&length.to_be_bytes())?;
    bytes.extend_from_slice(&[MARK, kind])?;
    bytes.extend_from_slice(said)?;
    Ok(())
}

/// Hosts that one notice tells of.
#[derive(Drop)]
struct Told {
    count: u16,
    /// Their bytes.
    hosts: Vec<u8>,
}

impl Told {
    /// None yet.
    fn nobody(alloc: Global) -> Told
        ensures count { result.count ≡ 0 }
        ensures hosts { result.hosts.items ≡ [] }
    {
        Told {
            count: 0,
            hosts: Vec::new(alloc),
        }
    }

    /// Whether there is room for one more.
    #[tactic(auto, unfolding(crate::specs::Notices::short_bytes))]
    fn has_room(&self, host: &DiameterIdentity) -> bool
        requires { length self.now.hosts.items ≤ most_host_bytes }
        ensures { result ≡ has_room (length self.now.hosts.items) host.now }
    {
        self.hosts.len() + (HOST_HEAD_BYTES + host.as_slice().len()) <= MOST_HOST_BYTES
    }

    /// Writes the notice of that kind, which tells of them.
    #[tactic(auto, unfolding(crate::specs::Notices::short_bytes))]
    fn put(&self, alloc: Global, bytes: &mut Vec<u8>, kind: u8) -> Result<(), AllocError>
        requires { length self.now.hosts.items ≤ most_host_bytes }
        ensures { OnOk result (bytes.new.items
            ≡ bytes.old.items ++ hosts_frame kind self.now.count self.now.hosts.items) }
    {
        let mut said = Vec::from_slice(alloc, &self.count.to_be_bytes())?;
        said.extend_from_slice(self.hosts.as_slice())?;
        put_notice(bytes, kind, said.as_slice())
    }

    /// Tells of one more: where there is no room for it, in the notice that follows.
    #[tactic(auto, unfolding(crate::specs::Notices::short_bytes))]
    fn add(
        &mut self,
        alloc: Global,
        bytes: &mut Vec<u8>,
        host: &DiameterIdentity,
    ) -> Result<(), AllocError>
        requires fits { length self.old.hosts.items ≤ most_host_bytes }
        requires counted { self.old.count * 2 ≤ length self.old.hosts.items }
        ensures bytes { OnOk result (bytes.new.items
            ≡ (if has_room (length self.old.hosts.items) host.now then bytes.old.items
            else bytes.old.items
            ++ hosts_frame kind_part self.old.count self.old.hosts.items)) }
        ensures count { OnOk result (self.new.count
            ≡ (if has_room (length self.old.hosts.items) host.now
            then self.old.count + 1 else 1)) }
        ensures hosts { OnOk result (self.new.hosts.items
            ≡ (if has_room (length self.old.hosts.items) host.now
            then self.old.hosts.items ++ host_bytes host.now else host_bytes host.now)) }
        ensures fits { OnOk result (length self.new.hosts.items ≤ most_host_bytes) }
        ensures counted { OnOk result (self.new.count * 2 ≤ length self.new.hosts.items) }
    {
        if self.has_room(host) {
            put_host(&mut self.hosts, host)?;
            self.count += 1;
            return Ok(());
        }
        self.put(alloc, bytes, PART)?;
        self.hosts.clear();
        put_host(&mut self.hosts, host)?;
        self.count = 1;
        Ok(())
    }
}

/// Writes that a site reaches these hosts, and no others: by one notice, or where that has no room for all by several, each with as many
/// as it has room for, of which the last alone says that there are no others.
pub fn put_all(
    alloc: Global,
    bytes: &mut Vec<u8>,
    hosts: &BTreeSet<DiameterIdentity>,
) -> Result<(), AllocError>
    ensures { OnOk result (bytes.new.items
        ≡ bytes.old.items ++ concat (frames_of hosts.now.keys)) }
{
    let mut told = Told::nobody(alloc);
    for host in hosts.iter() {
        told.add(alloc, bytes, host)?;
    }
    told.put(alloc, bytes, ALL)?;
    Ok(())
}

/// Writes that it reaches one more, or one less.
#[tactic(auto, unfolding(crate::specs::Notices::short_bytes))]
pub fn put_change(
    alloc: Global,
    bytes: &mut Vec<u8>,
    host: &DiameterIdentity,
    is_reached: bool,
) -> Result<(), AllocError>
    ensures { OnOk result (bytes.new.items ≡ bytes.old.items ++ change_frame host.now is_reached) }
{
    let mut said = Vec::new(alloc);
    put_host(&mut said, host)?;
    let kind = if is_reached { REACHED } else { LEFT };
    put_notice(bytes, kind, said.as_slice())
}

/// How many bytes stand behind the front of a notice; none where what stands there isn't the front of one.
#[tactic(auto, unfolding(crate::specs::Notices::said_bytes))]
pub(crate) fn said_bytes(front: &[u8; FRONT_BYTES]) -> Option<usize>
    ensures { result ≡ said_bytes front.now }
{
    let length = u32::from_be_bytes([front[0], front[1], front[2], front[3]]) as usize;
    if front[4] != MARK || length < FRONT_BYTES - LENGTH_BYTES || length > MOST {
        return None;
    }
    Some(length - (FRONT_BYTES - LENGTH_BYTES))
}

/// The number of two bytes that is at the front, and what is behind it.
#[tactic(auto, unfolding(crate::specs::Notices::short_at))]
fn short_at(bytes: &[u8]) -> Result<(u16, &[u8]), HeadFault>
    ensures { Gives (λ x. (x.0, x.1.now)) result (short_at bytes.now) }
{
    if bytes.len() < 2 {
        return Err(HeadFault::NoNotice);
    }
    let (front, rest) = bytes.split_at(2);
    Ok((u16::from_be_bytes([front[0], front[1]]), rest))
}

/// The host that is at the front, and what is behind it.
#[tactic(auto, unfolding(crate::specs::Notices::host_at, crate::specs::Notices::bytes_at))]
fn host_at(alloc: Global, bytes: &[u8]) -> Result<(DiameterIdentity, &[u8]), HeadFault>
    ensures { Gives (λ x. (x.0, x.1.now)) result (host_at bytes.now) }
{
    let (length, named) = short_at(bytes)?;
    let length = usize::from(length);
    if named.len() < length {
        return Err(HeadFault::NoNotice);
    }
    let (name, rest) = named.split_at(length);
    match DiameterIdentity::read(alloc, name) {
        Ok(Some(host)) => Ok((host, rest)),
        Ok(None) => Err(HeadFault::NoNotice),
        Err(_) => Err(HeadFault::NoMemory),
    }
}

/// So many hosts that are at the front, each of which stands there once, and what is behind them.
fn each_at(
    alloc: Global,
    count: u16,
    bytes: &[u8],
) -> Result<(BTreeSet<DiameterIdentity>, &[u8]), HeadFault>
    ensures { Gives (λ x. (x.0.keys, x.1.now)) result (each_at count bytes.now) }
{
    let mut hosts = BTreeSet::new(alloc);
    let mut rest = bytes;
    for _ in 0..count {
        let (host, after) = host_at(alloc, rest)?;
        match hosts.insert(host) {
            Ok(true) => {}
            Ok(false) => return Err(HeadFault::NoNotice),
            Err(_) => return Err(HeadFault::NoMemory),
        }
        rest = after;
    }
    Ok((hosts, rest))
}

/// The hosts that are at the front, each of which stands there once, and what is behind them.
#[tactic(auto, unfolding(crate::specs::Notices::hosts_at))]
fn hosts_at(alloc: Global, bytes: &[u8]) -> Result<(BTreeSet<DiameterIdentity>, &[u8]), HeadFault>
    ensures { Gives (λ x. (x.0.keys, x.1.now)) result (hosts_at bytes.now) }
{
    let (count, rest) = short_at(bytes)?;
    each_at(alloc, count, rest)
}

/// What the kind says, and what is behind it.
#[tactic(auto, unfolding(crate::specs::Notices::told_at))]
fn told_at(alloc: Global, kind: u8, bytes: &[u8]) -> Result<(Notice, &[u8]), HeadFault>
    ensures { Gives (λ x. (notice_value x.0, x.1.now)) result (told_at kind bytes.now) }
{
    match kind {
        ALL => {
            let (hosts, rest) = hosts_at(alloc, bytes)?;
            Ok((Notice::All(hosts), rest))
        }
        PART => {
            let (hosts, rest) = hosts_at(alloc, bytes)?;
            Ok((Notice::Part(hosts), rest))
        }
        REACHED => {
            let (host, rest) = host_at(alloc, bytes)?;
            Ok((Notice::Reached(host), rest))
        }
        LEFT => {
            let (host, rest) = host_at(alloc, bytes)?;
            Ok((Notice::Left(host), rest))
        }
        _ => Err(HeadFault::NoNotice),
    }
}

/// The notice whose front these bytes stand behind.
#[tactic(auto, unfolding(crate::specs::Notices::notice_of))]
pub(crate) fn read_notice(alloc: Global, said: &[u8]) -> Result<Notice, HeadFault>
    ensures { Gives notice_value result (notice_of said.now) }
{
    let [kind, bytes @ ..] = said else {
        return Err(HeadFault::NoNotice);
    };
    let (notice, rest) = told_at(alloc, *kind, bytes)?;
    if !rest.is_empty() {
        return Err(HeadFault::NoNotice);
    }
    Ok(notice)
}
