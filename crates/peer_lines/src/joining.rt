//! Notices that tell together which hosts a site reaches are joined (docs/LETTERS.md, "Who reaches whom").
ghost use Rattle.std.specs.Prelude.{◌≡◌, IfErr, OnOk, None, Some, option_map};
ghost use Rattle.peer_lines.specs.declared.heads.HeadFault.TheVariants as faults;
ghost use Rattle.peer_lines.specs.NoticeReading.{Gives};
ghost use Rattle.peer_lines.specs.Notices.{are_new, joined, kept_hosts, notice_value, together, with_all_of};

use crate::heads::HeadFault;
use crate::notice::Notice;
use pcrf_values::DiameterIdentity;
use std::alloc::Global;
use std::collections::BTreeSet;
use std::mem::replace;

/// Of how many hosts notices tell together at most.
const MOST_HOSTS: usize = 65_535;

/// What notices told of which the last isn't there yet.
#[derive(Drop)]
pub(crate) struct Joining {
    alloc: Global,
    /// The hosts of those that came, if there was one.
    parts: Option<BTreeSet<DiameterIdentity>>,
}

/// Whether none of those hosts is among these.
fn are_new(kept: &BTreeSet<DiameterIdentity>, hosts: &BTreeSet<DiameterIdentity>) -> bool
    ensures { result ≡ are_new kept.now.keys hosts.now.keys }
{
    for host in hosts.iter() {
        if kept.contains(host) {
            return false;
        }
    }
    true
}

/// Notices tell of these hosts too. Hosts of which they told already, or that are too many, are refused, and nothing changes.
fn add_all(
    kept: &mut BTreeSet<DiameterIdentity>,
    hosts: BTreeSet<DiameterIdentity>,
) -> Result<(), HeadFault>
    ensures joined { Gives (λ x. kept.new.keys) result (together kept.old.keys hosts.keys) }
    ensures refused { IfErr result (λ e. e ≡ faults.NoNotice → kept.new.keys ≡ kept.old.keys) }
{
    if kept.len() + hosts.len() > MOST_HOSTS || !are_new(kept, &hosts) {
        return Err(HeadFault::NoNotice);
    }
    insert_all(kept, hosts)
}

/// Adds hosts.
fn insert_all(
    kept: &mut BTreeSet<DiameterIdentity>,
    hosts: BTreeSet<DiameterIdentity>,
) -> Result<(), HeadFault>
    ensures all { OnOk result (kept.new.keys ≡ with_all_of kept.old.keys hosts.keys) }
    ensures memory { IfErr result (λ e. e ≡ faults.NoMemory) }
{
    for host in hosts {
        if kept.insert(host).is_err() {
            return Err(HeadFault::NoMemory);
        }
    }
    Ok(())
}

impl Joining {
    /// No notice came.
    pub(crate) fn start(alloc: Global) -> Joining
        ensures { kept_hosts result.parts ≡ None }
    {
        Joining { alloc, parts: None }
    }

    /// Joins the first notice that comes.
    #[tactic(auto, unfolding(crate::specs::Notices::joined))]
    fn begin(&mut self, notice: Notice) -> Option<Notice>
        ensures { joined None (notice_value notice)
            ≡ Some (kept_hosts self.new.parts, option_map notice_value result) }
    {
        self.parts = None;
        match notice {
            Notice::Part(hosts) => {
                self.parts = Some(hosts);
                None
            }
            Notice::All(hosts) => Some(Notice::All(hosts)),
            Notice::Reached(host) => Some(Notice::Reached(host)),
            Notice::Left(host) => Some(Notice::Left(host)),
        }
    }

    /// Joins a notice that came: what it tells with those before it, or nothing yet where others are to come. What comes between them,
    /// a host of which two of them tell, and more hosts than they may tell of are refused, and change nothing.
    /// Where memory runs out, some hosts of the notice may be kept: behind that error the link is to be ended.
    #[tactic(auto, unfolding(crate::specs::Notices::joined))]
    pub(crate) fn join(&mut self, notice: Notice) -> Result<Option<Notice>, HeadFault>
        ensures joined { Gives (λ heard.
            (kept_hosts self.new.parts, option_map notice_value heard)) result
            (joined (kept_hosts self.old.parts) (notice_value notice)) }
        ensures refused { IfErr result (λ e. e ≡ faults.NoNotice
            → kept_hosts self.new.parts ≡ kept_hosts self.old.parts) }
    {
        let Some(kept) = &mut self.parts else {
            return Ok(self.begin(notice));
        };
        match notice {
            Notice::Part(hosts) => {
                add_all(kept, hosts)?;
                Ok(None)
            }
            Notice::All(hosts) => {
                add_all(kept, hosts)?;
                let all = replace(kept, BTreeSet::new(self.alloc));
                self.parts = None;
                Ok(Some(Notice::All(all)))
            }
            Notice::Reached(_) | Notice::Left(_) => Err(HeadFault::NoNotice),
        }
    }
}
