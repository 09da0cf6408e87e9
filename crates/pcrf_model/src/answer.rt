//! What a site answers to a credit control request.
ghost use Rattle.std.specs.Prelude.{◌≡◌, ◌↔◌, IfOk, IsTrue};
ghost use Rattle.pcrf_model.specs.ReplyViews.{gx_reply_view, reply_refusal, reply_quality};

use crate::entries::FirstEntries;
use pcrf_values::{DefaultQuality, Exact, Refusal};
use std::alloc::AllocError;

/// What a site answers to a credit control request.
#[derive(Debug, Drop, PartialEq, Eq)]
pub enum GxReply {
    /// The request is accepted: what of the session's rules is removed and installed, and the default quality of service of
    /// its access point, where it has one.
    Granted(FirstEntries, Option<DefaultQuality>),
    /// The request is refused, and has changed nothing.
    Refused(Refusal),
}

impl GxReply {
    /// The refusal that the reply is, if it is one.
    pub fn refusal(&self) -> Option<Refusal>
        ensures { result ≡ reply_refusal (gx_reply_view self.now) }
    {
        match self {
            GxReply::Granted(_, _) => None,
            GxReply::Refused(refusal) => Some(*refusal),
        }
    }

    /// The default quality of service that the reply tells, if it does.
    pub fn quality(&self) -> Option<DefaultQuality>
        ensures { result ≡ reply_quality (gx_reply_view self.now) }
    {
        match self {
            GxReply::Granted(_, quality) => *quality,
            GxReply::Refused(_) => None,
        }
    }

    /// An equal reply.
    pub fn try_copy(&self) -> Result<GxReply, AllocError>
        ensures { IfOk result (λ copy. copy ≡ self.now) }
    {
        match self {
            GxReply::Granted(delta, quality) => Ok(GxReply::Granted(delta.try_copy()?, *quality)),
            GxReply::Refused(refusal) => Ok(GxReply::Refused(*refusal)),
        }
    }
}

impl Exact for GxReply {
    fn equal(&self, other: &GxReply) -> bool {
        match (self, other) {
            (GxReply::Granted(ours, quality), GxReply::Granted(theirs, other_quality)) => {
                ours.equal(theirs) && are_equal(quality, other_quality)
            }
            (GxReply::Refused(ours), GxReply::Refused(theirs)) => *ours == *theirs,
            _ => false,
        }
    }
}

/// Both default qualities of service are the same.
fn are_equal(ours: &Option<DefaultQuality>, theirs: &Option<DefaultQuality>) -> bool
    ensures { IsTrue result ↔ (ours.now ≡ theirs.now) }
{
    *ours == *theirs
}
