//! The laws of new beginnings and of forgetting, each the contract of a function without a body.
ghost use Rattle.site_lock.specs.Left.{ForgettingChangesNoLife, HistoriesLeaveTheRest};
ghost use Rattle.site_lock.specs.Beginnings.{BeginningsAreRestarts, BeginningsKeepAll, EntriesStayTaken, PeersStillTook, RangesStillLeaveNoGap};

/// A site that begins anew shows and holds what it did before, has made no operation itself, and is in its next epoch. In a world of
/// sites that is a restart, after which the site takes all that it held itself.
pub fn new_beginnings_keep_all()
    ensures all { BeginningsKeepAll }
    ensures restarts { BeginningsAreRestarts }
{}

/// After any list of events and new beginnings, what a site's cursors count of a maker is among what the site took, what it knows of
/// a peer the peer took, and a range that it writes by that leaves no gap.
pub fn cursors_count_across_beginnings()
    ensures makers { EntriesStayTaken }
    ensures peers { PeersStillTook }
    ensures ranges { RangesStillLeaveNoGap }
{}

/// A site that forgets sessions holds, of each session that it never forgot, what is kept of all that it took. If it took nothing again
/// of the sessions that it forgot, it lacks nothing of all that it took but sessions that have ended: what is read of live sessions,
/// bindings and rules is what is read of all that it took. The deed of forgetting a session changes nothing of what is read there.
pub fn forgetting_leaves_the_rest()
    ensures rest { HistoriesLeaveTheRest }
    ensures life { ForgettingChangesNoLife }
{}
