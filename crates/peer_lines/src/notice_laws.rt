//! Laws of notices.
//!
//! The functions do nothing: what they say are their contracts.
ghost use Rattle.peer_lines.specs.NoticeLaws.{NoticesFit, WhatIsToldIsHeard};

/// What is told of hosts, in as many notices as they take, is heard: these and no others, as one, whatever stands behind it.
pub fn what_is_told_is_heard()
    ensures { WhatIsToldIsHeard }
{}

/// No notice that tells of hosts is longer than is read.
pub fn notices_fit()
    ensures { NoticesFit }
{}
