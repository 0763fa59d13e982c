//! The frame of a step on one object: what it leaves to all others.
#![tactic(auto)]

ghost use Rattle.law_frames.specs.Laws.{OthersAreKept, OthersStayClean, PartIsWhatItReads, StepsAreOne, FileStaysClean};

/// A step that leaves the pages of other objects and their PFS bytes leaves them their chains, uses and marks, and all
/// that a check finds of them; so a clean table stays clean.
pub fn frame_laws()
    ensures kept { OthersAreKept }
    ensures clean { OthersStayClean }
{}

/// Steps on one object that leave maps clean are one such step. Behind it, of a clean file only the pages of that
/// object are left to be shown clean.
pub fn step_laws()
    ensures one { StepsAreOne }
    ensures file { FileStaysClean }
{}

/// Each part of a file is clean where it was and what it reads is the same.
pub fn part_law()
    ensures { PartIsWhatItReads }
{}
