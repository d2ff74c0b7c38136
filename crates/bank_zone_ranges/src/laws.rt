//! The laws of splits and joins. A function here does nothing: its contract is the law.
ghost use Rattle.bank_zone_ranges.specs.Undone.{SplitUndone, JoinUndone, SplitIsJoinable, JoinIsSplittable};

/// A split and a join undo each other, and after each of them the other can be done.
pub fn splits_and_joins_undone<H>()
    ensures split { SplitUndone H }
    ensures join { JoinUndone H }
    ensures split_joins { SplitIsJoinable }
    ensures join_splits { JoinIsSplittable }
{}
