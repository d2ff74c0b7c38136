//! Laws, as functions that do nothing: the law is the contract, and holds for all lists and numbers.
ghost use Rattle.base_numbered_lists.specs.Laws.{InsertionUndone, RemovalUndone, MoveUndone, ExchangeUndone, ChangeUndone};
ghost use Rattle.base_numbered_lists.specs.Laws.{RenumberingUndone, NumberedInsertionUndone, NumberedRemovalUndone, NumberedMoveUndone};
ghost use Rattle.base_numbered_lists.specs.Laws.{InsertionRenumberingUndone, RemovalRenumberingUndone, MoveRenumberingUndone, InsertionRenumberingUndoneAll, RemovalRenumberingUndoneAll, MoveRenumberingUndoneAll};
ghost use Rattle.base_numbered_lists.specs.Laws.{InsertionFollowed, RemovalFollowed, MoveFollowed, InsertedNumberIsFree};
ghost use Rattle.base_numbered_lists.specs.Laws.{InsertionLengthens, RemovalShortens, MoveKeepsLength, ChangeKeepsLength};
ghost use Rattle.base_numbered_lists.specs.Laws.{InsertionStaysBelow, RemovalStaysBelow, MoveStaysBelow};

/// Removing an inserted member restores the list, also if its members are renumbered and renumbered back.
pub fn insertion_undone<T>()
    ensures list { InsertionUndone T }
    ensures numbers { NumberedInsertionUndone T }
{}

/// Inserting a removed member again restores the list, also if its members are renumbered and renumbered back.
pub fn removal_undone<T>()
    ensures list { RemovalUndone T }
    ensures numbers { NumberedRemovalUndone T }
{}

/// Moving a member back restores the list, also if its members are renumbered and renumbered back.
pub fn move_undone<T>()
    ensures list { MoveUndone T }
    ensures numbers { NumberedMoveUndone T }
{}

/// Exchanging a member back, or changing it back, restores the list.
pub fn exchange_undone<T>()
    ensures exchange { ExchangeUndone T }
    ensures change { ChangeUndone T }
{}

/// Renumbering every member and renumbering it back restores the list.
pub fn renumbering_undone<T>()
    ensures { RenumberingUndone T }
{}

/// Renumbering numbers and renumbering them back restores them, except the number of a removed member.
pub fn numbers_restored()
    ensures insertion { InsertionRenumberingUndone }
    ensures removal { RemovalRenumberingUndone }
    ensures move_back { MoveRenumberingUndone }
    ensures insertion_all { InsertionRenumberingUndoneAll }
    ensures removal_all { RemovalRenumberingUndoneAll }
    ensures move_all { MoveRenumberingUndoneAll }
{}

/// A new number refers to the member that the old number referred to, and none to an inserted member.
pub fn numbers_follow<T>()
    ensures insertion { InsertionFollowed T }
    ensures removal { RemovalFollowed T }
    ensures moved { MoveFollowed T }
    ensures missed { InsertedNumberIsFree }
{}

/// The number of members after a change.
pub fn lengths_follow<T>()
    ensures insertion { InsertionLengthens T }
    ensures removal { RemovalShortens T }
    ensures moved { MoveKeepsLength T }
    ensures changed { ChangeKeepsLength T }
{}

/// The new number of a member is below the number of members.
pub fn numbers_stay_below<T>()
    ensures insertion { InsertionStaysBelow T }
    ensures removal { RemovalStaysBelow T }
    ensures moved { MoveStaysBelow T }
{}
