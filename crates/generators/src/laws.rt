//! Laws of the definitions that the contracts of this crate cite, as functions that do nothing: the law is the
//! contract.
ghost use Rattle.std.specs.Cmp.{IsTotalOrder};
ghost use Rattle.std.specs.FinMap.{IsAntisymmetric};
ghost use Rattle.generators.specs.Gens.{operator_cmp};
ghost use Rattle.generators.specs.Laws.{KeyRangeIsFirst, VelRangeIsSecond, OthersGoByNumber, RanksRise, EachOperatorOnce, EntriesAreSet, SetIsEntry, AlikeAreEqual, EntriesGiveTheMap, SettingBackRestores, ClearingRestores, SettingAgainRestores, ClearingNoneKeeps, SettingSameKeeps, LastSettingCounts, SettingsCommute, ClearingsCommute, SettingAndClearingCommute, LastOfEachCount, LastOfEachAreAll, NewSettingAddsOne, SettingAnewAddsNone, ClearingRemovesOne, NoneFit, SettingFits, ClearingFits, TargetsAreNotAllowed, RangesAreAllowed, InstrumentsAllowMore, PlayedIsAllowed};

/// The canonical order is a total order: the key range, the velocity range, the others by number.
pub fn order_is_canonical()
    ensures total { IsTotalOrder operator_cmp }
    ensures ties { IsAntisymmetric operator_cmp }
    ensures first { KeyRangeIsFirst }
    ensures second { VelRangeIsSecond }
    ensures others { OthersGoByNumber }
{}

/// A map's entries are in canonical order, each operator once, and are exactly what is set.
pub fn entries_are_the_map()
    ensures rise { RanksRise }
    ensures once { EachOperatorOnce }
    ensures set { EntriesAreSet }
    ensures all { SetIsEntry }
    ensures alike { AlikeAreEqual }
    ensures any_order { EntriesGiveTheMap }
{}

/// The inverse of a setting or a clearing restores the map.
pub fn edits_are_undone()
    ensures set_back { SettingBackRestores }
    ensures cleared { ClearingRestores }
    ensures set_again { SettingAgainRestores }
    ensures none_cleared { ClearingNoneKeeps }
    ensures same_set { SettingSameKeeps }
{}

/// The last setting of an operator counts, and edits of two operators commute.
pub fn edits_combine()
    ensures last { LastSettingCounts }
    ensures settings { SettingsCommute }
    ensures clearings { ClearingsCommute }
    ensures both { SettingAndClearingCommute }
{}

/// Of entries that are set in order, as a file's records are read, the last of each operator counts.
pub fn last_settings_count()
    ensures last { LastOfEachCount }
    ensures all { LastOfEachAreAll }
{}

/// How an edit changes the number of operators that are set.
pub fn lengths_follow()
    ensures new { NewSettingAddsOne }
    ensures anew { SettingAnewAddsNone }
    ensures cleared { ClearingRemovesOne }
{}

/// Edits with 16-bit numbers keep a map's numbers in 16 bits.
pub fn numbers_fit()
    ensures none { NoneFit }
    ensures set { SettingFits }
    ensures cleared { ClearingFits }
{}

/// How the operators of the two levels and the played operators relate.
pub fn levels_relate()
    ensures targets { TargetsAreNotAllowed }
    ensures ranges { RangesAreAllowed }
    ensures more { InstrumentsAllowMore }
    ensures played { PlayedIsAllowed }
{}
