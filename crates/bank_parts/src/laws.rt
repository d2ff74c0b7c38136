//! Laws about changes of presets and instruments, as data.
ghost use Rattle.bank_parts.specs.PlaceLaws.{PlaceRead, ZonesRead, PlaceReturns, ZonesReturn, PlaceKept, ZonesKept, OthersStay, OthersKeepZones, PlacesStay, GlobalStays, HeadsStay, HeadsStayByZones, TargetsStay};
ghost use Rattle.bank_parts.specs.ChangesUndone.{ZoneAddedUndone, ZoneRemovedUndone, ZoneMovedUndone, TargetSetBack, GenSetBack, GenSetCleared, GenClearedUndone, ModAddedUndone, ModRemovedUndone, ModSetBack, ZoneAddedRead, ZoneMovedRead, TargetSetRead, GenSetRead, GenClearedRead, ModAddedRead, ModSetRead};

/// A change of one place, or of the zones of one owner: what is read after it, which change undoes it, and that a
/// change which keeps the old value keeps the whole list.
pub fn places_are_lenses<H>()
    ensures place_read { PlaceRead H }
    ensures zones_read { ZonesRead H }
    ensures place_returns { PlaceReturns H }
    ensures zones_return { ZonesReturn H }
    ensures place_kept { PlaceKept H }
    ensures zones_kept { ZonesKept H }
{}

/// Such a change keeps the other owners, the other places and all heads; a change of one place keeps all targets.
pub fn other_places_stay<H>()
    ensures members { OthersStay H }
    ensures members_keep_zones { OthersKeepZones H }
    ensures places { PlacesStay H }
    ensures global { GlobalStays H }
    ensures heads { HeadsStay H }
    ensures heads_by_zones { HeadsStayByZones H }
    ensures targets { TargetsStay H }
{}

/// An edit of zones, generators or modulators followed by its inverse gives back the same presets or instruments.
pub fn zone_changes_undone<H>()
    ensures zone_added { ZoneAddedUndone H }
    ensures zone_removed { ZoneRemovedUndone H }
    ensures zone_moved { ZoneMovedUndone H }
    ensures target_set { TargetSetBack H }
    ensures gen_set { GenSetBack H }
    ensures gen_set_cleared { GenSetCleared H }
    ensures gen_cleared { GenClearedUndone H }
    ensures mod_added { ModAddedUndone H }
    ensures mod_removed { ModRemovedUndone H }
    ensures mod_set { ModSetBack H }
{}

/// What such an edit stored is read afterwards, so that the inverse of its inverse is the edit.
pub fn zone_changes_read<H>()
    ensures zone_added { ZoneAddedRead H }
    ensures zone_moved { ZoneMovedRead H }
    ensures target_set { TargetSetRead H }
    ensures gen_set { GenSetRead H }
    ensures gen_cleared { GenClearedRead H }
    ensures mod_added { ModAddedRead H }
    ensures mod_set { ModSetRead H }
{}
