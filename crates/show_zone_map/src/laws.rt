//! The laws of rectangles and their labels. The functions do nothing: the laws are their contracts.
ghost use Rattle.show_zone_map.specs.Picture.{LeftIsAbove};
ghost use Rattle.show_zone_map.specs.Selected.{PairsSelected, PairsOnce, ZonesHold, ZonesOnce};

/// The laws that notes select a pair of zones, or a zone of an instrument, exactly where it has a rectangle, and that
/// none has two.
pub fn rectangles_select()
    ensures pairs { PairsSelected }
    ensures pairs_once { PairsOnce }
    ensures zones { ZonesHold }
    ensures zones_once { ZonesOnce }
{}

/// The law that a left and a right sample's labels are on different lines in rectangles of the same area.
pub fn labels_are_apart()
    ensures { LeftIsAbove }
{}
