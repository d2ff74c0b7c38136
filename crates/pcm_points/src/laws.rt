//! Laws of points.
ghost use Rattle.pcm_points.specs.Laws.{PointsAreNearest, SixteenBitsStay, DitherIsNear, NarrowSamplesStay};

/// Each point is the nearest whole number to its sample, ties away from zero, clipped to 16 bits.
pub fn points_are_nearest()
    ensures { PointsAreNearest }
{}

/// Whole 16-bit samples of one channel are their own points.
pub fn sixteen_bits_stay()
    ensures { SixteenBitsStay }
{}

/// A dithered point is less than 3/2 points from its sample, unless it is clipped.
pub fn dither_is_near()
    ensures { DitherIsNear }
{}

/// Dither leaves the points of samples of 8 and 16 bits as they are.
pub fn narrow_samples_stay()
    ensures { NarrowSamplesStay }
{}
