//! Calls of `Points` that may return out of memory.
use crate::outcome::Outcome;
use sample_view::Points;
use std::alloc::Global;

static FILE: [u8; 30] = [
    1, 0, 2, 0, 3, 0, 4, 0, 5, 0, 6, 0, 7, 0, 8, 0, 9, 0, 10, 0, 11, 0, 12, 0, 13, 0, 14, 0, 15, 0,
];

// The points in the file.
static POINTS: [i16; 15] = [1, 2, 3, 4, 5, 6, 7, 8, 9, 10, 11, 12, 13, 14, 15];

pub(crate) fn points_join(alloc: Global) -> Outcome {
    let (points, outcome) = in_five_slices(alloc);
    outcome.and(Outcome::done(has(&points, &POINTS) && points.pieces().len() == 5))
}

pub(crate) fn points_copy(alloc: Global) -> Outcome {
    let (points, outcome) = in_five_slices(alloc);
    outcome.and(copied(alloc, &points))
}

pub(crate) fn points_narrow(alloc: Global) -> Outcome {
    let (mut points, outcome) = in_five_slices(alloc);
    outcome.and(narrowed(alloc, &mut points))
}

// All points of the file in five slices of three, so that a copy and each part of a `narrow` allocate.
fn in_five_slices(alloc: Global) -> (Points<'static>, Outcome) {
    let mut points = slice(alloc, &FILE[12..18]);
    let inner = joined(
        &mut points,
        slice(alloc, &FILE[6..12]),
        slice(alloc, &FILE[18..24]),
        (&POINTS[3..6], &POINTS[6..9], &POINTS[9..12]),
    );
    let outer = joined(
        &mut points,
        slice(alloc, &FILE[..6]),
        slice(alloc, &FILE[24..]),
        (&POINTS[..3], &POINTS[3..12], &POINTS[12..]),
    );
    (points, inner.and(outer))
}

fn slice(alloc: Global, bytes: &'static [u8]) -> Points<'static> {
    match Points::of_slice(alloc, bytes) {
        Ok(points) => points,
        Err(_) => Points::empty(alloc),
    }
}

// Joins. A join that fails must leave the three lists as they were, with the points `want`, and is made again.
fn joined(
    points: &mut Points<'static>,
    front: Points<'static>,
    back: Points<'static>,
    want: (&[i16], &[i16], &[i16]),
) -> Outcome {
    if points.len() > 15 || front.len() > 15 || back.len() > 15 {
        return Outcome::Wrong;
    }
    let Err((front, back)) = points.join(front, back) else {
        return Outcome::Done;
    };
    if !has(&front, want.0) || !has(points, want.1) || !has(&back, want.2) {
        return Outcome::Wrong;
    }
    Outcome::refused(points.join(front, back).is_ok())
}

// Copies all points.
fn copied(alloc: Global, points: &Points<'static>) -> Outcome {
    if let Ok(copy) = points.copy(alloc) {
        return Outcome::done(has(points, &POINTS) && has(&copy, &POINTS));
    }
    if !has(points, &POINTS) {
        return Outcome::Wrong;
    }
    match points.copy(alloc) {
        Ok(copy) => Outcome::refused(has(points, &POINTS) && has(&copy, &POINTS)),
        Err(_) => Outcome::Wrong,
    }
}

// Takes four points off each end of all points, and joins them again.
fn narrowed(alloc: Global, points: &mut Points<'static>) -> Outcome {
    if points.len() != 15 {
        return Outcome::Wrong;
    }
    if let Ok((front, back)) = points.narrow(alloc, 4, 4) {
        return rejoined(points, front, back);
    }
    if !has(points, &POINTS) {
        return Outcome::Wrong;
    }
    match points.narrow(alloc, 4, 4) {
        Ok((front, back)) => Outcome::Refused.and(rejoined(points, front, back)),
        Err(_) => Outcome::Wrong,
    }
}

// Joins what was taken off to the rest.
fn rejoined(
    points: &mut Points<'static>,
    front: Points<'static>,
    back: Points<'static>,
) -> Outcome {
    let want = (&POINTS[..4], &POINTS[4..11], &POINTS[11..]);
    if !has(&front, want.0) || !has(points, want.1) || !has(&back, want.2) {
        return Outcome::Wrong;
    }
    joined(points, front, back, want).and(Outcome::done(has(points, &POINTS)))
}

fn has(points: &Points<'_>, want: &[i16]) -> bool {
    if points.len() != want.len() {
        return false;
    }
    for (index, point) in want.iter().enumerate() {
        if points.point(index) != *point {
            return false;
        }
    }
    true
}
