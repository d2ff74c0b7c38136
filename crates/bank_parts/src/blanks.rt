//! Blank values, which fill unused positions in a bank's lists.
use crate::parts::{Head, Kind, Sample};
use sample_view::Points;
use sf_base::{Blank, Name20};
use std::alloc::Global;

impl Blank for Head {
    fn blank(alloc: Global) -> Head {
        Head {
            name: Name20::blank(alloc),
            number: 0,
            bank: 0,
            library: 0,
            genre: 0,
            morphology: 0,
        }
    }
}

impl<'a> Blank for Sample<'a> {
    fn blank(alloc: Global) -> Sample<'a> {
        Sample {
            name: Name20::blank(alloc),
            points: Points::empty(alloc),
            looped: None,
            rate: 0,
            key: 0,
            correction: 0,
            kind: Kind::Mono,
        }
    }
}
