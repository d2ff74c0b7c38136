//! The parts that several forms of edit have on their lines: samples, zones, generators and modulators.
//!
//! A part is read from a [`Cursor`](script_tokens::Cursor) by one function, and written by another, each token
//! after a space. The parts are a fixed word ([`fixed`]), a word of a list of words ([`next_named`]), the id
//! of a text ([`info_id`]), a sample, `NAME RATE KEY CORR KIND LOOP POINTS` ([`sample_body`]), or some of it,
//! `RATE KEY CORR` ([`tune`]), `KIND` ([`kind`]), `LOOP` ([`looped`]) or `POINTS` ([`points`]), the zones of
//! a preset or an instrument, `GLOBAL? ZONE*` ([`zones`]), or one of them ([`zone`]), and the items of a
//! zone: a generator, `OPERATOR AMOUNT` ([`generator`]), or a modulator ([`modulator`]).
//!
//! `GLOBAL` is `{ global ITEM* }`, `ZONE` is `{ TARGET ITEM* }`, and `ITEM` is `g OPERATOR AMOUNT` or `m
//! SOURCE DEST AMOUNT ASOURCE TRANSFORM`.
#![tactic(auto)]

mod items;
mod names;
mod ranges;
mod samples;
mod texts;
mod zone_lines;
mod zone_lists;

pub use items::{generator, modulator};
pub use names::{HasWord, fixed, next_named};
pub use samples::{
    kind, looped, points, put_kind, put_loop, put_name, put_points, put_sample_body,
    put_sample_head, put_tune, sample_body, tune,
};
pub use texts::info_id;
pub use zone_lines::{put_generator, put_items, put_modulator, put_zone, put_zones};
pub use zone_lists::{zone, zones};
