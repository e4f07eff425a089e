// What has a ghost field imports each `ghost use` at the top of its file; so the calls, which cite more, stand in files below.
ghost use Rattle.std.specs.Prelude.{◌<◌, length};

mod calls;
mod cells;
mod rows;

pub(crate) use cells::{ends, is_settled};
pub(crate) use rows::stamp_at;

/// Lent places that positions use in turn: what belongs to position p lies at place p modulo their number.
#[derive(Drop)]
pub(crate) struct Places<'a, T> {
    lent: &'a [T],
    ghost some: { 0 < length lent.now },
}
