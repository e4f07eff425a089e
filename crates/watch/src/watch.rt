// What has a ghost field imports each `ghost use` at the top of its file; so the calls, which cite more, stand in files below.
ghost use Rattle.std.specs.Prelude.{◌+◌, ◌≤◌};

use crate::armed::Arming;
use std::marker::PhantomData;

mod accept;
mod arm;
mod draw;
mod let_go;
mod look;
mod ready;
mod take;

/// A watch: the monitor of one rule on the test scale S. It has what it is armed with and numbers; the sample strip, the cells, the tray
/// and the source are lent to each call, each by itself, since a caller keeps them in arrays of his own and a call takes what it needs.
/// It cannot be copied.
#[derive(Drop)]
pub struct Watch<S> {
    arming: Option<Arming>,
    /// How many samples were accepted, and how many positions were taken and are held.
    accepted: u64,
    taken: u64,
    held: usize,
    scale: PhantomData<S>,
    ghost begun: { taken ≤ accepted },
    ghost past: { held ≤ accepted },
    ghost untaken: { accepted ≤ taken + held },
}
