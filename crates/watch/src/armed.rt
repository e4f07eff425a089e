// What has a ghost field imports each `ghost use` at the top of its file; so the calls, which cite more, stand in files below.
ghost use Rattle.std.specs.Prelude.{◌<◌, ◌≤◌};
ghost use Rattle.world.specs.Limits.{most_places};

use rule::Rule;

pub(crate) mod memory;
mod refresh;

/// What a watch is armed with: its rule, and C, the places of the sample strip.
#[derive(Clone, Copy)]
pub(crate) struct Arming {
    pub rule: Rule,
    pub places: usize,
    ghost some: { 0 < places },
    ghost few: { places ≤ most_places },
}
