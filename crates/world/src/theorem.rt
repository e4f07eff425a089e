ghost use Rattle.world.specs.Law.{Law};

use scale::{Scale, TestScale};

/// The law of every run, for every list of calls on unused objects, every source and all sizes of memory. It is the contract of
/// `replay` too; here it stands for itself.
pub fn law<S: TestScale>()
    ensures { Law S.Scale.ops S.TestScale.reading }
{}
