ghost use Rattle.std.specs.Prelude.{◌-◌, min};
ghost use Rattle.sample.specs.Limits.{stamp_limit};
ghost use Rattle.std.proofs.Common.{rules};

use crate::stamped::Stamped;
use sample::Sample;

/// The plain row of a reading, as it lies in memory that was lent: the position in the capture, the stamp, and the kept number of the value.
#[derive(Clone, Copy, PartialEq, Eq, Debug)]
pub struct ReadingRow {
    pub position: u64,
    pub stamp: u64,
    pub value: i64,
}

/// The stamp of a reading's row, where one that is too late counts as the last that is not.
impl Stamped for ReadingRow {
    ghost stamped = { λ r. min r.stamp (stamp_limit - 1) };

    ghost early = { Prim.search rules };

    fn stamp(&self) -> u64 {
        Sample::nearest_stamp(self.stamp)
    }
}
