ghost use Rattle.std.specs.Prelude.{◌≡◌, ℕ, ◌-◌, ◌<◌, min};
ghost use Rattle.sample.specs.Limits.{stamp_limit};
ghost use Rattle.std.proofs.Common.{rules};

use sample::{Sample, SampleRow};

/// What a strip can keep: a plain row with a stamp.
pub trait Stamped: Copy {
    ghost stamped: { Self → ℕ };

    /// The stamp of the row. It is always below the limit of stamps.
    fn stamp(&self) -> u64
        ensures { result ≡ stamped self.now };

    ghost early: { (row : Self) → stamped row < stamp_limit };
}

/// The stamp of a sample's row, where one that is too late counts as the last that is not. A reading's row has the same line for itself: to
/// have it once, the trait would have to ask for the stamp as it stands too.
impl Stamped for SampleRow {
    ghost stamped = { λ r. min r.stamp (stamp_limit - 1) };

    ghost early = { Prim.search rules };

    fn stamp(&self) -> u64 {
        Sample::nearest_stamp(self.stamp)
    }
}
