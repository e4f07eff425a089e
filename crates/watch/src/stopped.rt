ghost use Rattle.std.specs.Prelude.{◌≡◌, ◌-◌, ◌≤◌};

/// A watch that was stopped. It has the tally, and nothing can be drawn into it.
#[derive(PartialEq, Eq, Debug, Drop)]
pub struct Stopped {
    pub(crate) tally: Tally,
}

/// How many samples were accepted, and how many of their positions were taken and were not.
#[derive(Clone, Copy, PartialEq, Eq, Debug)]
pub struct Tally {
    pub accepted: u64,
    pub taken: u64,
    pub untaken: u64,
}

impl Stopped {
    /// The tally.
    pub fn tally(&self) -> Tally
        ensures { result ≡ self.now.tally }
    {
        self.tally
    }
}
