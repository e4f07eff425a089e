ghost use Rattle.std.specs.Prelude.{◌≡◌};
ghost use Rattle.sample.specs.Coming.{Coming, first, rest, shown};

use crate::ending::Ending;
use crate::sample::Sample;

/// What samples come from. Its meaning is the samples still to come and how it ends after them.
pub trait Source {
    ghost meaning: { Self → Coming };

    /// The first sample that is still to come or, if there is none, the ending. What is to come stays the same; a source may, for example, fill a buffer.
    fn peek(&mut self) -> Result<Sample, Ending>
        ensures answer { shown result ≡ first (meaning self.old) }
        ensures same { meaning self.new ≡ meaning self.old };

    /// Takes the first sample away, if there is one. The rest and the ending stay.
    fn step(&mut self)
        ensures { meaning self.new ≡ rest (meaning self.old) };
}
