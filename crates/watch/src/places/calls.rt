ghost use Rattle.std.specs.Prelude.{◌≡◌, ◌%◌, ◌<◌, length, slice_index_or};

use crate::places::Places;

impl<'a, T: Copy> Places<'a, T> {
    /// These places.
    pub(crate) fn over(lent: &'a [T]) -> Places<'a, T>
        requires { 0 < length lent.now }
        ensures { result.lent.now ≡ lent.now }
    {
        Places { lent }
    }

    /// What lies there at a position.
    pub(crate) fn at(&self, position: u64) -> T
        ensures { (d : T) → result ≡ slice_index_or self.now.lent.now (position % length self.now.lent.now) d }
    {
        self.lent[(position % self.lent.len() as u64) as usize]
    }
}
