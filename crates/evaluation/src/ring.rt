// What has a ghost field imports each `ghost use` at the top of its file; so those of the calls stand in the impl.
ghost use Rattle.std.specs.Prelude.{◌≡◌, length};

use crate::ends::Ends;
use crate::memory::Cell;
use crate::view::View;
use scale::Scale;

/// The cells of a node, in a ring with as many places as the samples have.
#[derive(Clone, Copy)]
pub(crate) struct Ring<'a> {
    pub view: View<'a>,
    pub cells: &'a [Cell],
    ghost whole: { length cells.now ≡ length view.rows.now },
}

impl Ring<'_> {
    ghost use Rattle.std.specs.Prelude.{◌<◌};
    ghost use Rattle.evaluation.specs.Told.{told};
    ghost use Rattle.evaluation.specs.Views.{ends_at};

    /// The node's ends at a position.
    pub(crate) fn at<S: Scale>(&self, k: usize) -> Ends<S>
        requires { k < self.now.view.count }
        ensures { told result ≡ ends_at S.ops self.now k }
    {
        Ends::from(self.cells[self.view.place(k)])
    }
}
