// The memory that a watch can be armed with, and memory that still fits.
ghost use Rattle.std.specs.Prelude.{◌≡◌, ◌-◌, ◌*◌, drop, length};
ghost use Rattle.evaluation.specs.Memory.{cell_at};
ghost use Rattle.rule.specs.Made.{nodes_of};
ghost use Rattle.world.specs.Tests.{arm_fits, still_fits};
ghost use Rattle.watch.specs.Memory.{last_node};

use crate::MOST_PLACES;
use crate::armed::Arming;
use crate::places::Places;
use evaluation::Cell;
use rule::Rule;
use sample::SampleRow;
use strip::Strip;

/// Whether a watch can be armed with the rule: the strip is unused and has span + 1 to 4096 places, and there is a cell for each place
/// and node.
pub(crate) fn can_arm(rule: &Rule, strip: &Strip<'_, SampleRow>, cells: &[Cell]) -> bool
    ensures { result ≡ arm_fits rule.now (record { places = length strip.now.rows.now; cells = length cells.now; tray_places = 0 }) strip.now.taken }
{
    strip.taken() == 0
        && (strip.places() as u64) > rule.span()
        && strip.places() <= MOST_PLACES
        && cells.len() == strip.places() * rule.nodes().len()
}

impl Arming {
    /// Whether strip and cells have the lengths of arming.
    pub(crate) fn fits(&self, strip: &Strip<'_, SampleRow>, cells: &[Cell]) -> bool
        ensures { result ≡ still_fits self.now.rule self.now.places (record { places = length strip.now.rows.now; cells = length cells.now; tray_places = 0 }) }
    {
        strip.places() == self.places && cells.len() == self.places * self.rule.nodes().len()
    }

    // That the cells fit is asked three times: they are lent to each call, and to `refresh` to be written, so a struct around them would be
    // made anew in each.

    /// The last node's cells: each node has as many as there are places, and the last node's are the last.
    pub(crate) fn last_cells<'a>(&self, cells: &'a [Cell]) -> Places<'a, Cell>
        requires { length cells.now ≡ self.now.places * length (nodes_of self.now.rule) }
        ensures { result.lent.now ≡ drop (length cells.now - self.now.places) cells.now }
    {
        Places::over(&cells[cells.len() - self.places..])
    }

    /// The last node's cell at a position.
    pub(crate) fn cell(&self, cells: &[Cell], position: u64) -> Cell
        requires { length cells.now ≡ self.now.places * length (nodes_of self.now.rule) }
        ensures { result ≡ cell_at cells.now self.now.places (last_node self.now.rule) position }
    {
        self.last_cells(cells).at(position)
    }
}
