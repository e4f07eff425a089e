// One sample more: the last node's cells again have the ends over the capture.
ghost use Rattle.std.specs.Prelude.{◌≡◌, ◌+◌, ◌*◌, ◌≤◌, length};
ghost use Rattle.rule.specs.Made.{nodes_of};
ghost use Rattle.watch.specs.Refreshed.{Refreshed};

use crate::armed::Arming;
use crate::before::Before;
use crate::places::Places;
use evaluation::{Cell, evaluate};
use sample::SampleRow;
use scale::{Scale, TestScale};

impl Arming {
    /// Evaluates the rule anew where the sample at position `accepted` can matter, and answers how many untaken positions are settled
    /// now and were not before. Ends stay once the wait is over, and samples do not matter any more once the span is over.
    pub(crate) fn refresh<S: TestScale>(
        &self,
        rows: &[SampleRow],
        cells: &mut [Cell],
        before: Before,
    ) -> u64
        requires places { length rows.now ≡ self.now.places }
        requires sized { length cells.old ≡ self.now.places * length (nodes_of self.now.rule) }
        requires room { before.accepted + 1 ≤ before.oldest + length rows.now }
        ensures { Refreshed S.Scale.ops S.TestScale.reading self.now.rule rows.now before.oldest before.accepted before.taken before.newest cells.old cells.new result }
    {
        let samples = Places::over(rows);
        let first = samples.first_later(
            before.oldest,
            before.accepted,
            before.newest,
            self.rule.span(),
        );
        let from = samples.first_later(first, before.accepted, before.newest, self.rule.wait());
        let open = from.max(before.taken);
        let already = self
            .last_cells(cells)
            .count_settled::<S>(open, before.accepted);
        let count = (before.accepted + 1 - first) as usize;
        let _ = evaluate::<S>(
            &self.rule,
            rows,
            cells,
            first,
            count,
            (from - first) as usize,
        );
        let settled = self
            .last_cells(cells)
            .count_settled::<S>(open, before.accepted + 1);
        settled.saturating_sub(already)
    }
}
