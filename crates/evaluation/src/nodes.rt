// Node after node, from the first to the last.
ghost use Rattle.std.specs.Prelude.{◌≡◌, ◌+◌, ◌*◌, ◌<◌, ◌≤◌, length};
ghost use Rattle.rule.specs.Limits.{largest_channel};
ghost use Rattle.rule.specs.Rows.{Fits, least, channel_of};
ghost use Rattle.rule.specs.Tables.{Sound};
ghost use Rattle.evaluation.specs.Memory.{Climbs, ends_in};
ghost use Rattle.evaluation.specs.Nodes.{node_ends, node_cell, Written, Evaluated};
ghost use Rattle.evaluation.specs.Told.{told};
ghost use Rattle.evaluation.specs.Views.{trace_in};

use crate::ends::Ends;
use crate::memory::Cell;
use crate::pass::Bounds;
use crate::view::View;
use rule::Node;
use scale::{Scale, TestScale};

impl View<'_> {
    /// The ends of a node at position j, from the cells of the nodes before it.
    fn node<S: TestScale>(&self, node: Node, earlier: &[Cell], j: usize) -> Ends<S>
        requires earlier { least node * length self.now.rows.now ≤ length earlier.now }
        requires channel { channel_of node ≤ largest_channel }
        requires j { j < self.now.count }
        ensures { Climbs (trace_in self.now) → told result ≡ node_ends S.Scale.ops (trace_in self.now) S.TestScale.reading (ends_in S.Scale.ops earlier.now (length self.now.rows.now) self.now.start) node j }
    {
        match node {
            Node::True => Ends::both(S::best()),
            Node::Level { channel, level } => {
                Ends::both(S::read(self.code(j, channel as usize), level))
            }
            Node::Not { first } => self.ring(earlier, first).at::<S>(j).turn_over(),
            Node::Or { first, second } => {
                let left: Ends<S> = self.ring(earlier, first).at(j);
                left.or(self.ring(earlier, second).at(j))
            }
            Node::And { first, second } => {
                let left: Ends<S> = self.ring(earlier, first).at(j);
                left.and(self.ring(earlier, second).at(j))
            }
            Node::Next { first, low, high } => {
                self.ring(earlier, first).next(Bounds { low, high }, j)
            }
            Node::Yesterday { first, low, high } => {
                self.ring(earlier, first).yesterday(Bounds { low, high }, j)
            }
            Node::Until {
                first,
                second,
                low,
                high,
            } => {
                let left = self.ring(earlier, first);
                let right = self.ring(earlier, second);
                left.until(&right, Bounds { low, high }, j)
            }
            Node::Since {
                first,
                second,
                low,
                high,
            } => {
                let left = self.ring(earlier, first);
                let right = self.ring(earlier, second);
                left.since(&right, Bounds { low, high }, j)
            }
        }
    }

    /// Writes node m's cells from position `from` on.
    fn write_row<S: TestScale>(&self, m: usize, node: Node, cells: &mut [Cell], from: usize)
        requires fits { Fits m node }
        requires room { (m + 1) * length self.now.rows.now ≤ length cells.old }
        requires from { from ≤ self.now.count }
        ensures { Written (Climbs (trace_in self.now)) (length self.now.rows.now) m self.now.start from (node_cell S.Scale.ops S.TestScale.reading self.now.rows.now self.now.start self.now.count cells.old node) cells.old cells.new self.now.count }
    {
        // A copy, so that its numbers need not be read again after each write.
        let view = *self;
        let (earlier, own) = cells.split_at_mut(m * view.size());
        // Positions are counted, and no cells: a cell lies where its position falls in the ring.
        for j in from..view.count {
            let ends: Ends<S> = view.node(node, earlier, j);
            own[view.place(j)] = Cell::from(ends);
        }
    }

    /// Evaluates the nodes of a rule, the last one from position `from` on.
    pub(crate) fn evaluate<S: TestScale>(&self, nodes: &[Node], cells: &mut [Cell], from: usize)
        requires sound { Sound nodes.now }
        requires some { 0 < length nodes.now }
        requires room { length nodes.now * length self.now.rows.now ≤ length cells.old }
        requires from { from ≤ self.now.count }
        ensures { Evaluated S.Scale.ops S.TestScale.reading self.now.rows.now self.now.start self.now.count from nodes.now cells.old cells.new }
    {
        if let Some((last, others)) = nodes.split_last() {
            for (m, node) in others.iter().enumerate() {
                self.write_row::<S>(m, *node, cells, 0);
            }
            self.write_row::<S>(others.len(), *last, cells, from);
        }
    }
}
