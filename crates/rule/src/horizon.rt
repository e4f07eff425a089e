// How far the nodes of a rule look ahead and back, from the first node to the last.
ghost use Rattle.std.specs.Prelude.{◌≡◌, ℕ, ◌<◌, ◌≤◌, length, slice_index_or};
ghost use Rattle.logic.specs.Formula.{wait, reach};
ghost use Rattle.rule.specs.Horizons.{none, farthest, Within, farther, later, earlier, node_horizon};
ghost use Rattle.rule.specs.Limits.{most_nodes};
ghost use Rattle.rule.specs.Rows.{Fits};
ghost use Rattle.rule.specs.Tables.{Sound, formula};

use crate::node::Node;
use crate::rule::Rule;

/// How far a node looks, in ticks: `wait` ahead of a position, `reach` back of it.
#[derive(Clone, Copy, PartialEq, Eq, Debug)]
pub struct Horizon {
    pub wait: u64,
    pub reach: u64,
}

impl Horizon {
    /// That of a node that looks at its position alone.
    pub const NONE: Horizon = Horizon { wait: 0, reach: 0 };

    /// As far as the farther of two in each direction.
    fn or_farther(self, other: Horizon) -> Horizon
        ensures { result ≡ farther self other }
    {
        Horizon {
            wait: self.wait.max(other.wait),
            reach: self.reach.max(other.reach),
        }
    }

    /// Further ahead by so many ticks. `back` is the same of the other field; one function that is told the field would be no plainer.
    fn ahead(self, by: u16) -> Horizon
        requires { self.wait ≤ farthest }
        ensures { result ≡ later by self }
    {
        Horizon {
            wait: u64::from(by) + self.wait,
            reach: self.reach,
        }
    }

    /// Further back by so many ticks.
    fn back(self, by: u16) -> Horizon
        requires { self.reach ≤ farthest }
        ensures { result ≡ earlier by self }
    {
        Horizon {
            wait: self.wait,
            reach: u64::from(by) + self.reach,
        }
    }

    /// That of a node, from those of the nodes before it.
    fn of_node(before: &[Horizon], node: Node) -> Horizon
        requires fits { Fits (length before.now) node }
        requires bound { (j : ℕ) → j < length before.now → Within farthest (slice_index_or before.now j none) }
        ensures { result ≡ node_horizon before.now node }
    {
        match node {
            Node::True | Node::Level { .. } => Horizon::NONE,
            Node::Not { first } => before[first as usize],
            Node::Or { first, second } | Node::And { first, second } => {
                before[first as usize].or_farther(before[second as usize])
            }
            Node::Next { first, high, .. } => before[first as usize].ahead(high),
            Node::Yesterday { first, high, .. } => before[first as usize].back(high),
            Node::Until {
                first,
                second,
                high,
                ..
            } => before[first as usize]
                .or_farther(before[second as usize])
                .ahead(high),
            Node::Since {
                first,
                second,
                high,
                ..
            } => before[first as usize]
                .or_farther(before[second as usize])
                .back(high),
        }
    }

    /// That of the last node of a rule.
    pub(crate) fn of_last(nodes: &[Node]) -> Horizon
        requires sound { Sound nodes.now }
        requires some { 0 < length nodes.now }
        requires few { length nodes.now ≤ most_nodes }
        ensures waits { result.wait ≡ wait (formula nodes.now) }
        ensures reaches { result.reach ≡ reach (formula nodes.now) }
        ensures bound { Within farthest result }
    {
        let mut table = [Horizon::NONE; Rule::MOST_NODES];
        // A table by number, as the nodes are. The number of a node is asked for too: it is how many nodes are before it.
        for (i, node) in nodes.iter().enumerate() {
            table[i] = Horizon::of_node(&table[..i], *node);
        }
        table[nodes.len() - 1]
    }
}
