ghost use Rattle.std.specs.Prelude.{◌≡◌, ◌+◌, ◌<◌, ◌≤◌, length, take};
ghost use Rattle.logic.specs.Formula.{wait, reach};
ghost use Rattle.rule.specs.Limits.{most_nodes, largest_span};
ghost use Rattle.rule.specs.Tables.{Sound, formula};

use crate::horizon::Horizon;
use crate::node::{Node, NodeRow};
use refusal::{Misfit, Refusal};
use std::fmt;

/// A rule: 1 to 32 nodes, each of which fits its place, and a span of at most 4095 ticks. Its meaning is that of
/// its last node. No rule can break these limits.
// No `==`, and a `Debug` by hand: derived ones would compare and show the places past the count too.
#[derive(Clone, Copy)]
pub struct Rule {
    // An array with a count beside it, since a rule is `Copy` and no list of the kit is.
    nodes: [Node; Rule::MOST_NODES],
    count: usize,
    horizon: Horizon,
    ghost some: { 0 < count },
    ghost held: { count ≤ length nodes },
    ghost few: { count ≤ most_nodes },
    ghost sound: { Sound (take count nodes) },
    ghost waits: { horizon.wait ≡ wait (formula (take count nodes)) },
    ghost reaches: { horizon.reach ≡ reach (formula (take count nodes)) },
    ghost near: { horizon.wait + horizon.reach ≤ largest_span },
}

impl Rule {
    ghost use Rattle.std.specs.Prelude.{[], ◌∷◌};
    ghost use Rattle.logic.specs.Formula.{span};
    ghost use Rattle.rule.specs.Made.{Made, Exactly, nodes_of};
    ghost use Rattle.rule.specs.declared.node.Node.TheVariants.{True};

    /// How many nodes a rule can have.
    pub const MOST_NODES: usize = 32;

    /// The largest span, in ticks.
    pub const LARGEST_SPAN: u64 = 4095;

    /// The rule of one node, true.
    pub fn new() -> Rule
        ensures { nodes_of result ≡ True ∷ [] }
    {
        Rule {
            nodes: [Node::True; Rule::MOST_NODES],
            count: 1,
            horizon: Horizon::NONE,
        }
    }

    /// The rule of plain rows. Refused as count, at place 0, if there are not 1 to 32; then as node, at the first row that stands for no
    /// node there; then as span, at the last row.
    pub fn from_rows(rows: &[NodeRow]) -> Result<Rule, Misfit>
        ensures made { Made rows.now result }
        ensures exactly { Exactly rows.now result }
    {
        if rows.is_empty() || rows.len() > Rule::MOST_NODES {
            return Err(Refusal::Count.at(0));
        }
        let mut nodes = [Node::True; Rule::MOST_NODES];
        // The number of a row is asked for: it is the row's place in a refusal.
        for (i, row) in rows.iter().enumerate() {
            nodes[i] = Node::from_row(i as u8, *row).ok_or(Refusal::Node.at(i as u64))?;
        }
        let horizon = Horizon::of_last(&nodes[..rows.len()]);
        if horizon.wait + horizon.reach > Rule::LARGEST_SPAN {
            return Err(Refusal::Span.at(rows.len() as u64 - 1));
        }
        Ok(Rule {
            nodes,
            count: rows.len(),
            horizon,
        })
    }

    /// Its nodes, in the order of their numbers.
    pub fn nodes(&self) -> &[Node]
        ensures { result.now ≡ nodes_of self.now }
    {
        &self.nodes[..self.count]
    }

    /// How far ahead of a position the rule looks, in ticks.
    pub fn wait(&self) -> u64
        ensures { result ≡ wait (formula (nodes_of self.now)) }
    {
        self.horizon.wait
    }

    /// How far back of a position the rule looks, in ticks.
    pub fn reach(&self) -> u64
        ensures { result ≡ reach (formula (nodes_of self.now)) }
    {
        self.horizon.reach
    }

    /// Wait and reach together.
    pub fn span(&self) -> u64
        ensures { result ≡ span (formula (nodes_of self.now)) }
    {
        self.wait() + self.reach()
    }
}

impl TryFrom<&[NodeRow]> for Rule {
    ghost use Rattle.rule.specs.Made.{Made, Exactly};

    type Error = Misfit;

    ghost try_from_gives = { λ rows answer. Made rows.now answer × Exactly rows.now answer };

    fn try_from(rows: &[NodeRow]) -> Result<Rule, Misfit> {
        Rule::from_rows(rows)
    }
}

/// Its nodes in brackets, and no place past its count.
impl fmt::Debug for Rule {
    ghost use Rattle.rule.specs.Texts.{rule_text};

    ghost debug_output = { rule_text };

    fn fmt<W: fmt::Write>(&self, f: &mut fmt::Formatter<W>) -> fmt::Result {
        fmt::Debug::fmt(&self.nodes(), f)
    }
}
