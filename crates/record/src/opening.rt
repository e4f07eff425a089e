// Opening a record: the tests, from the front.
ghost use Rattle.std.specs.Prelude.{◌≡◌, ◌+◌, ◌<◌, ◌≤◌, ◌^◌, length, take, MatchResult};
ghost use Rattle.rule.specs.Limits.{most_nodes};
ghost use Rattle.record.specs.Format.{each, itself, node_bytes, nodes_then};
ghost use Rattle.record.specs.Opening.{Answered, Broken, Exactly, NoRule, NoSamples, Samples, rows_of};

use crate::format::{NODE, SAMPLE, read_node, split_count};
use refusal::{Misfit, Refusal};
use rule::{NodeRow, Rule};

/// What an open record holds: how many samples, and the place of the first one.
#[derive(Clone, Copy, PartialEq, Eq, Debug)]
pub struct Opened {
    pub samples: u32,
    pub start: usize,
}

impl Opened {
    /// How many samples a record can have.
    pub const MOST_SAMPLES: u32 = 1_000_000;
}

/// Opens a record: fills the caller's rule, and answers how many samples there are and where they start. Bytes that are
/// no record are refused by the first test that fails, and leave the rule as it was.
pub fn open(bytes: &[u8], rule: &mut Rule) -> Result<Opened, Misfit>
    ensures answer { Answered bytes.now rule.old rule.new result }
    ensures exactly { Exactly bytes.now result }
{
    let (found, rest) = read_rule(bytes)?;
    let opened = read_samples(rest, bytes.len() - rest.len())?;
    *rule = found;
    Ok(opened)
}

/// The rule of the first section, and the bytes after it.
fn read_rule(bytes: &[u8]) -> Result<(Rule, &[u8]), Misfit>
    ensures { MatchResult result (λ p. bytes.now ≡ nodes_then (rows_of p.0) p.1.now) (λ m. Broken bytes.now m) }
{
    let Some((count, rest)) = bytes.split_first() else {
        return Err(Refusal::Cut.at(0));
    };
    let count = usize::from(*count);
    if count == 0 || count > Rule::MOST_NODES {
        return Err(Refusal::Count.at(0));
    }
    let Some((nodes, rest)) = rest.split_at_checked(NODE * count) else {
        return Err(Refusal::Cut.at(1));
    };
    let (nodes, _) = nodes.as_chunks();
    let rows = read_rows(nodes);
    let rule = rule_of(&rows[..count])?;
    Ok((rule, rest))
}

/// The rule of these rows, which begin at byte 1 of a record; refused at the place of a byte, and not of a row.
fn rule_of(rows: &[NodeRow]) -> Result<Rule, Misfit>
    ensures { MatchResult result (λ rule. rows_of rule ≡ rows.now) (NoRule rows.now) }
{
    Rule::from_rows(rows).map_err(|why| why.refusal.at(1 + NODE as u64 * why.place))
}

/// The rows of these nodes, in the first places.
fn read_rows(nodes: &[[u8; NODE]]) -> [NodeRow; Rule::MOST_NODES]
    requires { length nodes.now ≤ most_nodes }
    ensures held { length result ≡ most_nodes }
    ensures rows { each node_bytes (take (length nodes.now) result) ≡ each itself nodes.now }
{
    let none = NodeRow {
        kind: 0,
        first: 0,
        second: 0,
        low: 0,
        high: 0,
    };
    let mut rows = [none; Rule::MOST_NODES];
    // The number of a node is asked for: it is its row's place. `array::from_fn` would go over all 32 places.
    for (i, node) in nodes.iter().enumerate() {
        rows[i] = read_node(node);
    }
    rows
}

/// The section of the samples, which begins at this place and is all the rest of a record.
fn read_samples(bytes: &[u8], place: usize) -> Result<Opened, Misfit>
    requires { place + length bytes.now < 2 ^ 64 }
    ensures { MatchResult result (λ o. Samples o.samples bytes.now × (o.start ≡ place + 4)) (λ m. NoSamples place bytes.now m) }
{
    let Some((samples, body)) = split_count(bytes) else {
        return Err(Refusal::Cut.at(place as u64));
    };
    if samples > Opened::MOST_SAMPLES {
        return Err(Refusal::Count.at(place as u64));
    }
    let start = place + 4;
    let size = SAMPLE * samples as usize;
    if body.len() < size {
        return Err(Refusal::Cut.at(start as u64));
    }
    if body.len() > size {
        return Err(Refusal::Surplus.at((start + size) as u64));
    }
    Ok(Opened { samples, start })
}
