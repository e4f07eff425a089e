// The one public call.
ghost use Rattle.std.specs.Prelude.{◌≡◌, length, Decides, MatchResult};
ghost use Rattle.refusal.specs.declared.Refusal.TheVariants.{Memory};
ghost use Rattle.rule.specs.Made.{nodes_of};
ghost use Rattle.evaluation.specs.Nodes.{Asked, Evaluated};

use crate::memory::Cell;
use crate::view::View;
use refusal::Refusal;
use rule::Rule;
use sample::SampleRow;
use scale::{Scale, TestScale};

/// Whether there are places for all positions and cells for all nodes: the six numbers of `Asked`, which nothing else has together.
fn has_room(
    places: usize,
    cells: usize,
    first: u64,
    count: usize,
    from: usize,
    nodes: usize,
) -> bool
    ensures { Decides result (Asked places cells first count from nodes) }
{
    if places == 0 || count > places || from > count {
        return false;
    }
    if nodes > cells / places {
        return false;
    }
    first.checked_add(count as u64).is_some()
}

/// Evaluates a rule over the positions `first` to `first + count - 1`, whose samples lie in a ring of as many places as there are rows.
/// Where their stamps do not fall, each node's cell at each of these positions then has the kept numbers of its two ends over these
/// samples, the last node's from position `first + from` on; what falling stamps leave in these cells is free. No other cell changes.
/// Refused as memory, with the cells as they were, if there is no place, if there are more positions than places or `from` is past
/// them, if there are too few cells, or if `first + count` does not fit 64 bits.
pub fn evaluate<S: TestScale>(
    rule: &Rule,
    rows: &[SampleRow],
    cells: &mut [Cell],
    first: u64,
    count: usize,
    from: usize,
) -> Result<(), Refusal>
    ensures { MatchResult result (λ _. Asked (length rows.now) (length cells.old) first count from (length (nodes_of rule.now)) × Evaluated S.Scale.ops S.TestScale.reading rows.now first count from (nodes_of rule.now) cells.old cells.new) (λ why. (why ≡ Memory) × (Asked (length rows.now) (length cells.old) first count from (length (nodes_of rule.now)) → ⊥) × (cells.new ≡ cells.old)) }
{
    let nodes = rule.nodes();
    if !has_room(rows.len(), cells.len(), first, count, from, nodes.len()) {
        return Err(Refusal::Memory);
    }
    View::new(rows, first, count).evaluate::<S>(nodes, cells, from);
    Ok(())
}
