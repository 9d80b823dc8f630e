//! The nodes of a tree, listed in the order in which they are written. The walk of an Apply and the walk
//! of a Choose pass each other the rows that they name. A walk ends once the list is full, so a tree of
//! any size costs no more steps than the list has places.
ghost use Rattle.std.specs.Prelude.{◌≡◌, true, [], ◌∷◌, ◌+◌, ◌≤◌, ◌<◌};
ghost use Rattle.lineage.specs.Rows.{is_value, kind_at};
ghost use Rattle.trees.specs.Trees.{tree_nodes};
ghost use Rattle.trees.specs.Inner.Walks.{apply_nodes, choose_nodes, Listed};

use arrayvec::ArrayVec;
use lineage::rows::{kind, row_a, row_b, row_c};

/// The most nodes that a tree may have.
pub const MOST_NODES: usize = 4096;

/// A row of a plan at a level below the top of a tree.
#[derive(Clone, Copy, Default)]
pub struct Node {
    pub level: u8,
    pub row: u8,
}

/// The nodes of a tree that is not too large.
pub type Nodes = ArrayVec<Node, MOST_NODES>;

// The walks go by the kind's byte. Tried over `Row::read`: that a row is no Choose is known behind
// `let .. else` only by names of the check's own, and the proof did not close without them.

/// That a tree has more nodes than it may have. `Refusal` in its place was tried: it takes 31
/// instructions more for each node of a tree that is refused, and misses what the port took.
#[derive(Clone, Copy)]
pub struct TooMany;

#[tactic(auto, using(crate::proofs::Walked::full_top))]
fn list(nodes: &mut Nodes, level: u8, row: u8) -> Result<(), TooMany>
    ensures { Listed (record { level = level; row = row } ∷ []) nodes.old.items nodes.new.items result }
{
    nodes.try_push(Node { level, row }).map_err(|_| TooMany)
}

// Two walks that call each other: a form that document 01 names.
/// The walk of an Apply, or of a Column: the nodes of a row of these kinds. Each walk lists nothing for
/// a row that is the other's, so that a row is passed to both in turn.
#[cycle(walks)]
fn list_apply(plan: &[u8], level: u8, row: u8, nodes: &mut Nodes) -> Result<(), TooMany>
    ensures { level + row ≤ 255
        → Listed (apply_nodes plan.now level row) nodes.old.items nodes.new.items result }
{
    let kind = kind(plan, row);
    if kind == 1 {
        return list(nodes, level, row);
    }
    if kind != 2 {
        return Ok(());
    }
    list(nodes, level, row)?;
    for named in [row_b(plan, row), row_c(plan, row)] {
        if named < row {
            list_apply(plan, level.saturating_add(1), named, nodes)?;
            list_choose(plan, level.saturating_add(1), named, nodes)?;
        }
    }
    Ok(())
}

/// The walk of a Choose.
#[cycle(walks)]
fn list_choose(plan: &[u8], level: u8, row: u8, nodes: &mut Nodes) -> Result<(), TooMany>
    ensures { level + row ≤ 255
        → Listed (choose_nodes plan.now level row) nodes.old.items nodes.new.items result }
{
    if kind(plan, row) != 3 {
        return Ok(());
    }
    list(nodes, level, row)?;
    for child in [row_a(plan, row), row_b(plan, row), row_c(plan, row)] {
        if child < row {
            list_apply(plan, level.saturating_add(1), child, nodes)?;
            list_choose(plan, level.saturating_add(1), child, nodes)?;
        }
    }
    Ok(())
}

/// The nodes of a value row's tree, listed. Of too many, the first are, as far as the list has places.
pub fn list_tree(plan: &[u8], row: u8, nodes: &mut Nodes) -> Result<(), TooMany>
    ensures { row < 64
        → is_value (kind_at plan.now row) ≡ true
        → Listed (tree_nodes plan.now row) nodes.old.items nodes.new.items result }
{
    list_apply(plan, 0, row, nodes)?;
    list_choose(plan, 0, row, nodes)
}
