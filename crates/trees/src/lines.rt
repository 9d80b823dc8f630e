//! The text of a list of nodes: its length, and its lines, written to the front of a lent buffer.
ghost use Rattle.std.specs.Prelude.{◌≡◌, [], ◌∷◌, ◌++◌, ◌≤◌, length};
ghost use Rattle.lineage.specs.Rows.{kind_at};
ghost use Rattle.trees.specs.Text.{decimal, kind_word, line_text, text_of};
ghost use Rattle.trees.specs.Answers.{written};

use crate::walking::{MOST_NODES, Node};
use lineage::rows::Row;

fn digits(row: u8) -> usize
    ensures { (result ≡ length (decimal row)) × (result ≤ 2) }
{
    if row < 10 { 1 } else { 2 }
}

/// A space, the word of a row's kind and a line feed.
#[tactic(auto, unfolding(crate::specs::Text::kind_word))]
fn word(plan: &[u8], row: u8) -> &'static [u8]
    ensures bytes { result.now ≡ 32 ∷ kind_word (kind_at plan.now row) ++ 10 ∷ [] }
    ensures few { length result.now ≤ 8 }
{
    match Row::read(plan, row) {
        Some(Row::Column { .. }) => b" column\n",
        Some(Row::Apply { .. }) => b" apply\n",
        Some(Row::Choose { .. }) => b" choose\n",
        _ => b" \n",
    }
}

/// The spaces, the row's number and the word.
fn line_length(plan: &[u8], node: Node) -> usize
    ensures length { result ≡ length (line_text plan.now node) }
    ensures few { result ≤ 520 }
{
    2 * usize::from(node.level) + (digits(node.row) + word(plan, node.row).len())
}

/// The bytes of a text of at most 4,096 lines.
pub fn text_length(plan: &[u8], nodes: &[Node]) -> usize
    ensures length { length nodes.now ≤ 4096 → result ≡ length (text_of plan.now nodes.now) }
    ensures few { result ≤ 2129920 }
{
    let first = &nodes[..nodes.len().min(MOST_NODES)];
    let mut sum = 0usize;
    for node in first {
        sum += line_length(plan, *node);
    }
    sum
}

/// A line at a slice's front, and its length. A line that does not fit is not begun, and none behind it.
fn write_line(plan: &[u8], node: Node, text: &mut [u8]) -> usize
    ensures line { length (line_text plan.now node) ≤ length text.old
        → (text.new ≡ written (line_text plan.now node) text.old)
        × (result ≡ length (line_text plan.now node)) }
    ensures within { result ≤ length text.old }
{
    // By hand: there are two digits at most, and a writer for `write!` would be longer.
    let decimal = [b'0' + node.row / 10, b'0' + node.row % 10];
    let digits = digits(node.row);
    let word = word(plan, node.row);
    let spaces = 2 * usize::from(node.level);
    let middle = spaces + digits;
    let end = middle + word.len();
    if text.len() < end {
        return text.len();
    }
    text[..spaces].fill(b' ');
    text[spaces..middle].copy_from_slice(&decimal[2 - digits..]);
    text[middle..end].copy_from_slice(word);
    end
}

/// The lines of all nodes at the buffer's front, where they fit.
pub fn write_lines(plan: &[u8], nodes: &[Node], buffer: &mut [u8])
    ensures { length (text_of plan.now nodes.now) ≤ length buffer.old
        → buffer.new ≡ written (text_of plan.now nodes.now) buffer.old }
{
    let mut at = 0usize;
    for node in nodes {
        at += write_line(plan, *node, &mut buffer[at..]);
    }
}
