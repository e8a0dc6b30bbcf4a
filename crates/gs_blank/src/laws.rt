//! A law of the numbers, proved: the body is empty, and the contract is the law.
ghost use Rattle.std.specs.Prelude.{◌≡◌, ℕ, List};
ghost use Rattle.gs_blank.specs.Numbers.{label_number};
ghost use Rattle.gs_blank.specs.Appearances.{Node, node_numbers, count_of, label_place};

/// The number of a label is its place by first appearance: one more than there are labels, and
/// nodes without one, before it. A node without a label has its place among all before it.
pub fn numbered_by_first_appearance()
    ensures label { (ns : List Node) (l : List ℕ) → (label_number (node_numbers ns) l).0 ≡ label_place l ns }
    ensures last { (nodes : List Node) → (node_numbers nodes).1 ≡ count_of nodes }
{}
