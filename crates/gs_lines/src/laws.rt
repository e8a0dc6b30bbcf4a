//! Laws of lines, proved: the bodies are empty, and the contracts are the laws.
ghost use Rattle.std.specs.Prelude.{◌≡◌, ℕ, Option, None};
ghost use Rattle.gs_model.specs.Graphs.{lines_of};
ghost use Rattle.gs_pool.specs.declared.nodes.Key.{Key};
ghost use Rattle.gs_pool.specs.Pool.{Nodes};
ghost use Rattle.gs_tree.specs.Tree.{tree_at};
ghost use Rattle.gs_keys.specs.Texts.{Terms, KeepTerms};
ghost use Rattle.gs_keys.specs.Roots.{IsGraphAt, graph_of_root};
ghost use Rattle.gs_lines.specs.Pieces.{lines_from, IsCursor};

/// From the beginning on, the lines are those of the root's graph.
pub fn all_lines_are_the_graphs()
    ensures { (terms : Terms) (p : Nodes) (root : Option ℕ)
        → IsGraphAt terms p root → lines_from terms p root None ≡ lines_of (graph_of_root terms p root) }
{}

/// The lines from a place on stay the same in a later pool that has the root's tree, where each number
/// that has a term keeps it.
pub fn lines_outlast_changes()
    ensures { (terms later : Terms) → KeepTerms terms later
        → (p q : Nodes) (root : Option ℕ) (from : Option Key)
        → IsGraphAt terms p root → tree_at q root ≡ tree_at p root → IsCursor terms from
        → lines_from later q root from ≡ lines_from terms p root from }
{}
