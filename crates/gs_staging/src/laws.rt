//! Laws of trees of uploads, proved: the bodies are empty, and the contracts are the laws.
ghost use Rattle.std.specs.Prelude.{◌≡◌, ℕ, length, Option, None};
ghost use Rattle.gs_model.specs.Graphs.{empty_graph, size_of};
ghost use Rattle.gs_pool.specs.Pool.{Nodes};
ghost use Rattle.gs_tree.specs.Reading.{keys_at};
ghost use Rattle.gs_keys.specs.Texts.{Terms, KeepTerms};
ghost use Rattle.gs_keys.specs.Roots.{graph_of_root, IsGraphAt};
ghost use Rattle.gs_staging.specs.Staging.{IsStaged, IsStillStaged};

/// An upload begins without a root, which stands for the graph without a triple.
pub fn nothing_is_staged()
    ensures staged { (terms : Terms) (p : Nodes) → IsStaged terms p None }
    ensures empty { (terms : Terms) (p : Nodes) → graph_of_root terms p None ≡ empty_graph }
{}

/// The tree of an upload stays one where each number that has a term keeps it, and stands for the same
/// graph.
pub fn staged_outlasts_new_terms()
    ensures { (terms later : Terms) → KeepTerms terms later → (p : Nodes) (root : Option ℕ)
        → IsStaged terms p root → IsStillStaged terms later p root }
{}

/// The tree of an upload stands for a graph, which has a triple for each of the tree's keys.
pub fn staged_has_a_key_for_each_triple()
    ensures graph { (terms : Terms) (p : Nodes) (root : Option ℕ)
        → IsStaged terms p root → IsGraphAt terms p root }
    ensures size { (terms : Terms) (p : Nodes) (root : Option ℕ)
        → IsStaged terms p root → size_of (graph_of_root terms p root) ≡ length (keys_at p root) }
{}
