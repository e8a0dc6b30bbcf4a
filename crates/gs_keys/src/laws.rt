//! Laws of roots, proved: the bodies are empty, and the contracts are the laws.
ghost use Rattle.std.specs.Prelude.{ℕ, List, Option};
ghost use Rattle.gs_pool.specs.declared.nodes.Key.{Key};
ghost use Rattle.gs_pool.specs.Pool.{Nodes};
ghost use Rattle.gs_tree.specs.Keys.{AllKeys};
ghost use Rattle.gs_tree.specs.Reading.{keys_at};
ghost use Rattle.gs_tree.specs.Sets.{IsSetAt};
ghost use Rattle.gs_keys.specs.Texts.{Terms, KeepTerms, key_cmp, IsGiven, AgreeOn};
ghost use Rattle.gs_keys.specs.Roots.{IsGraphAt, IsKeptAmong};

/// A root stands for the same graph where each number of its keys has the same term. What becomes of
/// other numbers means nothing to it: they may lose their terms, or get others.
pub fn graph_needs_only_its_terms()
    ensures { (terms later : Terms) (p : Nodes) (root : Option ℕ)
        → IsGraphAt terms p root → AllKeys (AgreeOn terms later) (keys_at p root)
        → IsKeptAmong terms later p root }
{}

/// A set of keys stays one where each number of its keys has the same term, and numbers that had terms
/// still do.
pub fn set_needs_only_its_terms()
    ensures set { (terms later : Terms) (p : Nodes) (root : Option ℕ)
        → IsSetAt (key_cmp terms) p root → AllKeys (AgreeOn terms later) (keys_at p root)
        → IsSetAt (key_cmp later) p root }
    ensures given { (terms later : Terms) (ks : List Key)
        → AllKeys (IsGiven terms) ks → AllKeys (AgreeOn terms later) ks → AllKeys (IsGiven later) ks }
{}

/// A root stands for the same graph where each number that has a term keeps it.
pub fn graph_outlasts_new_terms()
    ensures { (terms later : Terms) → KeepTerms terms later → (p : Nodes) (root : Option ℕ)
        → IsGraphAt terms p root → IsKeptAmong terms later p root }
{}

/// A set of keys whose numbers have terms stays one where each number that has a term keeps it.
pub fn set_outlasts_new_terms()
    ensures { (terms later : Terms) → KeepTerms terms later → (p : Nodes) (root : Option ℕ)
        → IsSetAt (key_cmp terms) p root → AllKeys (IsGiven terms) (keys_at p root)
        → IsSetAt (key_cmp later) p root }
{}
