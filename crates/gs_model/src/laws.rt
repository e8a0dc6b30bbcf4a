//! Laws of the definitions, proved: each body is empty, and the contract is the law.
ghost use Rattle.std.specs.Prelude.{◌≡◌, ◌==◌, List, ℕ, true, not, slice_get, Some};
ghost use Rattle.std.specs.List.{list_all};
ghost use Rattle.std.specs.List.Sorted.{IsStrictlySortedBy};
ghost use Rattle.gs_model.specs.Terms.{Term, text_of, kind_byte, IsTerm};
ghost use Rattle.gs_model.specs.Texts.{term_of, triple_of};
ghost use Rattle.gs_model.specs.Triples.{RdfTriple, IsTriple, triple_cmp, line_of};
ghost use Rattle.gs_model.specs.Graphs.{triples_of, graph_of};

/// Each term is the term of its text, so the texts of two different terms differ.
pub fn text_has_one_term()
    ensures one { (t : Term) → term_of (text_of t) ≡ t }
    ensures distinct { (t u : Term) → text_of t ≡ text_of u → t ≡ u }
{}

/// The first byte of a text gives the kind of its term.
pub fn first_byte_gives_the_kind()
    ensures { (t : Term) → slice_get (text_of t) 0 ≡ Some (kind_byte t) }
{}

/// No text of a term has a line feed, so a line has one, at its end.
pub fn text_has_no_line_feed()
    ensures { (t : Term) → IsTerm t → list_all (λ c. not (c == 10)) (text_of t) ≡ true }
{}

/// Each triple is the triple of its line, so the lines of two different triples differ.
pub fn line_has_one_triple()
    ensures one { (t : RdfTriple) → IsTriple t → triple_of (line_of t) ≡ t }
    ensures distinct { (t u : RdfTriple) → IsTriple t → IsTriple u → line_of t ≡ line_of u → t ≡ u }
{}

/// A strictly rising list of triples is the list of its graph's triples.
pub fn graph_has_one_list()
    ensures { (ts : List RdfTriple) → IsStrictlySortedBy triple_cmp ts → triples_of (graph_of ts) ≡ ts }
{}
