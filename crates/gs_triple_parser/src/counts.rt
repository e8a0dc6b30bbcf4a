//! What a parser has so far: whether its triples are more than so many, and the numbers of labels.
ghost use Rattle.std.specs.Prelude.{◌≡◌, nat_lt, length, codes, option_and_then};
ghost use Rattle.gs_escape.specs.Tokens.{rest_after};
ghost use Rattle.gs_blank.specs.Numbers.{known};

use crate::frames::Goal;
use crate::parser::TripleParser;
use crate::places::Place;
use gs_triple_values::Language;
use gs_triple_values::terms::after;

impl<L: Language> TripleParser<L> {
    ghost use Rattle.gs_triples.specs.States.{triples_so_far};
    ghost use Rattle.gs_triple_parser.specs.Views.{triples_state, numbers_now};

    /// Whether it has more triples than so many.
    pub fn has_more_than(&self, most: usize) -> bool
        ensures { result ≡ nat_lt most (length (triples_so_far (triples_state L.language self.now))) }
    {
        match self.place {
            Place::Opened | Place::Lost(_) => false,
            Place::Heading(Goal::After(_, _, _, _)) => self.pending.has_as_many_as(most),
            _ => self.pending.has_more_than(most),
        }
    }

    /// The number of a label with its mark, if it has one.
    pub fn label_number(&self, label: &str) -> Option<u64>
        ensures { result ≡ option_and_then (known (numbers_now self.now))
            (rest_after (codes "_:") label.now) }
    {
        let Some(label) = after(label, "_:") else {
            return None;
        };
        self.scope.numbering.number(label)
    }

    /// The last number that was given, 0 where there is none.
    pub fn last_number(&self) -> u64
        ensures { result ≡ (numbers_now self.now).1 }
    {
        self.scope.numbering.last()
    }
}
