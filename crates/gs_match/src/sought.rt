//! Patterns with their terms by number.
ghost use Rattle.std.specs.Prelude.{IfOk, MatchOption};
ghost use Rattle.gs_match.specs.Patterns.{IsLackingPart, IsLacking, IsPart, IsPattern, ArePatterns};

use gs_dict::Dict;
use gs_joins::{Item, Sought};
use gs_term::{Part, Pattern};
use std::alloc::{AllocError, Global};

/// The item of a part, unless the part is a term without a number.
fn item_of<'a>(dict: &Dict, part: &'a Part) -> Option<Item<'a>>
    ensures { MatchOption result (IsLackingPart dict.now.terms part.now)
        (λ i. IsPart dict.now.terms i part.now) }
{
    match part {
        Part::Term(term) => {
            let id = dict.find(term)?;
            Some(Item::Number(id.number))
        }
        Part::Variable(name) => Some(Item::Variable(name)),
    }
}

/// A pattern by number, unless one of its terms has none.
fn sought_in<'a>(dict: &Dict, pattern: &'a Pattern) -> Option<Sought<'a>>
    ensures { MatchOption result (IsLacking dict.now.terms pattern.now)
        (λ s. IsPattern dict.now.terms s pattern.now) }
{
    let subject = item_of(dict, &pattern.subject)?;
    let predicate = item_of(dict, &pattern.predicate)?;
    let object = item_of(dict, &pattern.object)?;
    Some(Sought {
        subject,
        predicate,
        object,
    })
}

/// The patterns by number, unless a term of one has none: then no triple is that pattern's instance.
pub fn all_sought<'a>(
    alloc: Global,
    dict: &Dict,
    patterns: &'a [Pattern],
) -> Result<Option<Vec<Sought<'a>>>, AllocError>
    ensures { IfOk result (λ o. ArePatterns dict.now.terms patterns.now o) }
{
    let mut all = Vec::new(alloc);
    for pattern in patterns {
        let Some(sought) = sought_in(dict, pattern) else {
            return Ok(None);
        };
        all.push(sought)?;
    }
    Ok(Some(all))
}
