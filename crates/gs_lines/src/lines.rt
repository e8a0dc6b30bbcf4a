//! Keys as lines in a graph.
ghost use Rattle.std.specs.Prelude.{◌≡◌, ◌++◌, IfOk, OnOk};
ghost use Rattle.gs_tree.specs.Keys.{AllKeys};
ghost use Rattle.gs_dict.specs.TermLines.{ending_with, with_terms};
ghost use Rattle.gs_keys.specs.Texts.{term_at, IsGiven};
ghost use Rattle.gs_lines.specs.Graphs.{bytes_in};
ghost use Rattle.gs_lines.specs.Pieces.{bytes_of};
ghost use Rattle.gs_lines.specs.Lines.{line_tail};

use gs_dict::{Dict, TermId, TermLinesBuilder};
use gs_pool::Key;
use gs_term::Target;
use gs_texts::Lines;
use std::alloc::{AllocError, Global};

/// Gives the lines that follow what a line in a graph has after its three texts, and the space after each.
fn end_as_in(graph: &Target, lines: &mut TermLinesBuilder) -> Result<(), AllocError>
    ensures { OnOk result (lines.new ≡ ending_with lines.old (line_tail graph.now)) }
{
    lines.begin();
    if let Target::Named(name) = graph {
        lines.extend_tail(name.in_brackets())?;
        lines.extend_tail(b" ")?;
    }
    lines.extend_tail(b".\n")
}

/// Adds the line of a key.
fn add_line(lines: &mut TermLinesBuilder, key: Key) -> Result<(), AllocError>
    requires { IsGiven lines.old.terms key }
    ensures { OnOk result (lines.new ≡ with_terms lines.old (term_at lines.old.terms key.subject)
        (term_at lines.old.terms key.predicate) (term_at lines.old.terms key.object)) }
{
    lines.push(
        TermId {
            number: key.subject,
        },
        TermId {
            number: key.predicate,
        },
        TermId { number: key.object },
    )
}

/// Adds the lines of keys in a graph.
pub fn add_lines(
    graph: &Target,
    keys: &[Key],
    lines: &mut TermLinesBuilder,
) -> Result<(), AllocError>
    requires { AllKeys (IsGiven lines.old.terms) keys.now }
    ensures terms { OnOk result (lines.new.terms ≡ lines.old.terms) }
    ensures bytes { OnOk result (lines.new.items
        ≡ lines.old.items ++ bytes_in lines.old.terms graph.now keys.now) }
{
    if keys.is_empty() {
        return Ok(());
    }
    end_as_in(graph, lines)?;
    for key in keys {
        add_line(lines, *key)?;
    }
    Ok(())
}

/// The lines of keys, one after another. Memory is asked for once for their bytes and 256 more, and
/// none for them where there is no line; what cannot be counted is refused as well.
pub fn lines(alloc: Global, dict: &Dict, keys: &[Key]) -> Result<Lines, AllocError>
    requires { AllKeys (IsGiven dict.now.terms) keys.now }
    ensures { IfOk result (λ l. l.items ≡ bytes_of dict.now.terms keys.now) }
{
    let mut lines = dict.lines(alloc, keys.len())?;
    add_lines(&Target::Default, keys, &mut lines)?;
    lines.finish()
}
