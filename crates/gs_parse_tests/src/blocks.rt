//! The parser of triples by itself, block after block, where other things may stand than in Turtle.
use gs_lex::{Lexer, Token};
use gs_model::{Fault, Refusal};
use gs_ntwrite::line;
use gs_term::{Part, Pattern};
use gs_triple_lists::TripleList;
use gs_triple_parser::{Scope, TripleParser, Turn};
use gs_triple_values::{Allowed, Language, Patterns, Terms, symbol_of_token};
use std::alloc::{AllocError, Global};
use std::test::Fail;

/// Reads all tokens of a text.
fn read_tokens(lexer: &mut Lexer, text: &str, tokens: &mut Vec<Token>) -> Result<(), Refusal> {
    lexer.feed(text.as_bytes(), tokens)?;
    lexer.finish(tokens)
}

/// The tokens of a text of updates.
fn tokens_of(alloc: Global, text: &str) -> Result<Vec<Token>, Refusal> {
    let mut lexer = Lexer::new(alloc, true);
    let mut tokens = Vec::new(alloc);
    let read = read_tokens(&mut lexer, text, &mut tokens);
    drop(lexer);
    read?;
    Ok(tokens)
}

/// Reads the tokens of a block, and says whether its last triple has ended.
fn step_all<L: Language>(
    parser: &mut TripleParser<L>,
    tokens: &[Token],
    triples: &mut L::List,
) -> Result<bool, AllocError> {
    let mut is_first = true;
    for token in tokens {
        let symbol = symbol_of_token(token);
        if is_first {
            parser.open(symbol)?;
            is_first = false;
        } else if let Turn::Over = parser.step(symbol)? {
            parser.append_to(triples)?;
            is_first = true;
        }
    }
    Ok(is_first)
}

/// Reads the tokens of a block of triples, each of which ends at a dot, in a scope. Gives the scope after
/// it, and the block's fault.
fn read_block<L: Language>(
    scope: Scope,
    allowed: Allowed,
    tokens: &[Token],
    triples: &mut L::List,
) -> Result<(Scope, Option<Fault>), AllocError> {
    let mut parser = TripleParser::<L>::within(scope, allowed);
    let has_ended = step_all(&mut parser, tokens, triples);
    let fault = parser.fault();
    let scope = parser.into_scope();
    match has_ended {
        Ok(true) => Ok((scope, None)),
        Ok(false) => Ok((scope, fault)),
        Err(error) => {
            drop(scope);
            Err(error)
        }
    }
}

/// The same of a text.
fn read<L: Language>(
    alloc: Global,
    scope: Scope,
    allowed: Allowed,
    text: &str,
    triples: &mut L::List,
) -> Result<(Scope, Option<Fault>), Refusal> {
    match tokens_of(alloc, text) {
        Ok(tokens) => {
            let read = read_block::<L>(scope, allowed, tokens.as_slice(), triples);
            drop(tokens);
            Ok(read?)
        }
        Err(refusal) => {
            drop(scope);
            Err(refusal)
        }
    }
}

/// A scope under the base `http://e/`, in request 7.
fn scope(alloc: Global) -> Result<Scope, AllocError> {
    Scope::new(alloc, "http://e/", 7, 0)
}

/// Reads a text in a scope of its own, and gives its fault.
fn read_alone<L: Language>(
    alloc: Global,
    allowed: Allowed,
    text: &str,
    triples: &mut L::List,
) -> Result<Option<Fault>, Refusal> {
    let (after, fault) = read::<L>(alloc, scope(alloc)?, allowed, text, triples)?;
    drop(after);
    Ok(fault)
}

/// Whether a prefix is set to an IRI in its brackets, and to nothing else.
fn sets_prefix(scope: &mut Scope) -> Result<bool, AllocError> {
    let is_set = scope.set_prefix("v:", "<v#>")?;
    let is_set_again = scope.set_prefix("v:", "v#")?;
    Ok(is_set && !is_set_again)
}

/// The faults of two blocks, of which the second goes on in the scope of the first.
fn faults_of(
    alloc: Global,
    scope: Scope,
    first: &str,
    second: &str,
    triples: &mut TripleList,
) -> Result<[Option<Fault>; 2], Refusal> {
    let allowed = Allowed {
        nodes: true,
        lone_lists: true,
    };
    let (scope, fault) = read::<Terms>(alloc, scope, allowed, first, triples)?;
    let (after, then) = read::<Terms>(alloc, scope, allowed, second, triples)?;
    drop(after);
    Ok([fault, then])
}

/// Adds the lines of triples.
fn push_lines(alloc: Global, triples: &TripleList, lines: &mut Vec<u8>) -> Result<(), Refusal> {
    let triples = triples.to_vec(alloc)?;
    for triple in &triples {
        line(triple, lines)?;
    }
    Ok(())
}

/// Whether triples have these lines.
fn have_lines(alloc: Global, triples: &TripleList, wanted: &str) -> Result<bool, Refusal> {
    let mut lines = Vec::new(alloc);
    push_lines(alloc, triples, &mut lines)?;
    Ok(lines.as_slice() == wanted.as_bytes())
}

/// The lines of the two blocks below, in their order.
const TRIPLES: &str =
    "_:b7_1 <http://www.w3.org/1999/02/22-rdf-syntax-ns#first> \"1\"^^<http://www.w3.org/2001/XMLSchema#integer> .
_:b7_1 <http://www.w3.org/1999/02/22-rdf-syntax-ns#rest> <http://www.w3.org/1999/02/22-rdf-syntax-ns#nil> .
_:b7_2 <http://e/v#p> _:b7_3 .
_:b7_2 <http://e/v#p> _:b7_4 .
";

/// Whether a prefix is set, and the faults of two blocks with it.
fn go_on(alloc: Global, triples: &mut TripleList) -> Result<(bool, [Option<Fault>; 2]), Refusal> {
    let mut scope = scope(alloc)?;
    let is_set = sets_prefix(&mut scope);
    let first = "( 1 ) . _:x v:p [] .";
    let faults = faults_of(alloc, scope, first, "_:x v:p _:y .", triples);
    Ok((is_set?, faults?))
}

#[test]
fn prefixes_and_numbers_go_on_in_the_next_block(rt: HostRuntime) -> Result<(), Fail> {
    let mut triples = TripleList::new(rt.alloc());
    let read = go_on(rt.alloc(), &mut triples);
    let are_same = have_lines(rt.alloc(), &triples, TRIPLES);
    drop(triples);
    assert_eq!(rt; read?, (true, [None, None]));
    assert!(rt; are_same?);
    Ok(())
}

/// What may not stand in a block: its name, whether blank nodes may, and the block.
const ROWS: [(&str, bool, &str); 9] = [
    ("a collection alone", true, "( 1 ) ."),
    ("a label", false, "_:x <p> <o> ."),
    ("a label as an object", false, "<s> <p> _:x ."),
    ("brackets", false, "[] <p> <o> ."),
    ("brackets as an object", false, "<s> <p> [] ."),
    ("a collection with an object", false, "<s> <p> ( 1 ) ."),
    ("a variable", true, "?s <p> <o> ."),
    ("a variable as a verb", true, "<s> ?p <o> ."),
    ("a variable as an object", true, "<s> <p> $o ."),
];

/// Whether a block has a fault, and gives no triple.
fn is_refused(alloc: Global, nodes: bool, text: &str) -> Result<bool, Refusal> {
    let allowed = Allowed {
        nodes,
        lone_lists: false,
    };
    let mut triples = TripleList::new(alloc);
    let fault = read_alone::<Terms>(alloc, allowed, text, &mut triples);
    let are_none = triples.is_empty();
    drop(triples);
    Ok(fault? == Some(Fault::Syntax) && are_none)
}

/// The first row that is not refused.
fn wrong_row(alloc: Global) -> Result<Option<&'static str>, Refusal> {
    for (name, nodes, text) in &ROWS {
        if !is_refused(alloc, *nodes, text)? {
            return Ok(Some(name));
        }
    }
    Ok(None)
}

#[test]
fn what_may_not_stand_is_a_fault(rt: HostRuntime) -> Result<(), Fail> {
    assert_eq!(rt; wrong_row(rt.alloc())?, None);
    Ok(())
}

/// The text of a term, or a variable's name.
fn text_of(part: &Part) -> &[u8] {
    match part {
        Part::Term(term) => term.as_bytes(),
        Part::Variable(name) => name.as_str().as_bytes(),
    }
}

/// Adds a pattern, with a space between its texts and a line feed at its end.
fn push_pattern(pattern: &Pattern, lines: &mut Vec<u8>) -> Result<(), AllocError> {
    lines.extend_from_slice(text_of(&pattern.subject))?;
    lines.push(b' ')?;
    lines.extend_from_slice(text_of(&pattern.predicate))?;
    lines.push(b' ')?;
    lines.extend_from_slice(text_of(&pattern.object))?;
    lines.push(b'\n')?;
    Ok(())
}

/// Whether patterns have these lines.
fn are_patterns(alloc: Global, patterns: &[Pattern], wanted: &str) -> Result<bool, AllocError> {
    let mut lines = Vec::new(alloc);
    for pattern in patterns {
        push_pattern(pattern, &mut lines)?;
    }
    Ok(lines.as_slice() == wanted.as_bytes())
}

/// The fault of a block without nodes, and whether it gives these patterns.
fn gives(alloc: Global, text: &str, wanted: &str) -> Result<(Option<Fault>, bool), Refusal> {
    let allowed = Allowed {
        nodes: false,
        lone_lists: false,
    };
    let mut patterns: Vec<Pattern> = Vec::new(alloc);
    let fault = read_alone::<Patterns>(alloc, allowed, text, &mut patterns);
    let are_same = are_patterns(alloc, patterns.as_slice(), wanted);
    drop(patterns);
    Ok((fault?, are_same?))
}

/// The patterns of the block below, in their order.
const PATTERNS: &str = "s <http://e/p> o
s <http://e/p> \"b\"
s p <http://www.w3.org/1999/02/22-rdf-syntax-ns#nil>
";

#[test]
fn patterns_have_variables_at_each_place(rt: HostRuntime) -> Result<(), Fail> {
    let given = gives(rt.alloc(), "?s <p> $o , \"b\" ; ?p ( ) .", PATTERNS)?;
    assert_eq!(rt; given, (None, true));
    Ok(())
}
