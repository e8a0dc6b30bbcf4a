//! Each public call of the parser of Turtle once, on the tokens of a text.
use gs_lex::{Lexer, Token};
use gs_model::{Fault, Refusal};
use gs_ntwrite::line;
use gs_parse::Parser;
use gs_term::Triple;
use gs_triple_lists::TripleList;
use std::alloc::{AllocError, Global};
use std::test::Fail;

/// Reads all tokens of a text.
fn read_tokens(lexer: &mut Lexer, text: &[u8], tokens: &mut Vec<Token>) -> Result<(), Refusal> {
    lexer.feed(text, tokens)?;
    lexer.finish(tokens)
}

/// The tokens of a text.
fn tokens_of(alloc: Global, text: &[u8]) -> Result<Vec<Token>, Refusal> {
    let mut lexer = Lexer::new(alloc, false);
    let mut tokens = Vec::new(alloc);
    let read = read_tokens(&mut lexer, text, &mut tokens);
    drop(lexer);
    read?;
    Ok(tokens)
}

/// What a parser gives of a text: the lines of its triples, its last place, its fault, and its fault
/// at the end.
#[derive(Drop)]
struct Parsed {
    lines: Vec<u8>,
    last: u64,
    fault: Option<Fault>,
    end: Result<(), Fault>,
}

/// Gives a parser these tokens.
fn step_all(
    parser: &mut Parser,
    tokens: &[Token],
    triples: &mut TripleList,
) -> Result<(), AllocError> {
    for token in tokens {
        parser.step(token.as_borrowed(), triples)?;
    }
    Ok(())
}

/// The lines of triples.
fn lines_of(alloc: Global, triples: &[Triple]) -> Result<Vec<u8>, Refusal> {
    let mut lines = Vec::new(alloc);
    for triple in triples {
        line(triple, &mut lines)?;
    }
    Ok(lines)
}

/// The lines of a list's triples.
fn lines_in(alloc: Global, triples: &TripleList) -> Result<Vec<u8>, Refusal> {
    let triples = triples.to_vec(alloc)?;
    lines_of(alloc, triples.as_slice())
}

/// What a parser gives of tokens.
fn parse(alloc: Global, parser: &mut Parser, tokens: &[Token]) -> Result<Parsed, Refusal> {
    let mut triples = TripleList::new(alloc);
    let stepped = step_all(parser, tokens, &mut triples);
    let lines = lines_in(alloc, &triples);
    drop(triples);
    stepped?;
    let (last, fault) = (parser.last, parser.fault());
    let end = parser.end()?;
    let lines = lines?;
    Ok(Parsed {
        lines,
        last,
        fault,
        end,
    })
}

/// What is given of a text under the base `http://e/`, in request 7.
fn parse_text(alloc: Global, text: &[u8]) -> Result<Parsed, Refusal> {
    let tokens = tokens_of(alloc, text)?;
    let made = Parser::new(alloc, "http://e/", 7, 0);
    let Ok(mut parser) = made else {
        drop(tokens);
        return Err(Refusal::NoMemory);
    };
    let parsed = parse(alloc, &mut parser, tokens.as_slice());
    drop(parser);
    drop(tokens);
    parsed
}

/// The text of `TRIPLES`.
const TEXT: &str = "@prefix v: <v#> . <s> a v:T ; v:of ( 1 _:x ) , \"b\"@EN .";

/// Its lines, in their order.
const TRIPLES: &str =
    "<http://e/s> <http://www.w3.org/1999/02/22-rdf-syntax-ns#type> <http://e/v#T> .
_:b7_1 <http://www.w3.org/1999/02/22-rdf-syntax-ns#first> \"1\"^^<http://www.w3.org/2001/XMLSchema#integer> .
_:b7_2 <http://www.w3.org/1999/02/22-rdf-syntax-ns#first> _:b7_3 .
_:b7_1 <http://www.w3.org/1999/02/22-rdf-syntax-ns#rest> _:b7_2 .
_:b7_2 <http://www.w3.org/1999/02/22-rdf-syntax-ns#rest> <http://www.w3.org/1999/02/22-rdf-syntax-ns#nil> .
<http://e/s> <http://e/v#of> _:b7_1 .
<http://e/s> <http://e/v#of> \"b\"@en .
";

/// What is wrong of what is given of a text that has these lines, and ends where its last statement does,
/// with no fault.
fn wrong_part(alloc: Global, text: &str, lines: &str) -> Result<Option<&'static str>, Refusal> {
    let got = parse_text(alloc, text.as_bytes())?;
    if got.lines.as_slice() != lines.as_bytes() {
        return Ok(Some("the lines"));
    }
    if got.last != text.len() as u64 {
        return Ok(Some("the last place"));
    }
    if got.fault != None {
        return Ok(Some("the fault"));
    }
    let is_end = got.end == Ok(());
    Ok(if is_end { None } else { Some("the end") })
}

#[test]
fn a_prefix_and_a_collection_give_their_triples(rt: HostRuntime) -> Result<(), Fail> {
    assert_eq!(rt; wrong_part(rt.alloc(), TEXT, TRIPLES)?, None);
    Ok(())
}

/// A text, its lines, the end of its last whole statement, and its fault before the end. At the end
/// each has a fault.
type Row = (&'static str, &'static str, u64, Option<Fault>);

const FAULTS: [Row; 5] = [
    (
        "<s> <p> <o> . <s> <p> . <s> <p> <o> .",
        "<http://e/s> <http://e/p> <http://e/o> .\n",
        13,
        Some(Fault::Syntax),
    ),
    ("<s> <p> \"o\"", "", 0, None),
    // A verb is missing after the dot of `@prefix`.
    ("@prefix p: <http://e/> . p: .", "", 24, Some(Fault::Syntax)),
    // A dot stands where a `PREFIX` has ended.
    ("PREFIX p: <http://e/> .", "", 21, Some(Fault::Syntax)),
    // A dot is missing after `@base`, and the first directive is the last statement.
    ("BASE <a> @base <b> BASE <c>", "", 8, Some(Fault::Syntax)),
];

/// Whether a parser gives of a text what the row says.
fn is_so(alloc: Global, row: &Row) -> Result<bool, Refusal> {
    let (text, lines, last, fault) = row;
    let got = parse_text(alloc, text.as_bytes())?;
    let is_given = got.lines.as_slice() == lines.as_bytes();
    Ok(is_given && got.last == *last && got.fault == *fault && got.end == Err(Fault::Syntax))
}

/// The first text of which that is not so.
fn wrong_fault(alloc: Global) -> Result<Option<&'static str>, Refusal> {
    for row in &FAULTS {
        if !is_so(alloc, row)? {
            return Ok(Some(row.0));
        }
    }
    Ok(None)
}

#[test]
fn a_fault_is_reported_after_the_last_whole_statement(rt: HostRuntime) -> Result<(), Fail> {
    assert_eq!(rt; wrong_fault(rt.alloc())?, None);
    Ok(())
}
