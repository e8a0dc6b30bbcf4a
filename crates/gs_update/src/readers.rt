//! The reader.
ghost use Rattle.std.specs.Prelude.{◌≡◌, true, OnOk, IfErr};
ghost use Rattle.gs_model.specs.Iris.{is_absolute};
ghost use Rattle.gs_update_text.specs.Texts.{request_by};
ghost use Rattle.gs_update.specs.Answers.{Answers};
ghost use Rattle.gs_update.specs.Readers.{ReadsText, IsUpdateRefused};
ghost use Rattle.gs_update.specs.Views.{IsSoundParser};

use crate::parser::UpdateParser;
use crate::tokens::{break_off, conclude, take_token};
use gs_event::Op;
use gs_lex::{Next, TextLexer};
use gs_model::Refusal;
use std::alloc::Global;

/// A whole text, from its start to its end, and its fault.
fn take_text(parser: &mut UpdateParser, text: &[u8]) -> Result<(), Refusal>
    requires { IsSoundParser parser.old }
    ensures ok { OnOk result (ReadsText parser.old parser.new text.now) }
    ensures fault { IfErr result (IsUpdateRefused parser.old text.now) }
{
    let mut lexer = TextLexer::new(text, true);
    'tokens: loop {
        match lexer.next_token() {
            Next::Token(token) => take_token(parser, token)?,
            Next::Fault(_) => return Err(break_off(parser)),
            Next::End => return conclude(parser),
        }
    }
}

/// The operations of the text of an update, under an absolute base, in the request of this number.
/// `gs_iri::is_absolute` tests a base. Linear in the length of the text, but that each relative
/// reference also reads the base in force, and each prefixed name the IRI of its prefix. Labels are hashed
/// under the seed 0, which everybody knows, and those that are made to collide take longer;
/// `read_update_seeded` takes another seed.
///
/// # Errors
///
/// - `Syntax`: the text breaks the grammar; the number of bytes up to the end of the last complete
///   operation before the fault, 0 where there is none.
/// - `TermTooLong`: a term's canonical text is too long.
/// - `NotInProfile`: the text's first departure from what is served is an update's.
/// - `NoMemory`: memory was wanted and not given, or no number is left for a blank node; a base has more
///   than 131,072 bytes; the texts of the triples and of the prefixes have more than 16 MiB and 64 bytes
///   for each byte of the text, or 32 GiB more were made.
pub fn read_update(alloc: Global, request: u64, base: &str, text: &[u8]) -> Result<Vec<Op>, Refusal>
    requires { is_absolute base.now ≡ true }
    ensures { Answers result (request_by base.now request text.now) }
{
    read_update_seeded(alloc, request, base, 0, text)
}

/// The same, by a seed that spreads the labels of its blank nodes (`gs_blank::Numbering::new`).
pub fn read_update_seeded(
    alloc: Global,
    request: u64,
    base: &str,
    seed: u64,
    text: &[u8],
) -> Result<Vec<Op>, Refusal>
    requires { is_absolute base.now ≡ true }
    ensures { Answers result (request_by base.now request text.now) }
{
    let mut parser = UpdateParser::new(alloc, base, request, seed, text.len() as u64)?;
    match take_text(&mut parser, text) {
        Ok(()) => Ok(parser.into_operations()),
        Err(refusal) => {
            drop(parser);
            Err(refusal)
        }
    }
}
