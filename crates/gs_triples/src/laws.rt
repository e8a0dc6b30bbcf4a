//! Laws of the definitions, proved for every language: the body is empty, and the contract is the
//! law. The types of values and triples are the language's.
ghost use Rattle.gs_triples.specs.Meanings.{Context};
ghost use Rattle.gs_triples.specs.Program.{ReadsByRules, CoversReadings};
ghost use Rattle.gs_triples.specs.Runs.{RunsAsProgram};

/// What the rules say of a prefix of the tokens, the program reads there, where something stands
/// after it at which triples may end.
pub fn triples_are_read<Value, Triple>()
    ensures { (env : Context Value Triple) → ReadsByRules env }
{}

/// What the program reads of a list of tokens is what the rules say of a prefix of it.
pub fn triples_are_covered<Value, Triple>()
    ensures { (env : Context Value Triple) → CoversReadings env }
{}

/// The machine, symbol by symbol, reads what the program reads, where a token stands after it, and
/// else has its fault.
pub fn machine_reads_triples<Value, Triple>()
    ensures { (env : Context Value Triple) → RunsAsProgram env }
{}
