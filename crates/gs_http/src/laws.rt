//! Laws of the definitions, proved: each body is empty, and the contract is the law.
ghost use Rattle.gs_http.specs.Heads.{HeadOfIsTheGrammar};
ghost use Rattle.gs_http.specs.Chunks.{ChunkLineOfIsTheGrammar};

/// The head that a text is, by the function, is the one that it is by the grammar, both ways.
pub fn head_of_is_the_grammar()
    ensures { HeadOfIsTheGrammar }
{}

/// The size line that a text is, by the function, is the one that it is by the grammar, both ways.
pub fn chunk_line_of_is_the_grammar()
    ensures { ChunkLineOfIsTheGrammar }
{}
