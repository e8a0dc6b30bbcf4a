//! A law of the reader's machine, proved: the body is empty, and the contract is the law.
ghost use Rattle.std.specs.Prelude.{◌≡◌, List};
ghost use Rattle.gs_machine.specs.Machines.{rest};
ghost use Rattle.gs_ntterm.specs.Marks.{Mark};
ghost use Rattle.gs_ntread.specs.Documents.{document_meant};
ghost use Rattle.gs_ntread.specs.States.{line_start};
ghost use Rattle.gs_ntread.specs.Machine.{reading};

/// What is read character by character is what the grammar says of the whole text.
pub fn read_by_characters()
    ensures { (text : List Mark) → rest reading line_start text ≡ document_meant text }
{}
