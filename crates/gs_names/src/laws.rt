//! Laws of the definitions, proved: each body is empty, and the contract is the law.
ghost use Rattle.gs_names.specs.Targets.{TestedNameIsAName};

/// The test of a name is the definition of one, both ways.
pub fn tested_name_is_a_name()
    ensures { TestedNameIsAName }
{}
