//! The laws of a building's text, each the contract of a function that does nothing.
ghost use Rattle.model_writer.specs.Laws.{FinePartsReadBack, LinesReadBack, StatementsReadBack, TextIsOfDescription, TextsDescribeAgain};

/// The lines of contents with their ends are these contents.
pub fn lines_read_back()
    ensures { LinesReadBack }
{}

/// The lines of a header of version 2, of parts without a fault and of an end describe the building of the parts.
#[tactic(auto, using(crate::proofs::ReadBack::parts_back))]
pub fn fine_parts_read_back()
    ensures { FinePartsReadBack }
{}

/// A statement's line says it.
#[tactic(auto, using(crate::proofs::SaidBack::statement_back))]
pub fn statements_read_back()
    ensures { StatementsReadBack }
{}

/// What is written of a building is the text of its description.
pub fn text_is_of_description()
    ensures { TextIsOfDescription }
{}

/// The text of a building that lines describe keeps the limits, and describes it again.
pub fn texts_describe_again()
    ensures { TextsDescribeAgain }
{}
