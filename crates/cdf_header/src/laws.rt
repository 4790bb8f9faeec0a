//! Laws of headers, each the contract of a function that does nothing.

ghost use Rattle.cdf_header.specs.File.{FieldsAreAnswered, AnswersAreOfFields};

/// The header or fault that the function `header_of` of a file's bytes says is what good fields spell, or the fault of the
/// first that fails.
pub fn fields()
    ensures answered { FieldsAreAnswered }
    ensures read { AnswersAreOfFields }
{}
