//! Laws of the texts of answers.
ghost use Rattle.client_texts.specs.AnswerLaws.{HasLine, HasText, OneLine};

/// The values of a message of an operation have a text, once its handles have come.
pub fn has_text()
    ensures { HasText }
{}

/// So the outcome of a call that was done has a line.
pub fn has_line()
    ensures { HasLine }
{}

/// An outcome is told in one way.
pub fn one_line()
    ensures { OneLine }
{}
