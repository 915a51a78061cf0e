//! Laws of the definitions.

ghost use Rattle.step_lexer.specs.Laws.{
  AnswersAreDetermined,
  EachReadingHasAnAnswer,
  EndIsAnsweredAgain,
  FaultIsAnsweredAgain,
  PlacesRise,
};

/// The text and how far it is read determine what a lexer returns, and how far the text is read
/// then.
pub fn answers_are_determined()
    ensures { AnswersAreDetermined }
{}

/// However far a text is read, there is something for a lexer to return.
pub fn each_reading_has_an_answer()
    ensures { EachReadingHasAnAnswer }
{}

/// After the end of the text, a lexer returns the end again.
pub fn end_is_answered_again()
    ensures { EndIsAnsweredAgain }
{}

/// After a fault, a lexer returns the same fault again.
pub fn fault_is_answered_again()
    ensures { FaultIsAnsweredAgain }
{}

/// The byte offsets of tokens rise.
pub fn places_rise()
    ensures { PlacesRise }
{}
