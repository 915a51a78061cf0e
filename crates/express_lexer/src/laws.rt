//! Laws about the definitions, apart from any code.

ghost use Rattle.express_lexer.specs.Laws.{
  AnswersAreDetermined,
  EachReadingHasAnAnswer,
  EndIsAnsweredAgain,
  FaultIsAnsweredAgain,
  PlacesRise,
};

/// The text and the bytes read so far determine the result of a lexer, and how far the text is read
/// then.
pub fn answers_are_determined()
    ensures { AnswersAreDetermined }
{}

/// There is a result for each text, however far it is read.
pub fn each_reading_has_an_answer()
    ensures { EachReadingHasAnAnswer }
{}

/// After the end of the text, the result is the end again.
pub fn end_is_answered_again()
    ensures { EndIsAnsweredAgain }
{}

/// After a fault, the result is that fault again.
pub fn fault_is_answered_again()
    ensures { FaultIsAnsweredAgain }
{}

/// The byte offsets of tokens increase.
pub fn places_rise()
    ensures { PlacesRise }
{}
