//! Laws about the definitions, apart from any code.

ghost use Rattle.express_syntax.specs.ExpressionLaws.{
  ExpressionsAreOneTree,
  KeywordsAreFound,
  KeywordsAreSpelt,
};

/// A list of tokens is the spelling of at most one expression, for any number of open brackets
/// around it.
pub fn an_expression_is_one_tree()
    ensures { ExpressionsAreOneTree }
{}

/// Looking up the spelling of a keyword returns that keyword (ISO 10303-11, 7.2.1).
pub fn each_keyword_is_found()
    ensures { KeywordsAreFound }
{}

/// A word in capitals that is looked up as a keyword is the spelling of that keyword (ISO 10303-11,
/// 7.2.1).
pub fn a_found_keyword_is_spelt_so()
    ensures { KeywordsAreSpelt }
{}
