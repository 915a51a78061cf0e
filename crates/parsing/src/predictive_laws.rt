//! Laws of predictive tables, whatever their symbols, lookaheads and faults.

ghost use Rattle.parsing.specs.PredictiveLaws.{AsksForMore, StopsAtFirstFault};

/// If each symbol that can arise can be completed, the table stops exactly at the first token with
/// which the tokens so far are no prefix of an accepted text.
pub fn a_table_stops_at_the_first_fault<S, W, K>()
    ensures { StopsAtFirstFault S W K }
{}

/// If each symbol that can arise can be completed, the table runs short exactly if the tokens are a
/// prefix of an accepted text, but not a whole one.
pub fn a_table_asks_for_more_before_the_end<S, W, K>()
    ensures { AsksForMore S W K }
{}
