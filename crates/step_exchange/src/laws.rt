//! A law of exchange structures that were read.

ghost use Rattle.step_exchange.specs.Exchanges.{ExchangesAreNamed};

/// The names of a structure that was read are those of its instances, in order. They are distinct,
/// and there are fewer than 2^32.
pub fn exchanges_are_named()
    ensures { ExchangesAreNamed }
{}
