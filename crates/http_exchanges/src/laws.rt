//! The law of exchanges.
ghost use Rattle.std.specs.Prelude.{◌≡◌, ℕ, List as Seq};
ghost use Rattle.http_exchanges.specs.Exchanges.{ExchangeOf};
ghost use Rattle.http_exchanges.specs.declared.exchange.Exchange.{Exchange as ExchangeSaid};

/// The bytes of one connection are one exchange.
pub fn one_exchange()
    ensures { (bytes : Seq ℕ) (one other : ExchangeSaid) → ExchangeOf bytes one → ExchangeOf bytes other → one ≡ other }
{}
