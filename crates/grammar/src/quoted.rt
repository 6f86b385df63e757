//! What stands between the quotes of a text literal.
ghost use Rattle.std.specs.Prelude.{◌≡◌, false};
ghost use Rattle.vec_literal.specs.LiteralValues.{undoubled};

use std::marker::Model;

/// What a text literal encloses, as the text spells it: each quote in it is doubled. Contracts see the bytes that it stands
/// for.
#[derive(Debug, Drop)]
pub struct Quoted<'a> {
    spelling: &'a [u8],
}

impl<'a> Model for Quoted<'a> {
    ghost use Rattle.std.specs.Prelude.{List as Seq, ℕ, false};
    ghost use Rattle.vec_literal.specs.LiteralValues.{undoubled};

    ghost Value = { Seq ℕ };

    ghost view = { λ q. undoubled false q.spelling.now };
}

impl<'a> Quoted<'a> {
    /// What is spelled so.
    pub fn new(spelling: &'a [u8]) -> Quoted<'a>
        ensures { result ≡ undoubled false spelling.now }
    {
        Quoted { spelling }
    }

    /// The bytes as they stand in the text.
    pub fn spelling(&self) -> &'a [u8]
        ensures { self.now ≡ undoubled false result.now }
    {
        self.spelling
    }
}
