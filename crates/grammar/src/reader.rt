//! A reader of tokens with one of them at hand.
ghost use Rattle.std.specs.Prelude.{◌≡◌, true, false, ◌≤◌, length};
ghost use Rattle.vec_literal.specs.Tokens.{is_right};
ghost use Rattle.grammar.specs.Grammar.{lowered};
ghost use Rattle.vec_base.specs.Words.{is_reserved};

use crate::numbers::{
    GREATEST_AFTER_MINUS, GREATEST_NUMBER, decimal_value, negated, parameter_number, raised,
};
use crate::quoted::Quoted;
use crate::words::{is_reserved, unsupported_number};
use std::alloc::Global;
use vec_base::{Bytes, MOST_NAME_BYTES, MOST_PARAMETERS, Memory, Refusal, Txt};
use vec_literal::{Lexed, TokenSort, between_quotes, next_token, read_blob, read_text};

/// Why a part is not read: memory was wanted, or the token at hand does not fit.
#[derive(Clone, Copy, Debug, Drop)]
pub enum Stop {
    Memory,
    Here,
}

impl From<Memory> for Stop {
    ghost use Rattle.grammar.specs.declared.reader.Stop.TheVariants.{Memory as want};

    ghost from_gives = { λ _ e. e ≡ want };

    fn from(_: Memory) -> Stop {
        Stop::Memory
    }
}

/// A text that is read token by token, from left to right, with one token at hand.
#[derive(Drop)]
pub struct Reader<'a> {
    alloc: Global,
    text: &'a [u8],
    ahead: Lexed,
    /// The greatest number of a parameter so far, where each plain `?` has the number one above it.
    greatest: Option<u16>,
    ghost right: { is_right text.now ahead ≡ true },
}

impl<'a> Reader<'a> {
    ghost use Rattle.std.specs.Prelude.{◌≡◌, ℕ, ℤ, pos, ◌-ℤ◌, [], ◌∷◌, drop, map, vec_items, ◌||◌, Some, IfOk, MatchBool};
    ghost use Rattle.vec_literal.specs.Tokens.{tokens};
    ghost use Rattle.vec_literal.specs.LiteralValues.{blob_value};
    ghost use Rattle.vec_literal.specs.declared.token.TokenSort.TheVariants.{Word as word_sort, Param as param_sort};
    ghost use Rattle.grammar.specs.inner.ReaderResults.{rest_of, spelled_rest, Gives, first_of, AtNumber, AtParameter, next_number, is_well_spelled, is_well_spelled_parameter, place_of};
    ghost use Rattle.grammar.specs.FailingToken.{refusal_of};
    ghost use Rattle.grammar.specs.Grammar.{keyword, name as name_class, number as number_class, text_literal as text_class, blob_literal as blob_class, parameter as parameter_class, sign, means, a_word, a_mark, a_placed_mark, a_name, a_number, a_number_after_minus, a_signed_number, a_text, a_placed_text, a_blob, a_parameter, lower, text_of, is_sort};
    ghost use Rattle.grammar.specs.Parameters.{numbered_tokens};
    ghost use Rattle.vec_base.specs.Words.{is_name};
    ghost use Rattle.grammar.specs.inner.Reading.{next_in, read, starts};

    /// A reader of the text from a place on.
    pub fn new(alloc: Global, text: &'a [u8], from: usize) -> Reader<'a>
        requires { from ≤ length text.now }
        ensures { rest_of result ≡ tokens text.now from }
    {
        Reader {
            alloc,
            text,
            ahead: next_token(text, from),
            greatest: None,
        }
    }

    /// A reader of the text, in which a plain `?` has the number one above the greatest so far.
    pub fn with_parameters(alloc: Global, text: &'a [u8]) -> Reader<'a>
        ensures { rest_of result ≡ numbered_tokens text.now }
    {
        Reader {
            alloc,
            text,
            ahead: next_token(text, 0),
            greatest: Some(0),
        }
    }

    /// Passes the token at hand, which is no parameter.
    fn step(&mut self)
        requires { is_sort param_sort (first_of (rest_of self.now)).sort ≡ false }
        ensures { rest_of self.new ≡ drop 1 (rest_of self.old) }
    {
        self.advance();
    }

    /// Passes the parameter at hand, which has the number.
    fn step_over_parameter(&mut self, number: u16)
        requires { AtParameter (Some number) (rest_of self.now) }
        ensures { rest_of self.new ≡ drop 1 (rest_of self.old) }
    {
        self.greatest = raised(self.greatest, number);
        self.advance();
    }

    /// Passes the token at hand, whatever it is.
    fn advance(&mut self)
        ensures rest { spelled_rest self.new ≡ drop 1 (spelled_rest self.old) }
        ensures greatest { self.new.greatest ≡ self.old.greatest }
    {
        self.ahead = match self.ahead {
            Lexed::Found(token) => next_token(self.text, token.upto),
            Lexed::End | Lexed::Bad(_) => Lexed::End,
        };
    }

    /// Whether a token of the sort is at hand.
    #[tactic(auto, using(crate::proofs::Numbering::at_kept))]
    fn at_sort(&self, sort: TokenSort) -> bool
        ensures { result ≡ is_sort sort (first_of (rest_of self.now)).sort }
    {
        match self.ahead {
            Lexed::Found(token) => token.sort == sort,
            Lexed::End => false,
            Lexed::Bad(_) => false,
        }
    }

    /// The bytes of the token at hand, as it stands in the text.
    #[tactic(auto, using(crate::proofs::Places::right_spelled, crate::proofs::Places::right_parameter_spelled))]
    fn spelling(&self) -> &'a [u8]
        ensures value { result.now ≡ (first_of (spelled_rest self.now)).spelling }
        ensures well_spelled { is_well_spelled (first_of (spelled_rest self.now)) ≡ true }
        ensures parameter { is_well_spelled_parameter (first_of (spelled_rest self.now)) ≡ true }
    {
        match self.ahead {
            Lexed::Found(token) => &self.text[token.from..token.upto],
            Lexed::End => &[],
            Lexed::Bad(_) => &[],
        }
    }

    /// The bytes of the token at hand, which is no parameter.
    fn bytes(&self) -> &'a [u8]
        requires { is_sort param_sort (first_of (rest_of self.now)).sort ≡ false }
        ensures value { result.now ≡ (first_of (rest_of self.now)).spelling }
        ensures well_spelled { is_well_spelled (first_of (rest_of self.now)) ≡ true }
    {
        self.spelling()
    }

    /// Whether the token at hand is the word, in any case.
    pub fn at_word(&self, word: &[u8]) -> bool
        ensures { result ≡ next_in (keyword word.now ∷ []) (rest_of self.now) }
    {
        self.at_sort(TokenSort::Word) && self.bytes().eq_ignore_ascii_case(word)
    }

    /// Whether the token at hand is the mark.
    pub fn at_mark(&self, mark: &[u8]) -> bool
        ensures { result ≡ next_in (sign mark.now ∷ []) (rest_of self.now) }
    {
        self.at_sort(TokenSort::Mark) && self.bytes() == mark
    }

    /// Whether a text literal is at hand.
    #[tactic(auto, using(crate::proofs::Places::text_at))]
    pub fn at_text(&self) -> bool
        ensures { result ≡ next_in (text_class ∷ []) (rest_of self.now) }
    {
        self.at_sort(TokenSort::TextLit)
    }

    /// Whether a blob literal is at hand.
    #[tactic(auto, using(crate::proofs::Places::blob_at))]
    pub fn at_blob(&self) -> bool
        ensures { result ≡ next_in (blob_class ∷ []) (rest_of self.now) }
    {
        self.at_sort(TokenSort::BlobLit)
    }

    /// Reads the word, in any case.
    #[tactic(auto, using(crate::proofs::Places::means_fits, crate::proofs::Places::means_fails, crate::proofs::Numbering::word_no_parameter))]
    pub fn word(&mut self, word: &[u8]) -> Result<(), Stop>
        ensures { Gives (λ x. x) result (read (a_word word.now) (rest_of self.old)) (rest_of self.new) }
    {
        if self.at_word(word) {
            self.step();
            Ok(())
        } else {
            Err(Stop::Here)
        }
    }

    /// Reads the mark.
    #[tactic(auto, using(crate::proofs::Places::means_fits, crate::proofs::Places::means_fails, crate::proofs::Numbering::mark_no_parameter))]
    pub fn mark(&mut self, mark: &[u8]) -> Result<(), Stop>
        ensures { Gives (λ x. x) result (read (a_mark mark.now) (rest_of self.old)) (rest_of self.new) }
    {
        if self.at_mark(mark) {
            self.step();
            Ok(())
        } else {
            Err(Stop::Here)
        }
    }

    /// Whether a name is at hand: a word of at most 64 bytes that is not reserved.
    pub fn at_name(&self) -> bool
        ensures { result ≡ next_in (name_class ∷ []) (rest_of self.now) }
    {
        if !self.at_sort(TokenSort::Word) {
            return false;
        }
        let bytes = self.bytes();
        bytes.len() <= MOST_NAME_BYTES && !is_reserved(bytes)
    }

    /// The word at hand as text.
    fn word_text(&self) -> &str
        requires { is_sort word_sort (first_of (rest_of self.now)).sort ≡ true }
        ensures value { result.now ≡ (first_of (rest_of self.now)).spelling }
        ensures well_spelled { is_well_spelled (first_of (rest_of self.now)) ≡ true }
    {
        match str::from_utf8(self.bytes()) {
            Ok(text) => text,
            Err(_) => "",
        }
    }

    /// The name at hand, in lower case.
    fn lowered(&self) -> Result<Txt, Memory>
        requires { next_in (name_class ∷ []) (rest_of self.now) ≡ true }
        ensures lower { IfOk result (λ t. t ≡ lower (first_of (rest_of self.now))) }
        ensures name { IfOk result (λ t. is_name t ≡ true) }
    {
        let mut text = String::from_str(self.alloc, self.word_text())?;
        text.make_ascii_lowercase();
        Ok(Txt::from_string(text))
    }

    /// Reads a name, in lower case.
    #[tactic(auto, using(crate::proofs::Places::means_fits, crate::proofs::Places::means_fails, crate::proofs::Numbering::name_no_parameter))]
    pub fn name(&mut self) -> Result<Txt, Stop>
        ensures reads { Gives (λ t. t) result (read a_name (rest_of self.old)) (rest_of self.new) }
        ensures name { IfOk result (λ t. is_name t ≡ true) }
    {
        if !self.at_name() {
            return Err(Stop::Here);
        }
        let name = self.lowered()?;
        self.step();
        Ok(name)
    }

    /// The value of the number at hand, if a number of at most `greatest` is at hand.
    fn number_at(&self, greatest: u64) -> Option<u64>
        ensures { AtNumber greatest result (rest_of self.now) }
    {
        if !self.at_sort(TokenSort::Number) {
            return None;
        }
        decimal_value(self.bytes(), greatest)
    }

    /// Whether a number of at most `i64::MAX` is at hand.
    #[tactic(auto, using(crate::proofs::Numbering::number_tested))]
    pub fn at_number(&self) -> bool
        ensures { result ≡ next_in (number_class ∷ []) (rest_of self.now) }
    {
        self.number_at(GREATEST_NUMBER).is_some()
    }

    /// Reads a number of at most `i64::MAX`.
    #[tactic(auto, using(crate::proofs::Places::means_fits, crate::proofs::Places::means_fails, crate::proofs::Numbering::number_no_parameter, crate::proofs::Numbering::number_taken, crate::proofs::Numbering::number_missed))]
    pub fn number(&mut self) -> Result<u64, Stop>
        ensures { Gives (λ x. x) result (read a_number (rest_of self.old)) (rest_of self.new) }
    {
        match self.number_at(GREATEST_NUMBER) {
            Some(value) => {
                self.step();
                Ok(value)
            }
            None => Err(Stop::Here),
        }
    }

    /// Reads a number without a sign.
    #[tactic(auto, using(crate::proofs::Places::means_fits, crate::proofs::Places::means_fails, crate::proofs::Numbering::number_no_parameter, crate::proofs::Numbering::number_taken, crate::proofs::Numbering::number_missed))]
    fn natural(&mut self) -> Result<i64, Stop>
        ensures { Gives (λ z. z) result (read (means (λ n. pos n) a_number) (rest_of self.old)) (rest_of self.new) }
    {
        match self.number_at(GREATEST_NUMBER) {
            Some(value) => {
                self.step();
                Ok(value as i64)
            }
            None => Err(Stop::Here),
        }
    }

    /// Reads the number behind `-`.
    #[tactic(auto, using(crate::proofs::Places::means_fits, crate::proofs::Places::means_fails, crate::proofs::Numbering::number_no_parameter, crate::proofs::Numbering::after_minus_taken, crate::proofs::Numbering::after_minus_missed))]
    fn negative(&mut self) -> Result<i64, Stop>
        ensures { Gives (λ z. z) result (read (means (λ n. pos 0 -ℤ pos n) a_number_after_minus) (rest_of self.old)) (rest_of self.new) }
    {
        match self.number_at(GREATEST_AFTER_MINUS) {
            Some(value) => {
                self.step();
                Ok(negated(value))
            }
            None => Err(Stop::Here),
        }
    }

    /// Whether a sign or a number without a sign is at hand.
    #[tactic(auto, using(crate::proofs::Places::next_more), unfolding(crate::specs::Grammar::a_signed_number))]
    pub fn at_signed_number(&self) -> bool
        ensures { result ≡ starts a_signed_number (rest_of self.now) }
    {
        self.at_mark(b"+") || self.at_mark(b"-") || self.at_number()
    }

    /// Reads a number with a sign or without one.
    #[tactic(auto, unfolding(crate::specs::Grammar::a_signed_number))]
    pub fn signed_number(&mut self) -> Result<i64, Stop>
        ensures { Gives (λ z. z) result (read a_signed_number (rest_of self.old)) (rest_of self.new) }
    {
        if self.at_mark(b"+") {
            self.mark(b"+")?;
            self.natural()
        } else if self.at_mark(b"-") {
            self.mark(b"-")?;
            self.negative()
        } else {
            self.natural()
        }
    }

    /// The text of the text literal at hand.
    #[tactic(auto, using(crate::proofs::Numbering::text_no_parameter, crate::proofs::Numbering::text_spelled))]
    fn text_at_hand(&self) -> Result<Txt, Memory>
        requires { next_in (text_class ∷ []) (rest_of self.now) ≡ true }
        ensures { IfOk result (λ t. t ≡ text_of (first_of (rest_of self.now))) }
    {
        read_text(self.alloc, self.bytes())
    }

    /// Reads a text literal: the text that it stands for.
    #[tactic(auto, using(crate::proofs::Places::means_fits, crate::proofs::Places::means_fails, crate::proofs::Numbering::text_no_parameter))]
    pub fn text(&mut self) -> Result<Txt, Stop>
        ensures { Gives (λ t. t) result (read a_text (rest_of self.old)) (rest_of self.new) }
    {
        if !self.at_text() {
            return Err(Stop::Here);
        }
        let text = self.text_at_hand()?;
        self.step();
        Ok(text)
    }

    /// Reads a text literal: its place, and the text that it stands for.
    #[tactic(auto, using(crate::proofs::Places::means_fits, crate::proofs::Places::means_fails, crate::proofs::Numbering::text_no_parameter))]
    pub fn placed_text(&mut self) -> Result<(usize, Txt), Stop>
        ensures { Gives (λ x. x) result (read a_placed_text (rest_of self.old)) (rest_of self.new) }
    {
        if !self.at_text() {
            return Err(Stop::Here);
        }
        let place = self.place(0);
        let text = self.text_at_hand()?;
        self.step();
        Ok((place, text))
    }

    /// Reads a text literal: its place, and what stands between its quotes, which is not copied.
    #[tactic(auto, using(crate::proofs::Places::means_fits, crate::proofs::Places::means_fails, crate::proofs::Numbering::text_no_parameter, crate::proofs::Numbering::text_spelled))]
    pub fn quoted(&mut self) -> Result<(usize, Quoted<'a>), Stop>
        ensures { Gives (λ x. x) result (read a_placed_text (rest_of self.old)) (rest_of self.new) }
    {
        if !self.at_text() {
            return Err(Stop::Here);
        }
        let place = self.place(0);
        let quoted = Quoted::new(between_quotes(self.bytes()));
        self.step();
        Ok((place, quoted))
    }

    /// The bytes of the blob literal at hand.
    #[tactic(auto, using(crate::proofs::Numbering::blob_no_parameter, crate::proofs::Numbering::blob_spelled))]
    fn blob_at_hand(&self) -> Result<Bytes, Memory>
        requires { next_in (blob_class ∷ []) (rest_of self.now) ≡ true }
        ensures { IfOk result (λ b. b ≡ blob_value (first_of (rest_of self.now)).spelling) }
    {
        read_blob(self.alloc, self.bytes())
    }

    /// Reads a blob literal: the bytes that it stands for.
    #[tactic(auto, using(crate::proofs::Places::means_fits, crate::proofs::Places::means_fails, crate::proofs::Numbering::blob_no_parameter))]
    pub fn blob(&mut self) -> Result<Bytes, Stop>
        ensures { Gives (λ b. b) result (read a_blob (rest_of self.old)) (rest_of self.new) }
    {
        if !self.at_blob() {
            return Err(Stop::Here);
        }
        let blob = self.blob_at_hand()?;
        self.step();
        Ok(blob)
    }

    /// The digits of the parameter at hand.
    fn digits(&self) -> &'a [u8]
        requires { is_sort param_sort (first_of (rest_of self.now)).sort ≡ true }
        ensures value { result.now ≡ drop 1 (first_of (spelled_rest self.now)).spelling }
        ensures well_spelled { is_well_spelled_parameter (first_of (spelled_rest self.now)) ≡ true }
    {
        &self.spelling()[1..]
    }

    /// The number that a plain `?` gets, if one is left.
    fn next_number(&self) -> Option<u16>
        ensures { result ≡ next_number self.now.greatest }
    {
        match self.greatest {
            Some(greatest) if greatest < MOST_PARAMETERS => Some(greatest + 1),
            _ => None,
        }
    }

    /// The number of the parameter at hand, if one with a number that fits is at hand.
    fn parameter_at(&self) -> Option<u16>
        ensures { AtParameter result (rest_of self.now) }
    {
        if !self.at_sort(TokenSort::Param) {
            return None;
        }
        let digits = self.digits();
        if digits.is_empty() {
            self.next_number()
        } else {
            parameter_number(digits)
        }
    }

    /// Whether a parameter with a number from 1 to `MOST_PARAMETERS` is at hand.
    #[tactic(auto, using(crate::proofs::Numbering::parameter_tested))]
    pub fn at_parameter(&self) -> bool
        ensures { result ≡ next_in (parameter_class ∷ []) (rest_of self.now) }
    {
        self.parameter_at().is_some()
    }

    /// Reads a parameter: its number, from 1 to `MOST_PARAMETERS`.
    #[tactic(auto, using(crate::proofs::Places::means_fits, crate::proofs::Places::means_fails, crate::proofs::Numbering::parameter_small))]
    pub fn parameter(&mut self) -> Result<u16, Stop>
        ensures reads { Gives (λ n. n) result (read a_parameter (rest_of self.old)) (rest_of self.new) }
        ensures small { IfOk result (λ n. n ≤ MOST_PARAMETERS) }
    {
        match self.parameter_at() {
            Some(number) => {
                self.step_over_parameter(number);
                Ok(number)
            }
            None => Err(Stop::Here),
        }
    }

    /// Reads the mark: its place.
    #[tactic(auto, using(crate::proofs::Places::means_fits, crate::proofs::Places::means_fails, crate::proofs::Numbering::mark_no_parameter))]
    pub fn placed_mark(&mut self, mark: &[u8]) -> Result<usize, Stop>
        ensures { Gives (λ p. p) result (read (a_placed_mark mark.now) (rest_of self.old)) (rest_of self.new) }
    {
        let place = self.place(0);
        if self.at_mark(mark) {
            self.step();
            Ok(place)
        } else {
            Err(Stop::Here)
        }
    }

    /// Whether no token is left.
    #[tactic(auto, using(crate::proofs::Numbering::none_kept, crate::proofs::Numbering::some_kept))]
    pub fn is_done(&self) -> bool
        ensures { MatchBool result (rest_of self.now ≡ []) (rest_of self.now ≡ [] → ⊥) }
    {
        match self.ahead {
            Lexed::Found(_) => false,
            Lexed::End => true,
            Lexed::Bad(_) => false,
        }
    }

    /// The refusal of a text, of this length in bytes, in which the token at hand does not fit.
    pub fn refusal(&self, end: usize) -> Refusal
        ensures { result ≡ refusal_of end (rest_of self.now) }
    {
        if self.at_sort(TokenSort::Word) {
            if let Some(number) = unsupported_number(self.bytes()) {
                return Refusal::Unsupported(number);
            }
        }
        Refusal::Syntax(self.place(end) as u64)
    }

    /// The place of the token at hand, or `end` where none is left.
    #[tactic(auto, using(crate::proofs::Numbering::placed_kept))]
    pub fn place(&self, end: usize) -> usize
        ensures { result ≡ place_of end (rest_of self.now) }
    {
        match self.ahead {
            Lexed::Found(token) => token.from,
            Lexed::End => end,
            Lexed::Bad(place) => place,
        }
    }
}
