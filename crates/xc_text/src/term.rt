ghost use Rattle.std.specs.Prelude.{◌≡◌, ◌∷◌, [], map};
ghost use Rattle.xc_text.specs.Terms.{term as term_of_token, term_in, test as test_of_token, test_in, expression_of};
ghost use Rattle.xc_tokens.specs.Views.{lexeme};

use crate::packed::PackedU64;
use crate::script::{Expression, Term, Test};
use xc_tokens::{
    IdentWord, Token, Why, both, by_word, ident_word, is_digit_byte, is_sign, number_word,
};

/// What a word in the place of a term means.
#[inline(always)]
pub fn term_word<'a>(word: &'a [u8]) -> Result<Term<IdentWord<'a>>, Why>
    ensures { result ≡ term_in word.now }
{
    match word {
        [first, ..] if is_digit_byte(*first) => Ok(Term::Number(PackedU64::of(number_word(word)?))),
        [b'?', slot @ ..] => Ok(Term::Slot(ident_word(slot)?)),
        _ => Ok(Term::Variable(ident_word(word)?)),
    }
}

/// What is read where a term is due.
#[inline(always)]
pub fn term<'a>(token: &Token<'a>) -> Result<Term<IdentWord<'a>>, Why>
    ensures { result ≡ term_of_token (lexeme token.now) }
{
    match token {
        Token::Word(word) => term_word(word),
        Token::Plain { .. } | Token::Escaped { .. } => Err(Why::BadForm),
    }
}

/// The signs of tests.
const SIGNS: [(&[u8], Test); 6] = [
    (b"=", Test::Equal),
    (b"!=", Test::NotEqual),
    (b"<", Test::Less),
    (b"<=", Test::AtMost),
    (b">", Test::Greater),
    (b">=", Test::AtLeast),
];

#[tactic(auto, unfolding(crate::specs::Terms::signs))]
fn test_word(word: &[u8]) -> Result<Test, Why>
    ensures { result ≡ test_in word.now }
{
    match by_word(&SIGNS, word) {
        Some(test) => Ok(test),
        None => Err(Why::BadForm),
    }
}

/// What is read where a test is due.
pub fn test(token: &Token) -> Result<Test, Why>
    ensures { result ≡ test_of_token (lexeme token.now) }
{
    match token {
        Token::Word(word) => test_word(word),
        Token::Plain { .. } | Token::Escaped { .. } => Err(Why::BadForm),
    }
}

#[inline(always)]
fn two_terms<'a>(
    a: &Token<'a>,
    sign: &Token,
    b: &Token<'a>,
) -> Result<Expression<IdentWord<'a>>, Why>
    ensures { result ≡ expression_of (lexeme a.now ∷ lexeme sign.now ∷ lexeme b.now ∷ []) }
{
    if is_sign(sign, b"+") {
        let (a, b) = both(term(a), term(b))?;
        return Ok(Expression::Sum(a, b));
    }
    if is_sign(sign, b"-") {
        let (a, b) = both(term(a), term(b))?;
        return Ok(Expression::Difference(a, b));
    }
    Err(Why::BadForm)
}

/// A term, or two with their sign.
#[inline(always)]
pub fn expression<'a>(tokens: &[Token<'a>]) -> Result<Expression<IdentWord<'a>>, Why>
    ensures { result ≡ expression_of (map lexeme tokens.now) }
{
    match tokens {
        [a] => Ok(Expression::Term(term(a)?)),
        [a, sign, b] => two_terms(a, sign, b),
        _ => Err(Why::BadForm),
    }
}
