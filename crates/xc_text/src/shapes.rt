//! The shapes of lines: what may stand after a line's first word.

ghost use Rattle.std.specs.Prelude.{◌≡◌, ◌∷◌, [], map, IfOk};
ghost use Rattle.xc_tokens.specs.Answers.{Gives};
ghost use Rattle.xc_text.specs.Shapes.{no_tokens as bare_said, alone, led, target as target_said, slot_ending as slot_ending_said};
ghost use Rattle.xc_text.specs.Shapes.{parted as parted_said, two_targets as two_targets_said};
ghost use Rattle.xc_text.specs.Terms.{term as term_said, expression_of};
ghost use Rattle.xc_tokens.specs.Views.{lexeme};
ghost use Rattle.xc_tokens.specs.Words.{ident as ident_said, name as name_said};

use crate::file_names::FileNames;
use crate::script::{Expression, Term};
use crate::term::{expression, term};
use std::alloc::Global;
use xc_data::{NoMemory, SharedName};
use xc_tokens::{IdentWord, Stop, Token, Why, both, ident_token, is_sign};

/// Nothing.
pub fn bare(tokens: &[Token]) -> Result<(), Why>
    ensures { result ≡ bare_said (map lexeme tokens.now) }
{
    match tokens {
        [] => Ok(()),
        [_, ..] => Err(Why::BadForm),
    }
}

fn target_in<'a>(arrow: &Token, into: &Token<'a>) -> Result<Option<IdentWord<'a>>, Why>
    ensures { result ≡ target_said (lexeme arrow.now ∷ lexeme into.now ∷ []) }
{
    if !is_sign(arrow, b"->") {
        return Err(Why::BadForm);
    }
    Ok(Some(ident_token(into)?))
}

/// Nothing, or `-> V`
pub fn target<'a>(tokens: &[Token<'a>]) -> Result<Option<IdentWord<'a>>, Why>
    ensures { result ≡ target_said (map lexeme tokens.now) }
{
    match tokens {
        [] => Ok(None),
        [arrow, into] => target_in(arrow, into),
        _ => Err(Why::BadForm),
    }
}

fn two_targets_in<'a>(
    arrow: &Token,
    first: &Token<'a>,
    second: &Token<'a>,
) -> Result<Option<(IdentWord<'a>, IdentWord<'a>)>, Why>
    ensures { result ≡ two_targets_said (lexeme arrow.now ∷ lexeme first.now ∷ lexeme second.now ∷ []) }
{
    if !is_sign(arrow, b"->") {
        return Err(Why::BadForm);
    }
    Ok(Some(both(ident_token(first), ident_token(second))?))
}

/// Nothing, or `-> V W`
pub fn two_targets<'a>(tokens: &[Token<'a>]) -> Result<Option<(IdentWord<'a>, IdentWord<'a>)>, Why>
    ensures { result ≡ two_targets_said (map lexeme tokens.now) }
{
    match tokens {
        [] => Ok(None),
        [arrow, first, second] => two_targets_in(arrow, first, second),
        _ => Err(Why::BadForm),
    }
}

fn slot_in<'a>(word: &Token, slot: &Token<'a>) -> Result<Option<IdentWord<'a>>, Why>
    ensures { result ≡ slot_ending_said (lexeme word.now ∷ lexeme slot.now ∷ []) }
{
    if !is_sign(word, b"slot") {
        return Err(Why::BadForm);
    }
    Ok(Some(ident_token(slot)?))
}

/// Nothing, or `slot S`
pub fn slot_ending<'a>(tokens: &[Token<'a>]) -> Result<Option<IdentWord<'a>>, Why>
    ensures { result ≡ slot_ending_said (map lexeme tokens.now) }
{
    match tokens {
        [] => Ok(None),
        [word, slot] => slot_in(word, slot),
        _ => Err(Why::BadForm),
    }
}

/// The tokens in front of `slot S`, and those two where the tokens end so.
pub fn parted<'t, 'a>(tokens: &'t [Token<'a>]) -> (&'t [Token<'a>], &'t [Token<'a>])
    ensures front { map lexeme result.0.now ≡ (parted_said (map lexeme tokens.now)).0 }
    ensures ending { map lexeme result.1.now ≡ (parted_said (map lexeme tokens.now)).1 }
{
    match tokens {
        [.., word, _] if is_sign(word, b"slot") => tokens.split_at(tokens.len() - 2),
        _ => tokens.split_at(tokens.len()),
    }
}

fn name_alone(
    alloc: Global,
    files: &mut FileNames,
    tokens: &[Token],
) -> Result<Result<SharedName, Why>, NoMemory>
    ensures { IfOk result (λ read. read ≡ alone name_said (map lexeme tokens.now)) }
{
    match tokens {
        [file] => files.name(alloc, file),
        _ => Ok(Err(Why::BadForm)),
    }
}

fn term_alone<'a>(tokens: &[Token<'a>]) -> Result<Term<IdentWord<'a>>, Why>
    ensures { result ≡ alone term_said (map lexeme tokens.now) }
{
    match tokens {
        [only] => term(only),
        _ => Err(Why::BadForm),
    }
}

/// `H`
pub fn handle_alone<'a>(tokens: &[Token<'a>]) -> Result<IdentWord<'a>, Why>
    ensures { result ≡ alone ident_said (map lexeme tokens.now) }
{
    match tokens {
        [handle] => ident_token(handle),
        _ => Err(Why::BadForm),
    }
}

/// `T`, `T -> V`
#[inline(always)]
pub fn term_into<'a>(
    tokens: &[Token<'a>],
) -> Result<(Term<IdentWord<'a>>, Option<IdentWord<'a>>), Why>
    ensures { result ≡ led term_said target_said (map lexeme tokens.now) }
{
    match tokens {
        [] => Err(Why::BadForm),
        [first, behind @ ..] => both(term(first), target(behind)),
    }
}

/// `T E`
pub fn term_and_expression<'a>(
    tokens: &[Token<'a>],
) -> Result<(Term<IdentWord<'a>>, Expression<IdentWord<'a>>), Why>
    ensures { result ≡ led term_said expression_of (map lexeme tokens.now) }
{
    match tokens {
        [] => Err(Why::BadForm),
        [first, behind @ ..] => both(term(first), expression(behind)),
    }
}

/// `V E`
pub fn variable_and_expression<'a>(
    tokens: &[Token<'a>],
) -> Result<(IdentWord<'a>, Expression<IdentWord<'a>>), Why>
    ensures { result ≡ led ident_said expression_of (map lexeme tokens.now) }
{
    match tokens {
        [] => Err(Why::BadForm),
        [first, behind @ ..] => both(ident_token(first), expression(behind)),
    }
}

/// `NAME`, `NAME -> V`
#[inline(always)]
pub fn name_into<'a>(
    alloc: Global,
    files: &mut FileNames,
    tokens: &[Token<'a>],
) -> Result<(SharedName, Option<IdentWord<'a>>), Stop>
    ensures { Gives (λ read. read) result (led name_said target_said (map lexeme tokens.now)) }
{
    match tokens {
        [] => Err(Stop::Refused(Why::BadForm)),
        [first, behind @ ..] => {
            let name = files.name(alloc, first)?;
            Ok(both(name, target(behind))?)
        }
    }
}

/// `NAME NAME`
pub fn two_names(
    alloc: Global,
    files: &mut FileNames,
    tokens: &[Token],
) -> Result<(SharedName, SharedName), Stop>
    ensures { Gives (λ read. read) result (led name_said (alone name_said) (map lexeme tokens.now)) }
{
    match tokens {
        [] => Err(Stop::Refused(Why::BadForm)),
        [first, behind @ ..] => {
            let from = files.name(alloc, first)?;
            let to = name_alone(alloc, files, behind)?;
            Ok(both(from, to)?)
        }
    }
}

/// `NAME`, `NAME slot S`
pub fn name_and_slot<'a>(
    alloc: Global,
    files: &mut FileNames,
    tokens: &[Token<'a>],
) -> Result<(SharedName, Option<IdentWord<'a>>), Stop>
    ensures { Gives (λ read. read) result (led name_said slot_ending_said (map lexeme tokens.now)) }
{
    match tokens {
        [] => Err(Stop::Refused(Why::BadForm)),
        [first, behind @ ..] => {
            let name = files.name(alloc, first)?;
            Ok(both(name, slot_ending(behind))?)
        }
    }
}

/// `H`, `H -> V`
pub fn handle_into<'a>(tokens: &[Token<'a>]) -> Result<(IdentWord<'a>, Option<IdentWord<'a>>), Why>
    ensures { result ≡ led ident_said target_said (map lexeme tokens.now) }
{
    match tokens {
        [] => Err(Why::BadForm),
        [first, behind @ ..] => both(ident_token(first), target(behind)),
    }
}

/// `H T`, `H T -> V`
pub fn handle_term_into<'a>(
    tokens: &[Token<'a>],
) -> Result<(IdentWord<'a>, (Term<IdentWord<'a>>, Option<IdentWord<'a>>)), Why>
    ensures { result ≡ led ident_said (led term_said target_said) (map lexeme tokens.now) }
{
    match tokens {
        [] => Err(Why::BadForm),
        [first, behind @ ..] => both(ident_token(first), term_into(behind)),
    }
}

/// `H T`
pub fn handle_and_term<'a>(
    tokens: &[Token<'a>],
) -> Result<(IdentWord<'a>, Term<IdentWord<'a>>), Why>
    ensures { result ≡ led ident_said (alone term_said) (map lexeme tokens.now) }
{
    match tokens {
        [] => Err(Why::BadForm),
        [first, behind @ ..] => both(ident_token(first), term_alone(behind)),
    }
}

/// `H`, `H slot S`, or the name of a block in place of `H`
pub fn ident_and_slot<'a>(
    tokens: &[Token<'a>],
) -> Result<(IdentWord<'a>, Option<IdentWord<'a>>), Why>
    ensures { result ≡ led ident_said slot_ending_said (map lexeme tokens.now) }
{
    match tokens {
        [] => Err(Why::BadForm),
        [first, behind @ ..] => both(ident_token(first), slot_ending(behind)),
    }
}
