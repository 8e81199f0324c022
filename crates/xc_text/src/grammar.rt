//! Lines outside of blocks.

ghost use Rattle.std.specs.Prelude.{◌≡◌, map, IfOk, IsTrue};
ghost use Rattle.xc_tokens.specs.Answers.{Gives};
ghost use Rattle.xc_text.specs.Grammar.{is_outside_line};
ghost use Rattle.xc_text.specs.Grammar.{words_line as words_said, read_word_line as word_said, file_line as file_said};
ghost use Rattle.xc_text.specs.Grammar.{read_job_line as job_said};
ghost use Rattle.xc_text.specs.Grammar.{body_line as body_said, range as range_said};
ghost use Rattle.xc_text.specs.Grammar.{pipe_line as pipe_said, pair_line as pair_said, fault_line as fault_said, grain_line as grain_said};
ghost use Rattle.xc_text.specs.Grammar.{prologue_line as prologue_said, between_line as between_said};
ghost use Rattle.xc_tokens.specs.Literals.{only_literals as literals_alone};
ghost use Rattle.xc_tokens.specs.Views.{lexeme};

use crate::kinds::kind;
use crate::limits::MOST_PIPE_BYTES;
use crate::line::ScriptLine;
use std::alloc::Global;
use xc_data::MOST_FILE_BYTES;
use xc_tokens::{
    Stop, Token, Why, are_literals, both, contents, ident, ident_token, name, number, spells,
};

fn words_line<'a>(tokens: &[Token<'a>]) -> Result<ScriptLine<'a>, Why>
    ensures value { result ≡ words_said (map lexeme tokens.now) }
    ensures plain { IfOk result (λ line. IsTrue (is_outside_line line)) }
{
    match tokens {
        [n] => Ok(ScriptLine::Words(number(n)?)),
        _ => Err(Why::BadForm),
    }
}

fn word_line<'a>(tokens: &[Token<'a>]) -> Result<ScriptLine<'a>, Why>
    ensures value { result ≡ word_said (map lexeme tokens.now) }
    ensures plain { IfOk result (λ line. IsTrue (is_outside_line line)) }
{
    match tokens {
        [at, value] => {
            let (at, value) = both(number(at), number(value))?;
            Ok(ScriptLine::Word { at, value })
        }
        _ => Err(Why::BadForm),
    }
}

fn check_literals(tokens: &[Token]) -> Result<(), Why>
    ensures { result ≡ literals_alone (map lexeme tokens.now) }
{
    if !are_literals(tokens) {
        return Err(Why::BadForm);
    }
    Ok(())
}

fn file_line<'a>(alloc: Global, tokens: &[Token<'a>]) -> Result<ScriptLine<'a>, Stop>
    ensures value { Gives (λ line. line) result (file_said (map lexeme tokens.now)) }
    ensures plain { IfOk result (λ line. IsTrue (is_outside_line line)) }
{
    match tokens {
        [] => Err(Stop::Refused(Why::BadForm)),
        [first, literals @ ..] => {
            let (name, ()) = both(name(first), check_literals(literals))?;
            let bytes = contents(alloc, MOST_FILE_BYTES as u32, literals)?;
            Ok(ScriptLine::File { name, bytes })
        }
    }
}

fn pipe_line<'a>(alloc: Global, tokens: &[Token<'a>]) -> Result<ScriptLine<'a>, Stop>
    ensures value { Gives (λ line. line) result (pipe_said (map lexeme tokens.now)) }
    ensures plain { IfOk result (λ line. IsTrue (is_outside_line line)) }
{
    match tokens {
        [] => Err(Stop::Refused(Why::BadForm)),
        [first, literals @ ..] => {
            let (handle, ()) = both(ident_token(first), check_literals(literals))?;
            let bytes = contents(alloc, MOST_PIPE_BYTES, literals)?;
            Ok(ScriptLine::Pipe { handle, bytes })
        }
    }
}

fn pair_line<'a>(tokens: &[Token<'a>]) -> Result<ScriptLine<'a>, Why>
    ensures value { result ≡ pair_said (map lexeme tokens.now) }
    ensures plain { IfOk result (λ line. IsTrue (is_outside_line line)) }
{
    match tokens {
        [first, second] => {
            let (first, second) = both(ident_token(first), ident_token(second))?;
            Ok(ScriptLine::Pair { first, second })
        }
        _ => Err(Why::BadForm),
    }
}

fn job_line<'a>(tokens: &[Token<'a>]) -> Result<ScriptLine<'a>, Why>
    ensures value { result ≡ job_said (map lexeme tokens.now) }
    ensures plain { IfOk result (λ line. IsTrue (is_outside_line line)) }
{
    match tokens {
        [name] => Ok(ScriptLine::Job(ident(name)?)),
        _ => Err(Why::BadForm),
    }
}

fn body_line<'a>(tokens: &[Token<'a>]) -> Result<ScriptLine<'a>, Why>
    ensures value { result ≡ body_said (map lexeme tokens.now) }
    ensures plain { IfOk result (λ line. IsTrue (is_outside_line line)) }
{
    match tokens {
        [name] => Ok(ScriptLine::Body(ident(name)?)),
        _ => Err(Why::BadForm),
    }
}

// One number, or the first and the last of several.
fn range(tokens: &[Token<'_>]) -> Result<(u64, u64), Why>
    ensures { result ≡ range_said (map lexeme tokens.now) }
{
    match tokens {
        [n] => {
            let n = number(n)?;
            Ok((n, n))
        }
        [first, last] => both(number(first), number(last)),
        _ => Err(Why::BadForm),
    }
}

fn fault_line<'a>(tokens: &[Token<'a>]) -> Result<ScriptLine<'a>, Why>
    ensures value { result ≡ fault_said (map lexeme tokens.now) }
    ensures plain { IfOk result (λ line. IsTrue (is_outside_line line)) }
{
    match tokens {
        [] => Err(Why::BadForm),
        [kind_token, numbers @ ..] => {
            let (kind, (first, last)) = both(kind(kind_token), range(numbers))?;
            Ok(ScriptLine::Fault { kind, first, last })
        }
    }
}

fn grain_line<'a>(tokens: &[Token<'a>]) -> Result<ScriptLine<'a>, Why>
    ensures value { result ≡ grain_said (map lexeme tokens.now) }
    ensures plain { IfOk result (λ line. IsTrue (is_outside_line line)) }
{
    match tokens {
        [n] => Ok(ScriptLine::Grain(number(n)?)),
        _ => Err(Why::BadForm),
    }
}

/// A line before the first block.
pub fn prologue_line<'a>(
    alloc: Global,
    word: &[u8],
    rest: &[Token<'a>],
) -> Result<ScriptLine<'a>, Stop>
    ensures value { Gives (λ line. line) result (prologue_said word.now (map lexeme rest.now)) }
    ensures plain { IfOk result (λ line. IsTrue (is_outside_line line)) }
{
    if spells(word, b"words") {
        return Ok(words_line(rest)?);
    }
    if spells(word, b"word") {
        return Ok(word_line(rest)?);
    }
    if spells(word, b"file") {
        return file_line(alloc, rest);
    }
    if spells(word, b"pipe") {
        return pipe_line(alloc, rest);
    }
    if spells(word, b"pair") {
        return Ok(pair_line(rest)?);
    }
    if spells(word, b"fault") {
        return Ok(fault_line(rest)?);
    }
    if spells(word, b"grain") {
        return Ok(grain_line(rest)?);
    }
    if spells(word, b"job") {
        return Ok(job_line(rest)?);
    }
    if spells(word, b"body") {
        return Ok(body_line(rest)?);
    }
    Err(Stop::Refused(Why::UnknownLine))
}

/// A line after a block.
pub fn between_line<'a>(word: &[u8], rest: &[Token<'a>]) -> Result<ScriptLine<'a>, Why>
    ensures value { result ≡ between_said word.now (map lexeme rest.now) }
    ensures plain { IfOk result (λ line. IsTrue (is_outside_line line)) }
{
    if spells(word, b"job") {
        return job_line(rest);
    }
    if spells(word, b"body") {
        return body_line(rest);
    }
    Err(Why::UnknownLine)
}
