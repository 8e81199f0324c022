//! The lines of a transaction. Each is read, its names take their places, and it is kept.

ghost use Rattle.std.specs.Prelude.{◌≡◌, ◌∷◌, [], map};
ghost use Rattle.xc_text.specs.declared.script.Statement.TheVariants as statement;
ghost use Rattle.xc_text.specs.Statements.{abort_line as abort_said, let_line as let_said, require_line as require_said};
ghost use Rattle.xc_text.specs.Statements.{condition as condition_said, save_line as save_said, keep_line as keep_said};
ghost use Rattle.xc_text.specs.Statements.{back_line as back_said, outer_statement as outer_said, inner_statement as inner_said};
ghost use Rattle.xc_text.specs.Statements.{statement_line as statement_said};
ghost use Rattle.xc_text.specs.Steps.{stated, stated_by};
ghost use Rattle.xc_text.specs.Terms.{term as term_of_token, test as test_of_token};
ghost use Rattle.xc_tokens.specs.Answers.{Gives, both as together};
ghost use Rattle.xc_tokens.specs.Views.{lexeme};

use crate::draft::Draft;
use crate::places::{place_expression, place_term};
use crate::script::{CallForm, Statement, Term, Test};
use crate::shapes::{bare, variable_and_expression};
use crate::term::{term, test};
use std::alloc::Global;
use xc_tokens::{IdentWord, Stop, Token, Why, both, is_sign, spells};

/// A term, and the test with another one.
type Condition<'a> = (Term<IdentWord<'a>>, (Test, Term<IdentWord<'a>>));

fn test_with<'a>(sign: &Token, right: &Token<'a>) -> Result<(Test, Term<IdentWord<'a>>), Why>
    ensures { result ≡ together (test_of_token (lexeme sign.now)) (term_of_token (lexeme right.now)) }
{
    both(test(sign), term(right))
}

#[inline(always)]
fn condition_in<'a>(
    word: &Token,
    left: &Token<'a>,
    sign: &Token,
    right: &Token<'a>,
) -> Result<Option<Condition<'a>>, Why>
    ensures { result ≡ condition_said (lexeme word.now ∷ lexeme left.now ∷ lexeme sign.now ∷ lexeme right.now ∷ []) }
{
    if !is_sign(word, b"if") {
        return Err(Why::BadForm);
    }
    Ok(Some(both(term(left), test_with(sign, right))?))
}

// Nothing, or `if T OP T`
#[inline(always)]
fn condition<'a>(rest: &[Token<'a>]) -> Result<Option<Condition<'a>>, Why>
    ensures { result ≡ condition_said (map lexeme rest.now) }
{
    match rest {
        [] => Ok(None),
        [word, left, sign, right] => condition_in(word, left, sign, right),
        _ => Err(Why::BadForm),
    }
}

impl Draft {
    fn read_let(&mut self, rest: &[Token]) -> Result<(), Stop>
        ensures { Gives (λ _. self.new) result (stated_by self.old (let_said (map lexeme rest.now))) }
    {
        let (into, value) = variable_and_expression(rest)?;
        let into = self.names.variable(&into)?;
        let value = place_expression(&mut self.names, &value)?;
        self.keep(Statement::Let { into, value })
    }

    fn abort_if(
        &mut self,
        left: &Term<IdentWord>,
        test: Test,
        right: &Term<IdentWord>,
    ) -> Result<(), Stop>
        ensures { Gives (λ _. self.new) result (stated self.old (statement.AbortIf left.now test right.now)) }
    {
        let left = place_term(&mut self.names, left)?;
        let right = place_term(&mut self.names, right)?;
        self.keep(Statement::AbortIf { left, test, right })
    }

    fn read_abort(&mut self, rest: &[Token]) -> Result<(), Stop>
        ensures { Gives (λ _. self.new) result (stated_by self.old (abort_said (map lexeme rest.now))) }
    {
        match condition(rest)? {
            None => self.keep(Statement::Abort),
            Some((left, (test, right))) => self.abort_if(&left, test, &right),
        }
    }

    fn read_require(&mut self, rest: &[Token]) -> Result<(), Stop>
        ensures { Gives (λ _. self.new) result (stated_by self.old (require_said (map lexeme rest.now))) }
    {
        bare(rest)?;
        self.keep(Statement::Require)
    }

    // A statement of the places of both kinds: in an inner block, and outside of it.
    fn read_statement(&mut self, alloc: Global, word: &[u8], rest: &[Token]) -> Result<(), Stop>
        ensures { Gives (λ _. self.new) result (stated_by self.old (statement_said word.now (map lexeme rest.now))) }
    {
        if spells(word, b"let") {
            return self.read_let(rest);
        }
        if spells(word, b"abort") {
            return self.read_abort(rest);
        }
        if spells(word, b"require") {
            return self.read_require(rest);
        }
        self.read_call(alloc, word, rest)
    }

    fn read_save(&mut self, rest: &[Token]) -> Result<(), Stop>
        ensures { Gives (λ _. self.new) result (stated_by self.old (save_said (map lexeme rest.now))) }
    {
        bare(rest)?;
        self.keep(Statement::Call(CallForm::Save))
    }

    /// Reads the statement that a line of a transaction is, outside of its inner blocks.
    pub(super) fn read_outer_statement(
        &mut self,
        alloc: Global,
        word: &[u8],
        rest: &[Token],
    ) -> Result<(), Stop>
        ensures { Gives (λ _. self.new) result (stated_by self.old (outer_said word.now (map lexeme rest.now))) }
    {
        if spells(word, b"save") {
            return self.read_save(rest);
        }
        self.read_statement(alloc, word, rest)
    }

    fn read_keep(&mut self, rest: &[Token]) -> Result<(), Stop>
        ensures { Gives (λ _. self.new) result (stated_by self.old (keep_said (map lexeme rest.now))) }
    {
        bare(rest)?;
        self.keep(Statement::Call(CallForm::Keep))
    }

    fn back_if(
        &mut self,
        left: &Term<IdentWord>,
        test: Test,
        right: &Term<IdentWord>,
    ) -> Result<(), Stop>
        ensures { Gives (λ _. self.new) result (stated self.old (statement.BackIf left.now test right.now)) }
    {
        let left = place_term(&mut self.names, left)?;
        let right = place_term(&mut self.names, right)?;
        self.keep(Statement::BackIf { left, test, right })
    }

    fn read_back(&mut self, rest: &[Token]) -> Result<(), Stop>
        ensures { Gives (λ _. self.new) result (stated_by self.old (back_said (map lexeme rest.now))) }
    {
        match condition(rest)? {
            None => self.keep(Statement::Call(CallForm::Back)),
            Some((left, (test, right))) => self.back_if(&left, test, &right),
        }
    }

    /// Reads the statement that a line of an inner block is.
    pub(super) fn read_inner_statement(
        &mut self,
        alloc: Global,
        word: &[u8],
        rest: &[Token],
    ) -> Result<(), Stop>
        ensures { Gives (λ _. self.new) result (stated_by self.old (inner_said word.now (map lexeme rest.now))) }
    {
        if spells(word, b"keep") {
            return self.read_keep(rest);
        }
        if spells(word, b"back") {
            return self.read_back(rest);
        }
        self.read_statement(alloc, word, rest)
    }
}
