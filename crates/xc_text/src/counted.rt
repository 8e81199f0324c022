ghost use Rattle.std.specs.Prelude.{◌≡◌, ◌≤◌, ◌++◌, ◌∷◌, [], count_by, IfOk, OnOk, OnErr};
ghost use Rattle.xc_text.specs.Inner.{form_open, open_behind, is_open};
ghost use Rattle.xc_text.specs.Steps.{is_call, has_few_calls};

use crate::kept::KeptStatement;
use crate::limits::MOST_CALLS;
use crate::script::{Body, CallForm, NameIndex, Statement};
use std::alloc::Global;
use std::marker::Model;
use xc_data::{Items, NoMemory};

/// The statements of a transaction, how many of them are calls, and whether an inner block is open behind them.
#[derive(Drop)]
pub struct CountedBody {
    statements: Vec<KeptStatement>,
    calls: u32,
    in_block: bool,
}

impl Model for CountedBody {
    ghost use Rattle.std.specs.Prelude.{◌≡◌, List, count_by};
    ghost use Rattle.xc_text.specs.Inner.{is_open};
    ghost use Rattle.xc_text.specs.Stated.{Statement};
    ghost use Rattle.xc_text.specs.Steps.{is_call};

    ghost Value = { List Statement };

    ghost view = { λ a. a.statements.items };

    ghost invariant = { λ a. (a.calls ≡ count_by is_call a.statements.items) × (a.in_block ≡ is_open a.statements.items) };
}

fn is_call(statement: &Statement<NameIndex>) -> bool
    ensures { result ≡ is_call statement.now }
{
    match statement {
        Statement::Call(_) => true,
        Statement::Let { .. } | Statement::Abort => false,
        Statement::AbortIf { .. } | Statement::Require => false,
        Statement::BackIf { .. } => true,
    }
}

fn form_open(within: bool, form: &CallForm<NameIndex>) -> bool
    ensures { result ≡ form_open within form.now }
{
    match form {
        CallForm::Save => true,
        CallForm::Keep => false,
        _ => within,
    }
}

// A block is open behind the statement, where one is open or not before it.
fn open_behind(within: bool, statement: &Statement<NameIndex>) -> bool
    ensures { result ≡ open_behind within statement.now }
{
    match statement {
        Statement::Call(form) => form_open(within, form),
        Statement::Let { .. } | Statement::Abort => within,
        Statement::AbortIf { .. } | Statement::Require => within,
        Statement::BackIf { .. } => within,
    }
}

impl CountedBody {
    /// No statement yet. It takes no memory.
    pub fn new(alloc: Global) -> Self
        ensures { result ≡ [] }
    {
        CountedBody {
            statements: Vec::new(alloc),
            calls: 0,
            in_block: false,
        }
    }

    /// An inner block is open.
    pub fn is_open(&self) -> bool
        ensures { result ≡ is_open self.now }
    {
        self.in_block
    }

    /// With the statement there are no more calls than a transaction may have.
    pub fn has_room(&self, statement: &Statement<NameIndex>) -> bool
        ensures { result ≡ has_few_calls self.now statement.now }
    {
        if is_call(statement) {
            return self.calls < MOST_CALLS;
        }
        self.calls <= MOST_CALLS
    }

    /// One statement more; a call raises the count, and a save and a keep open and close a block.
    #[inline(always)]
    pub fn push(&mut self, statement: Statement<NameIndex>) -> Result<(), NoMemory>
        requires few { count_by is_call (self.old ++ statement ∷ []) ≤ 256 }
        ensures ok { OnOk result (self.new ≡ self.old ++ statement ∷ []) }
        ensures err { OnErr result (self.new ≡ self.old) }
    {
        let counts = is_call(&statement);
        let in_block = open_behind(self.in_block, &statement);
        self.statements.push(KeptStatement::of(statement))?;
        if counts {
            self.calls += 1;
        }
        self.in_block = in_block;
        Ok(())
    }

    /// The statements in a list of just their size. None is left, but their room.
    pub fn take_body(&mut self, alloc: Global) -> Result<Body, NoMemory>
        ensures taken { IfOk result (λ body. body ≡ self.old) }
        ensures left { OnOk result (self.new ≡ []) }
    {
        let mut body = Vec::with_capacity(alloc, self.statements.len())?;
        body.append(&mut self.statements)?;
        self.calls = 0;
        self.in_block = false;
        Ok(Items::from_vec(body))
    }
}
