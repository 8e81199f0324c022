ghost use Rattle.std.specs.Prelude.{◌≡◌};
ghost use Rattle.xc_text.specs.declared.script.Statement.TheVariants as statement;
ghost use Rattle.xc_text.specs.declared.script.CallForm.TheVariants as form;
ghost use Rattle.xc_text.specs.Kept.{said_by};

use crate::script::{CallForm, Data, Expression, NameIndex, Statement, Term, Test};
use std::marker::Model;
use xc_data::{Boxed, Ident, SharedName};

/// How a statement lies in memory: one list of cases for calls and all others, a sum and a difference each for itself, and fields in
/// such an order that none leaves a gap. It has 32 bytes; as a `Statement` it would have 48.
#[derive(Drop)]
pub enum Form {
    Load {
        at: Term<NameIndex>,
        into: Option<NameIndex>,
    },
    Store {
        at: Term<NameIndex>,
        value: Term<NameIndex>,
    },
    StoreSum {
        at: Term<NameIndex>,
        left: Term<NameIndex>,
        right: Term<NameIndex>,
    },
    StoreDifference {
        at: Term<NameIndex>,
        left: Term<NameIndex>,
        right: Term<NameIndex>,
    },
    XOpen {
        into: Option<NameIndex>,
        name: SharedName,
    },
    XCreate {
        into: Option<NameIndex>,
        name: SharedName,
    },
    XRename {
        from: SharedName,
        to: SharedName,
    },
    XRead {
        handle: NameIndex,
        n: Term<NameIndex>,
        into: Option<NameIndex>,
    },
    XWriteOvr {
        handle: NameIndex,
        data: Data<NameIndex>,
    },
    XWriteSeq {
        handle: NameIndex,
        data: Data<NameIndex>,
    },
    XSeek {
        handle: NameIndex,
        to: Term<NameIndex>,
    },
    XLen {
        handle: NameIndex,
        into: Option<NameIndex>,
    },
    XClose {
        handle: NameIndex,
    },
    XUnlink {
        slot: Option<NameIndex>,
        name: SharedName,
    },
    XSync {
        handle: NameIndex,
        slot: Option<NameIndex>,
    },
    XPipe {
        into: Option<NameIndex>,
    },
    XReadPipe {
        handle: NameIndex,
        n: Term<NameIndex>,
        into: Option<NameIndex>,
    },
    XWritePipe {
        handle: NameIndex,
        slot: Option<NameIndex>,
        data: Data<NameIndex>,
    },
    XShutdown {
        handle: NameIndex,
        slot: Option<NameIndex>,
    },
    XPair {
        into: Option<(NameIndex, NameIndex)>,
    },
    XRecvmsg {
        handle: NameIndex,
        into: Option<NameIndex>,
    },
    XSendmsg {
        handle: NameIndex,
        slot: Option<NameIndex>,
        data: Data<NameIndex>,
    },
    XThreadCreate {
        slot: Option<NameIndex>,
        block: Boxed<Ident>,
    },
    Let {
        into: NameIndex,
        value: Term<NameIndex>,
    },
    LetSum {
        into: NameIndex,
        left: Term<NameIndex>,
        right: Term<NameIndex>,
    },
    LetDifference {
        into: NameIndex,
        left: Term<NameIndex>,
        right: Term<NameIndex>,
    },
    Abort,
    AbortIf {
        left: Term<NameIndex>,
        test: Test,
        right: Term<NameIndex>,
    },
    Require,
    Save,
    Keep,
    Back,
    BackIf {
        left: Term<NameIndex>,
        test: Test,
        right: Term<NameIndex>,
    },
}

/// A statement as a script keeps it. Contracts see the statement.
#[derive(Drop)]
pub struct KeptStatement {
    form: Form,
}

impl Model for KeptStatement {
    ghost use Rattle.xc_text.specs.Kept.{said_by};
    ghost use Rattle.xc_text.specs.Stated.{Statement};

    ghost Value = { Statement };

    ghost view = { λ a. said_by a.form };
}

const _: () = prove!(size_of::<KeptStatement>() == 32);

// How a store lies in memory.
#[inline(always)]
fn store(at: Term<NameIndex>, value: Expression<NameIndex>) -> Form
    ensures { said_by result ≡ statement.Call (form.Store at value) }
{
    match value {
        Expression::Term(value) => Form::Store { at, value },
        Expression::Sum(left, right) => Form::StoreSum { at, left, right },
        Expression::Difference(left, right) => Form::StoreDifference { at, left, right },
    }
}

// How a `let` lies in memory.
#[inline(always)]
fn assignment(into: NameIndex, value: Expression<NameIndex>) -> Form
    ensures { said_by result ≡ statement.Let into value }
{
    match value {
        Expression::Term(value) => Form::Let { into, value },
        Expression::Sum(left, right) => Form::LetSum { into, left, right },
        Expression::Difference(left, right) => Form::LetDifference { into, left, right },
    }
}

// How a call lies in memory.
#[inline(always)]
fn call(call: CallForm<NameIndex>) -> Form
    ensures { said_by result ≡ statement.Call call }
{
    match call {
        CallForm::Load { at, into } => Form::Load { at, into },
        CallForm::Store { at, value } => store(at, value),
        CallForm::XOpen { into, name } => Form::XOpen { into, name },
        CallForm::XCreate { into, name } => Form::XCreate { into, name },
        CallForm::XRename { from, to } => Form::XRename { from, to },
        CallForm::XRead { handle, n, into } => Form::XRead { handle, n, into },
        CallForm::XWriteOvr { handle, data } => Form::XWriteOvr { handle, data },
        CallForm::XWriteSeq { handle, data } => Form::XWriteSeq { handle, data },
        CallForm::XSeek { handle, to } => Form::XSeek { handle, to },
        CallForm::XLen { handle, into } => Form::XLen { handle, into },
        CallForm::XClose { handle } => Form::XClose { handle },
        CallForm::XUnlink { slot, name } => Form::XUnlink { slot, name },
        CallForm::XSync { handle, slot } => Form::XSync { handle, slot },
        CallForm::XPipe { into } => Form::XPipe { into },
        CallForm::XReadPipe { handle, n, into } => Form::XReadPipe { handle, n, into },
        CallForm::XWritePipe { handle, slot, data } => Form::XWritePipe { handle, slot, data },
        CallForm::XShutdown { handle, slot } => Form::XShutdown { handle, slot },
        CallForm::XPair { into } => Form::XPair { into },
        CallForm::XRecvmsg { handle, into } => Form::XRecvmsg { handle, into },
        CallForm::XSendmsg { handle, slot, data } => Form::XSendmsg { handle, slot, data },
        CallForm::XThreadCreate { slot, block } => Form::XThreadCreate { slot, block },
        CallForm::Save => Form::Save,
        CallForm::Keep => Form::Keep,
        CallForm::Back => Form::Back,
    }
}

impl KeptStatement {
    /// A statement, to be kept. It takes no memory.
    #[inline(always)]
    pub fn of(statement: Statement<NameIndex>) -> KeptStatement
        ensures { result ≡ statement }
    {
        let form = match statement {
            Statement::Call(form) => call(form),
            Statement::Let { into, value } => assignment(into, value),
            Statement::Abort => Form::Abort,
            Statement::AbortIf { left, test, right } => Form::AbortIf { left, test, right },
            Statement::Require => Form::Require,
            Statement::BackIf { left, test, right } => Form::BackIf { left, test, right },
        };
        KeptStatement { form }
    }

    /// How it lies in memory.
    #[inline(always)]
    pub fn form(&self) -> &Form
        ensures { said_by result.now ≡ self.now }
    {
        &self.form
    }
}
