ghost use Rattle.std.specs.Prelude.{◌≡◌, ◌≤◌, ℕ, true, drop};
ghost use Rattle.xc_text.specs.declared.script.Statement.TheVariants.{Let};
ghost use Rattle.xc_text.specs.Kept.{said_by};
ghost use Rattle.xc_script.specs.Walks.{holds, is_silent, set_by, past_silent, none_silent_first};

use crate::terms::{expression_of, value_of};
use crate::value::{Value, Variables};
use xc_text::{Expression, Form, KeptStatement, NameIndex, Test};

fn holds(test: Test, left: u64, right: u64) -> bool
    ensures { result ≡ holds test left right }
{
    match test {
        Test::Equal => left == right,
        Test::NotEqual => left != right,
        Test::Less => left < right,
        Test::AtMost => left <= right,
        Test::Greater => left > right,
        Test::AtLeast => left >= right,
    }
}

// A statement in this form asks nothing, where the last call was refused or not.
fn is_silent(variables: &Variables, refused: bool, form: &Form) -> bool
    ensures { result ≡ is_silent variables.now refused (said_by form.now) }
{
    match form {
        Form::Load { .. } | Form::Store { .. } | Form::StoreSum { .. } => false,
        Form::StoreDifference { .. } | Form::XOpen { .. } | Form::XCreate { .. } => false,
        Form::XRename { .. } | Form::XRead { .. } | Form::XWriteOvr { .. } => false,
        Form::XWriteSeq { .. } | Form::XSeek { .. } | Form::XLen { .. } => false,
        Form::XClose { .. } | Form::XUnlink { .. } | Form::XSync { .. } => false,
        Form::XPipe { .. } | Form::XReadPipe { .. } | Form::XWritePipe { .. } => false,
        Form::XShutdown { .. } | Form::XPair { .. } | Form::XRecvmsg { .. } => false,
        Form::XSendmsg { .. } | Form::XThreadCreate { .. } | Form::Abort => false,
        Form::Save | Form::Keep | Form::Back => false,
        Form::Let { .. } | Form::LetSum { .. } | Form::LetDifference { .. } => true,
        Form::AbortIf { left, test, right } | Form::BackIf { left, test, right } => {
            !holds(
                *test,
                value_of(variables, *left),
                value_of(variables, *right),
            )
        }
        Form::Require => !refused,
    }
}

// Sets a variable to a number.
fn set_number(variables: &mut Variables, into: NameIndex, value: Expression<NameIndex>)
    ensures { variables.new ≡ set_by variables.old (Let into value) }
{
    let number = expression_of(variables, value);
    variables.set(into, Some(Value::Number(number)));
}

// Sets the variable of a `let`.
fn set(variables: &mut Variables, form: &Form)
    ensures { variables.new ≡ set_by variables.old (said_by form.now) }
{
    match form {
        Form::Let { into, value } => set_number(variables, *into, Expression::Term(*value)),
        Form::LetSum { into, left, right } => {
            set_number(variables, *into, Expression::Sum(*left, *right));
        }
        Form::LetDifference { into, left, right } => {
            set_number(variables, *into, Expression::Difference(*left, *right));
        }
        Form::Load { .. } | Form::Store { .. } | Form::StoreSum { .. } => {}
        Form::StoreDifference { .. } | Form::XOpen { .. } | Form::XCreate { .. } => {}
        Form::XRename { .. } | Form::XRead { .. } | Form::XWriteOvr { .. } => {}
        Form::XWriteSeq { .. } | Form::XSeek { .. } | Form::XLen { .. } => {}
        Form::XClose { .. } | Form::XUnlink { .. } | Form::XSync { .. } => {}
        Form::XPipe { .. } | Form::XReadPipe { .. } | Form::XWritePipe { .. } => {}
        Form::XShutdown { .. } | Form::XPair { .. } | Form::XRecvmsg { .. } => {}
        Form::XSendmsg { .. } | Form::XThreadCreate { .. } => {}
        Form::Abort | Form::AbortIf { .. } | Form::Require => {}
        Form::Save | Form::Keep | Form::Back | Form::BackIf { .. } => {}
    }
}

/// Passes the silent statements that come next. It takes no memory.
pub fn settle(variables: &mut Variables, at: &mut usize, refused: bool, body: &[KeptStatement])
    ensures walk { (stored : ℕ) → past_silent variables.new stored refused (drop at.new body.now)
        ≡ past_silent variables.old stored refused (drop at.old body.now) }
    ensures slots { variables.new.slots ≡ variables.old.slots }
    ensures past_silent { none_silent_first variables.new refused (drop at.new body.now) ≡ true }
    ensures at { at.old ≤ at.new }
    ensures stays { none_silent_first variables.old refused (drop at.old body.now) ≡ true → (variables.new ≡ variables.old)
        × (at.new ≡ at.old) }
{
    while let Some(statement) = body.get(*at) {
        let form = statement.form();
        if !is_silent(variables, refused, form) {
            return;
        }
        set(variables, form);
        *at += 1;
    }
}
