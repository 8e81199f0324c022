ghost use Rattle.std.specs.Prelude.{◌≡◌, ◌≤◌, ◌+◌, ◌<◌, ◌^◌, length, IfOk, OnOk, OnErr, IsOk, None};
ghost use Rattle.xc_script.specs.Walks.{bytes_got, fails_check, stored_after};
ghost use Rattle.xc_script.specs.Answers.{value_in, one_target, target_of_two, target_of};
ghost use Rattle.xc_text.specs.Kept.{said_by};
ghost use Rattle.xc_script.specs.Answers.{handles_in, bound_both, bound, refuses};
ghost use Rattle.xc_script.specs.declared.answer.Target.TheVariants.{Nowhere};

use crate::value::{Value, Variables};
use xc_data::{NoMemory, Reply};
use xc_text::{Form, KeptStatement, NameIndex};

/// The variables that take what a reply brings: none, one, or one for each side of a pair.
#[derive(Clone, Copy)]
pub enum Target {
    Nowhere,
    One(NameIndex),
    Two(NameIndex, NameIndex),
}

// What a reply leaves in one variable. Bytes are shared.
fn value_in(reply: &Reply) -> Result<Option<Value>, NoMemory>
    ensures value { IfOk result (λ value. value ≡ value_in reply.now) }
    ensures none { value_in reply.now ≡ None → IsOk result }
{
    match reply {
        Reply::Number(n) => Ok(Some(Value::Number(*n))),
        Reply::Got(bytes) => Ok(Some(Value::Bytes(bytes.share()?))),
        Reply::Made(h) => Ok(Some(Value::Handle(*h))),
        Reply::MadePair(_, _) | Reply::Done | Reply::End | Reply::Empty => Ok(None),
        Reply::NoName | Reply::Exists | Reply::BadHandle | Reply::PastEnd => Ok(None),
        Reply::TooBig | Reply::TooMuch | Reply::BadWord => Ok(None),
        Reply::Fault(_) | Reply::Late | Reply::Undone(_) => Ok(None),
    }
}

// The handles that a reply leaves in two variables, where it brings those of a pair.
fn handles_in(reply: &Reply) -> Option<(u16, u16)>
    ensures { result ≡ handles_in reply.now }
{
    match reply {
        Reply::MadePair(h, g) => Some((*h, *g)),
        Reply::Number(_) | Reply::Got(_) | Reply::Made(_) | Reply::Done => None,
        Reply::End | Reply::Empty | Reply::NoName | Reply::Exists => None,
        Reply::BadHandle | Reply::PastEnd | Reply::TooBig | Reply::TooMuch => None,
        Reply::BadWord | Reply::Fault(_) | Reply::Late => None,
        Reply::Undone(_) => None,
    }
}

fn one_target(into: Option<NameIndex>) -> Target
    ensures { result ≡ one_target into }
{
    match into {
        Some(at) => Target::One(at),
        None => Target::Nowhere,
    }
}

fn two_targets(into: Option<(NameIndex, NameIndex)>) -> Target
    ensures { result ≡ target_of_two into }
{
    match into {
        Some((first, second)) => Target::Two(first, second),
        None => Target::Nowhere,
    }
}

fn form_target(form: &Form) -> Target
    ensures { result ≡ target_of (said_by form.now) }
{
    match form {
        Form::Load { into, .. } | Form::XRead { into, .. } => one_target(*into),
        Form::XOpen { into, .. } | Form::XCreate { into, .. } => one_target(*into),
        Form::XLen { into, .. } => one_target(*into),
        Form::XPipe { into } | Form::XReadPipe { into, .. } => one_target(*into),
        Form::XPair { into } => two_targets(*into),
        Form::XRecvmsg { into, .. } => one_target(*into),
        Form::Store { .. } | Form::StoreSum { .. } => Target::Nowhere,
        Form::StoreDifference { .. } | Form::XRename { .. } => Target::Nowhere,
        Form::XWriteOvr { .. } | Form::XWriteSeq { .. } => Target::Nowhere,
        Form::XSeek { .. } | Form::XClose { .. } => Target::Nowhere,
        Form::XUnlink { .. } | Form::XSync { .. } => Target::Nowhere,
        Form::XWritePipe { .. } | Form::XShutdown { .. } => Target::Nowhere,
        Form::XSendmsg { .. } | Form::XThreadCreate { .. } => Target::Nowhere,
        Form::Let { .. } | Form::LetSum { .. } => Target::Nowhere,
        Form::LetDifference { .. } | Form::Abort => Target::Nowhere,
        Form::AbortIf { .. } | Form::Require => Target::Nowhere,
        Form::Save | Form::Keep | Form::Back | Form::BackIf { .. } => Target::Nowhere,
    }
}

/// The variables that take a statement's reply.
pub fn target_of(statement: &KeptStatement) -> Target
    ensures { result ≡ target_of statement.now }
{
    form_target(statement.form())
}

// Two variables take the handles of a pair, the second one last, or lose their own. It takes no memory.
// So a pair that was made is never put back for lack of memory.
fn bind_both(variables: &mut Variables, first: NameIndex, second: NameIndex, reply: &Reply)
    ensures { variables.new ≡ bound_both variables.old first second (handles_in reply.now) }
{
    match handles_in(reply) {
        Some((h, g)) => {
            variables.set(first, Some(Value::Handle(h)));
            variables.set(second, Some(Value::Handle(g)));
        }
        None => {
            variables.set(first, None);
            variables.set(second, None);
        }
    }
}

/// The variables take what the reply has for them, or lose their own.
pub fn bind(variables: &mut Variables, target: Target, reply: &Reply) -> Result<(), NoMemory>
    ensures ok { OnOk result (variables.new ≡ bound variables.old target reply.now) }
    ensures err { OnErr result (variables.new ≡ variables.old) }
    ensures sure { target ≡ Nowhere → IsOk result }
    ensures lasting { value_in reply.now ≡ None → IsOk result }
{
    match target {
        Target::Nowhere => {}
        Target::One(at) => {
            let value = value_in(reply)?;
            variables.set(at, value);
        }
        Target::Two(first, second) => bind_both(variables, first, second, reply),
    }
    Ok(())
}

/// A call that replies so counts as refused.
pub fn refuses(reply: &Reply) -> bool
    ensures { result ≡ refuses reply.now }
{
    match reply {
        Reply::Number(_) | Reply::Got(_) | Reply::Made(_) | Reply::MadePair(_, _) => false,
        Reply::Done | Reply::Late | Reply::Undone(_) => false,
        Reply::End | Reply::Empty | Reply::NoName | Reply::Exists => true,
        Reply::BadHandle | Reply::PastEnd | Reply::TooBig => true,
        Reply::TooMuch | Reply::BadWord | Reply::Fault(_) => true,
    }
}

// A call that carried `carried` bytes failed a private check.
fn fails_check(carried: usize, reply: &Reply) -> bool
    ensures { result ≡ fails_check carried reply.now }
{
    match reply {
        Reply::BadHandle | Reply::TooMuch | Reply::BadWord => true,
        Reply::TooBig => carried == 0,
        Reply::Number(_) | Reply::Got(_) | Reply::Made(_) | Reply::MadePair(_, _) => false,
        Reply::Done | Reply::End | Reply::Empty | Reply::NoName => false,
        Reply::Exists | Reply::PastEnd | Reply::Fault(_) | Reply::Late => false,
        Reply::Undone(_) => false,
    }
}

fn got(reply: &Reply) -> usize
    ensures value { result ≡ length (bytes_got reply.now) }
    ensures bound { result < 2 ^ 63 }
{
    match reply {
        Reply::Got(bytes) => bytes.len(),
        Reply::Number(_) | Reply::Made(_) | Reply::MadePair(_, _) => 0,
        Reply::Done | Reply::End | Reply::Empty | Reply::NoName => 0,
        Reply::Exists | Reply::BadHandle | Reply::PastEnd | Reply::TooBig => 0,
        Reply::TooMuch | Reply::BadWord | Reply::Fault(_) | Reply::Late => 0,
        Reply::Undone(_) => 0,
    }
}

/// How many bytes are stored behind the reply to a call that carried `carried` bytes.
pub fn stored_after(stored: u128, carried: usize, reply: &Reply) -> u128
    requires carried { carried ≤ 1024 }
    requires room { stored + 2 ^ 64 < 2 ^ 128 }
    ensures value { result ≡ stored_after stored carried reply.now }
    ensures bound { result ≤ stored + 2 ^ 64 }
{
    if fails_check(carried, reply) {
        return stored;
    }
    stored + carried as u128 + got(reply) as u128
}
