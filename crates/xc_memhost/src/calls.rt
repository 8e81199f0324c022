ghost use Rattle.std.specs.Prelude.{◌≡◌, IfOk, OnOk, OnErr, MatchResult};
ghost use Rattle.xc_memhost.specs.Faults.{call_begun};
ghost use Rattle.xc_memhost.specs.Telling.{Tells};
ghost use Rattle.xc_memhost.specs.Machine.{host_call_kind, answer, after_host_call, answers, after_all, StopsAmong, IsAllowed, AreAllowed};

use crate::MemHost;
use std::alloc::Global;
use xc_data::{Chunk, Items, Name, NoMemory, Num, Object};
use xc_host::{Fault, Host, HostErr, HostState, Took};

/// A call of a host.
#[derive(Drop)]
pub enum HostCall {
    Lookup(Name),
    Create { name: Name, num: Num },
    Len(Num),
    ReadAt { file: Num, at: u32, n: u32 },
    WriteAt { file: Num, at: u32, bytes: Chunk },
    Append { file: Num, bytes: Chunk },
    Rename { from: Name, to: Name },
    Unlink(Name),
    Sync(Num),
    NewPipe(Num),
    PipeState(Num),
    Take { pipe: Num, n: u32 },
    Put { pipe: Num, bytes: Chunk },
    NewPair(Num),
    PairState { pair: Num, side: u8 },
    Recv { pair: Num, side: u8 },
    Send { pair: Num, side: u8, bytes: Chunk },
    /// Of a pipe or a pair.
    Shut(Object),
    Restore { file: Num, at: u32, bytes: Chunk },
    Cut { file: Num, len: u32 },
    Uncreate { name: Name, num: Num },
    NameBack { from: Name, to: Name },
    DropPipe(Num),
    DropPair(Num),
}

/// What a call answers. A write, a restoration, an append and a put answer how many bytes they did.
#[derive(Drop, PartialEq)]
pub enum HostAnswer {
    Found(Option<Num>),
    Number(u32),
    Got(Chunk),
    Stands(HostState),
    Taken(Took),
    Done,
    Fault,
}

/// The answers to a list of host calls, one for each.
pub type AnswerList = Items<HostAnswer>;

// A fault, or the value.
fn without_memory<T>(told: Result<T, Fault>) -> Result<T, HostErr>
    ensures { MatchResult told (λ x. result ≡ Ok x) (λ _. result ≡ Err HostErr.Fault) }
{
    match told {
        Ok(value) => Ok(value),
        Err(_) => Err(HostErr::Fault),
    }
}

fn found(told: Result<Option<Num>, HostErr>) -> Result<HostAnswer, NoMemory>
    ensures { Tells told result HostAnswer.Found }
{
    match told {
        Ok(num) => Ok(HostAnswer::Found(num)),
        Err(HostErr::Fault) => Ok(HostAnswer::Fault),
        Err(HostErr::NoMemory) => Err(NoMemory),
    }
}

fn number(told: Result<u32, HostErr>) -> Result<HostAnswer, NoMemory>
    ensures { Tells told result HostAnswer.Number }
{
    match told {
        Ok(n) => Ok(HostAnswer::Number(n)),
        Err(HostErr::Fault) => Ok(HostAnswer::Fault),
        Err(HostErr::NoMemory) => Err(NoMemory),
    }
}

fn got(told: Result<Chunk, HostErr>) -> Result<HostAnswer, NoMemory>
    ensures { Tells told result HostAnswer.Got }
{
    match told {
        Ok(bytes) => Ok(HostAnswer::Got(bytes)),
        Err(HostErr::Fault) => Ok(HostAnswer::Fault),
        Err(HostErr::NoMemory) => Err(NoMemory),
    }
}

fn state_answer(told: Result<HostState, HostErr>) -> Result<HostAnswer, NoMemory>
    ensures { Tells told result HostAnswer.Stands }
{
    match told {
        Ok(state) => Ok(HostAnswer::Stands(state)),
        Err(HostErr::Fault) => Ok(HostAnswer::Fault),
        Err(HostErr::NoMemory) => Err(NoMemory),
    }
}

fn taken(told: Result<Took, HostErr>) -> Result<HostAnswer, NoMemory>
    ensures { Tells told result HostAnswer.Taken }
{
    match told {
        Ok(took) => Ok(HostAnswer::Taken(took)),
        Err(HostErr::Fault) => Ok(HostAnswer::Fault),
        Err(HostErr::NoMemory) => Err(NoMemory),
    }
}

fn done(told: Result<(), HostErr>) -> Result<HostAnswer, NoMemory>
    ensures { Tells told result (λ _. HostAnswer.Done) }
{
    match told {
        Ok(_) => Ok(HostAnswer::Done),
        Err(HostErr::Fault) => Ok(HostAnswer::Fault),
        Err(HostErr::NoMemory) => Err(NoMemory),
    }
}

fn ask(host: &mut MemHost, call: &HostCall) -> Result<HostAnswer, NoMemory>
    requires { IsAllowed host.old.contents call.now }
    ensures answer { IfOk result (λ a. a ≡ answer host.old call.now) }
    ensures state { OnOk result (host.new ≡ after_host_call host.old call.now) }
    ensures memory { OnErr result (host.new ≡ call_begun (host_call_kind call.now) host.old) }
{
    match call {
        HostCall::Lookup(name) => found(host.lookup(name)),
        HostCall::Create { name, num } => done(host.create(name, *num)),
        HostCall::Len(file) => number(without_memory(host.len(*file))),
        HostCall::ReadAt { file, at, n } => got(host.read_at(*file, *at, *n)),
        HostCall::WriteAt { file, at, bytes } => {
            number(without_memory(host.write_at(*file, *at, bytes.as_slice())))
        }
        HostCall::Append { file, bytes } => number(host.append(*file, bytes.as_slice())),
        HostCall::Rename { from, to } => done(without_memory(host.rename(from, to))),
        HostCall::Unlink(name) => done(without_memory(host.unlink(name))),
        HostCall::Sync(file) => done(without_memory(host.sync(*file))),
        HostCall::NewPipe(num) => done(host.new_pipe(*num)),
        HostCall::PipeState(pipe) => state_answer(without_memory(host.pipe_state(*pipe))),
        HostCall::Take { pipe, n } => taken(host.take(*pipe, *n)),
        HostCall::Put { pipe, bytes } => number(host.put(*pipe, bytes.as_slice())),
        HostCall::NewPair(num) => done(host.new_pair(*num)),
        HostCall::PairState { pair, side } => state_answer(without_memory(host.pair_state(
            *pair, *side,
        ))),
        HostCall::Recv { pair, side } => taken(host.recv(*pair, *side)),
        HostCall::Send { pair, side, bytes } => done(host.send(*pair, *side, bytes.as_slice())),
        HostCall::Shut(object) => done(without_memory(host.shut(object))),
        HostCall::Restore { file, at, bytes } => {
            number(without_memory(host.restore(*file, *at, bytes.as_slice())))
        }
        HostCall::Cut { file, len } => done(without_memory(host.cut(*file, *len))),
        HostCall::Uncreate { name, num } => done(without_memory(host.uncreate(name, *num))),
        HostCall::NameBack { from, to } => done(without_memory(host.name_back(from, to))),
        HostCall::DropPipe(num) => done(without_memory(host.drop_pipe(*num))),
        HostCall::DropPair(num) => done(without_memory(host.drop_pair(*num))),
    }
}

/// Makes the calls one after another. Their answers and the state afterwards are the plain machine's.
/// lack of memory stops at one of them, which was made or only counted.
pub fn run_calls(
    alloc: Global,
    host: &mut MemHost,
    calls: &[HostCall],
) -> Result<AnswerList, NoMemory>
    requires { AreAllowed host.old calls.now }
    ensures answers { IfOk result (λ list. list ≡ answers host.old calls.now) }
    ensures state { OnOk result (host.new ≡ after_all host.old calls.now) }
    ensures memory { OnErr result (StopsAmong host.old calls.now host.new) }
{
    let mut list = Items::new(alloc);
    for call in calls {
        list.push(ask(host, call)?)?;
    }
    Ok(list)
}
