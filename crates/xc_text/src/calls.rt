//! The words that calls begin with.

ghost use Rattle.std.specs.Prelude.{◌≡◌};
ghost use Rattle.xc_text.specs.Calls.{call_kinds};
ghost use Rattle.xc_tokens.specs.ByWord.{by_word as found_by};

use xc_tokens::by_word;

/// The calls on words.
#[derive(Clone, Copy)]
pub enum WordCall {
    Load,
    Store,
}

/// The calls on names of files.
#[derive(Clone, Copy)]
pub enum NameCall {
    XOpen,
    XCreate,
    XRename,
    XUnlink,
}

/// The calls through the handle of a file.
#[derive(Clone, Copy)]
pub enum HandleCall {
    XRead,
    XWriteOvr,
    XWriteSeq,
    XSeek,
    XLen,
    XClose,
    XSync,
}

/// The calls on pipes.
#[derive(Clone, Copy)]
pub enum PipeCall {
    XPipe,
    XReadPipe,
    XWritePipe,
    XShutdown,
}

/// The calls on socket pairs.
#[derive(Clone, Copy)]
pub enum PairCall {
    XPair,
    XRecvmsg,
    XSendmsg,
}

/// The kinds of calls, which the first word of a line tells: on words, on names of files, through the handle of a file, on
/// pipes, on socket pairs, and the one that starts a job.
#[derive(Clone, Copy)]
pub enum CallKind {
    Word(WordCall),
    Name(NameCall),
    Handle(HandleCall),
    Pipe(PipeCall),
    Pair(PairCall),
    XThreadCreate,
}

/// The words that lines begin with which are calls.
const CALL_KINDS: [(&[u8], CallKind); 21] = [
    (b"load", CallKind::Word(WordCall::Load)),
    (b"store", CallKind::Word(WordCall::Store)),
    (b"x_open", CallKind::Name(NameCall::XOpen)),
    (b"x_create", CallKind::Name(NameCall::XCreate)),
    (b"x_rename", CallKind::Name(NameCall::XRename)),
    (b"x_unlink", CallKind::Name(NameCall::XUnlink)),
    (b"x_read", CallKind::Handle(HandleCall::XRead)),
    (b"x_write_ovr", CallKind::Handle(HandleCall::XWriteOvr)),
    (b"x_write_seq", CallKind::Handle(HandleCall::XWriteSeq)),
    (b"x_seek", CallKind::Handle(HandleCall::XSeek)),
    (b"x_len", CallKind::Handle(HandleCall::XLen)),
    (b"x_close", CallKind::Handle(HandleCall::XClose)),
    (b"x_sync", CallKind::Handle(HandleCall::XSync)),
    (b"x_pipe", CallKind::Pipe(PipeCall::XPipe)),
    (b"x_read_pipe", CallKind::Pipe(PipeCall::XReadPipe)),
    (b"x_write_pipe", CallKind::Pipe(PipeCall::XWritePipe)),
    (b"x_shutdown", CallKind::Pipe(PipeCall::XShutdown)),
    (b"x_pair", CallKind::Pair(PairCall::XPair)),
    (b"x_recvmsg", CallKind::Pair(PairCall::XRecvmsg)),
    (b"x_sendmsg", CallKind::Pair(PairCall::XSendmsg)),
    (b"x_thread_create", CallKind::XThreadCreate),
];

/// The kind of call that a word begins.
#[tactic(auto, unfolding(crate::specs::Calls::call_kinds))]
pub fn call_kind(word: &[u8]) -> Option<CallKind>
    ensures { result ≡ found_by call_kinds word.now }
{
    by_word(&CALL_KINDS, word)
}
