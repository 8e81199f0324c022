ghost use Rattle.std.specs.Prelude.{◌≡◌};
ghost use Rattle.xc_data.specs.Calls.{traits, bytes_of, slot_of, is_late};

use crate::{Boxed, Chunk, Ident, Num, Object, SharedName, SlotName};

/// A call as a transaction makes it. A handle is the number of a place of the job's; 65,535 stands
/// for a variable that holds no handle.
#[derive(Debug, Drop)]
pub enum Call {
    Load {
        at: u64,
    },
    Store {
        at: u64,
        value: u64,
    },
    XOpen {
        name: SharedName,
    },
    XCreate {
        name: SharedName,
    },
    XRead {
        h: u16,
        n: u64,
    },
    XWriteOvr {
        h: u16,
        bytes: Chunk,
    },
    XWriteSeq {
        h: u16,
        bytes: Chunk,
    },
    XSeek {
        h: u16,
        to: u64,
    },
    XLen {
        h: u16,
    },
    XRename {
        from: SharedName,
        to: SharedName,
    },
    XClose {
        h: u16,
    },
    XPipe,
    XReadPipe {
        h: u16,
        n: u64,
    },
    XPair,
    XRecvmsg {
        h: u16,
    },
    XUnlink {
        name: SharedName,
        slot: SlotName,
    },
    XSync {
        h: u16,
        slot: SlotName,
    },
    XWritePipe {
        h: u16,
        bytes: Chunk,
        slot: SlotName,
    },
    XShutdown {
        h: u16,
        slot: SlotName,
    },
    XSendmsg {
        h: u16,
        bytes: Chunk,
        slot: SlotName,
    },
    XThreadCreate {
        body: Boxed<Ident>,
        slot: SlotName,
    },
    /// An inner block begins.
    Save,
    /// It ends, and what it did stays.
    Keep,
    /// It goes back to where it began.
    Back,
}

// A journal has many, one for each call that was made.
const _: () = prove!(size_of::<Call>() == 24);

/// What a call may change of its job's handles.
#[derive(Clone, Copy)]
pub enum HandleUse {
    /// Nothing.
    Unchanged,
    /// What is at this one.
    At(u16),
    /// The lowest vacant one: its reply names it.
    New,
    /// The two lowest vacant ones: its reply names them.
    NewPair,
}

impl Call {
    /// What it may change of its job's handles.
    pub fn handle_use(&self) -> HandleUse
        ensures { result ≡ (traits self.now).handle }
    {
        match self {
            Call::XRead { h, .. } | Call::XSeek { h, .. } => HandleUse::At(*h),
            Call::XWriteOvr { h, .. } | Call::XWriteSeq { h, .. } => HandleUse::At(*h),
            Call::XClose { h } => HandleUse::At(*h),
            Call::XOpen { .. } | Call::XCreate { .. } | Call::XPipe => HandleUse::New,
            Call::XPair => HandleUse::NewPair,
            Call::Load { .. } | Call::Store { .. } | Call::XLen { .. } => HandleUse::Unchanged,
            Call::XRename { .. } | Call::XReadPipe { .. } => HandleUse::Unchanged,
            Call::XRecvmsg { .. } | Call::XUnlink { .. } => HandleUse::Unchanged,
            Call::XSync { .. } | Call::XWritePipe { .. } => HandleUse::Unchanged,
            Call::XShutdown { .. } | Call::XSendmsg { .. } => HandleUse::Unchanged,
            Call::XThreadCreate { .. } => HandleUse::Unchanged,
            Call::Save | Call::Keep | Call::Back => HandleUse::Unchanged,
        }
    }

    /// The word that it is on, where it is on one.
    pub fn word(&self) -> Option<u64>
        ensures { result ≡ (traits self.now).word }
    {
        match self {
            Call::Load { at } | Call::Store { at, .. } => Some(*at),
            Call::XOpen { .. } | Call::XCreate { .. } | Call::XRead { .. } => None,
            Call::XWriteOvr { .. } | Call::XWriteSeq { .. } | Call::XSeek { .. } => None,
            Call::XLen { .. } | Call::XRename { .. } | Call::XClose { .. } | Call::XPipe => None,
            Call::XReadPipe { .. } | Call::XPair | Call::XRecvmsg { .. } => None,
            Call::XUnlink { .. } | Call::XSync { .. } | Call::XWritePipe { .. } => None,
            Call::XShutdown { .. } | Call::XSendmsg { .. } | Call::XThreadCreate { .. } => None,
            Call::Save | Call::Keep | Call::Back => None,
        }
    }

    /// Whether it asks something of the host at once.
    pub fn asks_host(&self) -> bool
        ensures { result ≡ (traits self.now).is_asking }
    {
        match self {
            Call::XOpen { .. } | Call::XCreate { .. } | Call::XLen { .. } => true,
            Call::XRename { .. } | Call::XPipe | Call::XPair | Call::XRecvmsg { .. } => true,
            Call::XRead { n, .. } | Call::XReadPipe { n, .. } => *n >= 1,
            Call::XWriteOvr { bytes, .. } | Call::XWriteSeq { bytes, .. } => bytes.len() >= 1,
            Call::Load { .. } | Call::Store { .. } | Call::XSeek { .. } => false,
            Call::XClose { .. } | Call::XUnlink { .. } | Call::XSync { .. } => false,
            Call::XWritePipe { .. } | Call::XShutdown { .. } | Call::XSendmsg { .. } => false,
            Call::XThreadCreate { .. } | Call::Save | Call::Keep | Call::Back => false,
        }
    }

    /// The bytes that it carries.
    pub fn bytes(&self) -> &[u8]
        ensures { result.now ≡ bytes_of self.now }
    {
        match self {
            Call::XWriteOvr { bytes, .. } | Call::XWriteSeq { bytes, .. } => bytes.as_slice(),
            Call::XWritePipe { bytes, .. } | Call::XSendmsg { bytes, .. } => bytes.as_slice(),
            Call::Load { .. } | Call::Store { .. } | Call::XOpen { .. } => &[],
            Call::XCreate { .. } | Call::XRead { .. } | Call::XSeek { .. } => &[],
            Call::XLen { .. } | Call::XRename { .. } | Call::XClose { .. } => &[],
            Call::XPipe | Call::XReadPipe { .. } | Call::XPair | Call::XRecvmsg { .. } => &[],
            Call::XUnlink { .. } | Call::XSync { .. } | Call::XShutdown { .. } => &[],
            Call::XThreadCreate { .. } | Call::Save | Call::Keep | Call::Back => &[],
        }
    }

    /// The slot that takes how it ends, where it names one.
    pub fn slot(&self) -> Option<Ident>
        ensures { result ≡ slot_of self.now }
    {
        match self {
            Call::XUnlink { slot, .. } | Call::XSync { slot, .. } => slot.name().copied(),
            Call::XWritePipe { slot, .. } | Call::XShutdown { slot, .. } => slot.name().copied(),
            Call::XSendmsg { slot, .. } | Call::XThreadCreate { slot, .. } => slot.name().copied(),
            Call::Load { .. } | Call::Store { .. } | Call::XOpen { .. } => None,
            Call::XCreate { .. } | Call::XRead { .. } | Call::XWriteOvr { .. } => None,
            Call::XWriteSeq { .. } | Call::XSeek { .. } | Call::XLen { .. } => None,
            Call::XRename { .. } | Call::XClose { .. } | Call::XPipe => None,
            Call::XReadPipe { .. } | Call::XPair | Call::XRecvmsg { .. } => None,
            Call::Save | Call::Keep | Call::Back => None,
        }
    }
}

/// What a call replies.
#[derive(Debug, Drop, PartialEq)]
pub enum Reply {
    Number(u64),
    Got(Chunk),
    Made(u16),
    /// The handles of side 0 and of side 1.
    MadePair(u16, u16),
    Done,
    /// The end of a file, or of a pipe or pair that is shut.
    End,
    /// Nothing is there yet.
    Empty,
    NoName,
    Exists,
    BadHandle,
    PastEnd,
    TooBig,
    TooMuch,
    BadWord,
    /// The host failed after so many bytes were done.
    Fault(u32),
    /// The call is kept until the commit.
    Late,
    /// The block went back; so many faults were met on the way.
    Undone(u32),
}

impl Reply {
    /// Its call is kept until the commit.
    pub fn is_late(&self) -> bool
        ensures { result ≡ is_late self.now }
    {
        matches!(self, Reply::Late)
    }
}

/// What a call met at the host. `Fault` has the number of bytes that were done, `Undone` that of the faults on
/// a way back.
#[derive(Clone, Copy)]
pub enum Answer {
    Fine,
    Fault(u32),
    Undone(u32),
}

/// A call, and what it met at the host.
#[derive(Drop)]
pub struct CallWithAnswer {
    pub call: Call,
    pub answer: Answer,
}

/// A call that is done after the commit, on the object that was fixed when it was made.
#[derive(Drop)]
pub enum LateCall {
    Unlink(SharedName),
    Sync(Num),
    WritePipe(Num, Chunk),
    /// Of a pipe or a pair.
    Shutdown(Object),
    /// A message from this side, for the other one.
    Send { pair: Num, side: u8, bytes: Chunk },
    Thread(Ident),
}

/// How a late call ended. A number is that of the bytes done.
#[derive(Clone, Copy, Debug, PartialEq)]
pub enum LateEnd {
    Done,
    Full(u32),
    Shut,
    NoName,
    NoScript,
    Fault(u32),
    NoMemory(u32),
}

/// What a late call met at the host. A number is that of the bytes done.
#[derive(Clone, Copy)]
pub enum LateAnswer {
    Fine,
    Fault(u32),
    NoMemory(u32),
}
