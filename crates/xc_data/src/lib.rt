//! Plain data of the runtime: names, objects, calls and replies, entries of the journal, prologues.
//!
//! Nothing here acts. Contracts see the list types as lists, a `Name`, a `SharedName`, an `Ident` and
//! a `Chunk` as their bytes, a `SlotName` as them, if it has any, a `Boxed` value as the value, a `KeptClaim`
//! as the claim, and every other type as it stands.
#![tactic(auto)]

mod again;
mod boxed;
mod call;
mod chunk;
mod claim;
mod entry;
mod ident;
mod items;
mod kept_claim;
mod lasting;
mod late;
mod limits;
mod memory;
mod name;
mod object;
mod private;
mod script;
mod shared_name;
mod slot_name;
mod slot_names;
mod undo;

pub use boxed::Boxed;
pub use call::{Answer, Call, CallWithAnswer, HandleUse, LateAnswer, LateCall, LateEnd, Reply};
pub use chunk::Chunk;
pub use claim::{Claim, Mode};
pub use entry::{
    CallList, Cause, Entry, Event, HeldList, JobEnd, JobLine, JobList, JobNumbers, KeptItem,
    KeptList, LateList, Mark, Outcome, ReplyList, Report, Text, Turn,
};
pub use ident::Ident;
pub use items::Items;
pub use kept_claim::KeptClaim;
pub use limits::{MOST_CALL_BYTES, MOST_FILE_BYTES, MOST_MADE, MOST_STORED};
pub use memory::NoMemory;
pub use name::Name;
pub use object::{Num, Object};
pub use private::{Place, Private};
pub use script::{
    CallNumbers, FaultLine, FaultList, HostCallKind, IdentList, Opened, OpenedList, Outline,
    Prologue, WordList,
};
pub use shared_name::SharedName;
pub use slot_name::SlotName;
pub use slot_names::SlotNames;
pub use undo::{RecordList, Undo, UndoEnd};
