ghost use Rattle.std.specs.Prelude.{◌≡◌, ◌≤◌, ◌<◌, is_some, ◌+◌, ◌^◌, [], false, slice_get, length, None, Some, MatchOption, if◌then◌else◌};
ghost use Rattle.std.specs.Prelude.{IsSome, IfOk, IsOk, OnOk, OnErr};
ghost use Rattle.std.specs.Option.{option_copied};
ghost use Rattle.xc_text.specs.Scripts.{IsScript};
ghost use Rattle.xc_script.specs.Ask.{asks_from, next_body, transactions_at, fresh_job, handed_on};
ghost use Rattle.xc_script.specs.Answers.{answered, value_in};
ghost use Rattle.xc_script.specs.Blocks.{back_to, kept_calls};
ghost use Rattle.xc_script.specs.Slots.{with_ends};
ghost use Rattle.xc_script.specs.Position.{Position, job_of, walk_of, at_begin, nothing_kept, IsPastSilent, IsAskedCall, target_at};
ghost use Rattle.xc_script.specs.declared.answer.Target.TheVariants.{Nowhere};

use crate::Ask;
use crate::answer::{bind, refuses, stored_after, target_of};
use crate::ask::{ask_of, carried};
use crate::ends::set_ends;
use crate::inner::pass_keep;
use crate::silent::settle;
use crate::value::Variables;
use crate::values::Values;
use std::alloc::Global;
use std::marker::Model;
use std::mem;
use xc_data::{Call, LateEnd, NoMemory, Reply};
use xc_text::{KeptStatement, NameIndex, Script};

/// A job's place in its block, and its variables. What each call reads comes after what is read only when a transaction begins or ends.
#[derive(Drop)]
pub struct JobState {
    alloc: Global,
    // What the variables held when the transaction began. The slots change at its commit alone.
    begun: Option<Values>,
    // The list for the next transaction that begins.
    spare: Values,
    // What they held at the save that is open, where one is.
    saved: Option<Values>,
    // The list for the next save.
    unused: Values,
    variables: Variables,
    block: usize,
    next: usize,
    at: usize,
    // So wide that no sum of lengths wraps.
    stored: u128,
    // The last call of the transaction was.
    refused: bool,
}

impl Model for JobState {
    ghost use Rattle.std.specs.Prelude.{◌≤◌, ◌*◌, ◌^◌};
    ghost use Rattle.xc_script.specs.Position.{Position, coded_position, kept_values};

    ghost Value = { Position };

    ghost coded = { coded_position };

    ghost view = { λ j. record {
      block = j.block;
      next = j.next;
      at = j.at;
      stored = j.stored;
      refused = j.refused;
      variables = j.variables;
      begun = kept_values j.begun j.variables.slots;
      saved = j.saved;
    } };

    ghost invariant = { λ j. j.stored ≤ j.at * 2 ^ 64 };
}

// The statements of a transaction of a block: none, where clients ask it.
fn body_at(script: &Script, block: usize, next: usize) -> Option<&[KeptStatement]>
    ensures { option_copied result ≡ (if script.now.clients then Some [] else slice_get (transactions_at script.now block) next) }
{
    if script.clients {
        return Some(&[]);
    }
    let Some(block) = script.blocks.get(block) else {
        return None;
    };
    match block.transactions.get(next) {
        Some(body) => Some(body.as_slice()),
        None => None,
    }
}

impl JobState {
    /// A job at the start of the block at this place in the script. Its variables hold the handles of the prologue, and nothing
    /// else is set. Room for the ends of late calls is made here, for all of the script's slots.
    pub fn new(alloc: Global, script: &Script, block: usize) -> Result<JobState, NoMemory>
        requires { IsScript script.now }
        ensures { IfOk result (λ job. job ≡ at_begin (fresh_job script.now block)) }
    {
        let mut variables = Variables::unset(alloc, script.variables.len(), &script.slots)?;
        variables.hold(script.handles.as_slice());
        Ok(JobState {
            alloc,
            block,
            next: 0,
            at: 0,
            stored: 0,
            refused: false,
            variables,
            begun: None,
            spare: Values::new(alloc),
            saved: None,
            unused: Values::new(alloc),
        })
    }

    /// A job that this one starts, at the start of the block at this place in the script: its variables are this one's, and its
    /// slots are unset. Room for the ends of late calls is made here, for all of the script's slots.
    pub fn child(&self, script: &Script, block: usize) -> Result<JobState, NoMemory>
        ensures { IfOk result (λ job. job ≡ at_begin (record {
          block = block;
          next = 0;
          variables = handed_on script.now self.now.variables;
        })) }
    {
        let variables = self.variables.handed_on(self.alloc, &script.slots)?;
        Ok(JobState {
            alloc: self.alloc,
            block,
            next: 0,
            at: 0,
            stored: 0,
            refused: false,
            variables,
            begun: None,
            spare: Values::new(self.alloc),
            saved: None,
            unused: Values::new(self.alloc),
        })
    }

    /// Keeps the variables for an abort. Their bytes are shared.
    pub fn begin(&mut self) -> Result<(), NoMemory>
        ensures ok { OnOk result (self.new ≡ record self.old { begun = self.old.variables }) }
        ensures err { OnErr result (self.new ≡ self.old) }
    {
        let mut values = mem::replace(&mut self.spare, Values::new(self.alloc));
        self.variables.keep_values(&mut values)?;
        self.begun = Some(values);
        Ok(())
    }

    /// What the job is asked next. The silent statements before it are passed, and not again by the
    /// next ask. Asked again before an answer it is the same.
    pub fn ask(&mut self, script: &Script) -> Result<Ask, NoMemory>
        ensures value { IfOk result (λ ask. ask ≡ asks_from (next_body script.now (job_of self.old)) (walk_of script.now self.old)) }
        ensures walk { walk_of script.now self.new ≡ walk_of script.now self.old }
        ensures settled { OnOk result (IsPastSilent script.now self.new) }
        ensures same { (self.new.block ≡ self.old.block) × (self.new.next ≡ self.old.next) }
        ensures begun { self.new.begun ≡ self.old.begun }
        ensures saved { self.new.saved ≡ self.old.saved }
        ensures noted { (self.new.stored ≡ self.old.stored) × (self.new.refused ≡ self.old.refused) }
        ensures at { self.old.at ≤ self.new.at }

        // Where it has passed the silent ones already it changes nothing.
        ensures stays { IsPastSilent script.now self.old → self.new ≡ self.old }
    {
        let Some(body) = body_at(script, self.block, self.next) else {
            return Ok(Ask::End);
        };
        settle(&mut self.variables, &mut self.at, self.refused, body);
        match body.get(self.at) {
            Some(statement) => ask_of(self.alloc, &self.variables, self.stored, statement),
            None => Ok(Ask::Commit),
        }
    }

    /// Goes on after the reply to the call that was asked. Where clients ask it stays, since its block says nothing.
    pub fn answer(&mut self, script: &Script, reply: &Reply) -> Result<(), NoMemory>
        requires asked { script.now.clients ≡ false → IsAskedCall script.now self.old }
        requires settled { IsPastSilent script.now self.old }
        ensures ok { OnOk result (walk_of script.now self.new ≡ answered (walk_of script.now self.old) reply.now) }
        ensures same { (self.new.block ≡ self.old.block) × (self.new.next ≡ self.old.next) }
        ensures begun { self.new.begun ≡ self.old.begun }
        ensures saved { self.new.saved ≡ self.old.saved }
        ensures at { script.now.clients ≡ false → OnOk result (self.new.at ≡ self.old.at + 1) }
        ensures err { OnErr result (self.new ≡ self.old) }

        // Only a variable that takes what the reply brings can run out of memory.
        ensures sure { target_at script.now self.old ≡ Nowhere → IsOk result }
        ensures lasting { value_in reply.now ≡ None → IsOk result }
    {
        if script.clients {
            return Ok(());
        }
        self.answer_statement(script, reply)
    }

    // Goes on after the reply to the call that the statement asked where it stands.
    #[inline(always)]
    fn answer_statement(&mut self, script: &Script, reply: &Reply) -> Result<(), NoMemory>
        requires asked { IsAskedCall script.now self.old }
        requires settled { IsPastSilent script.now self.old }
        ensures ok { OnOk result (walk_of script.now self.new ≡ answered (walk_of script.now self.old) reply.now) }
        ensures same { (self.new.block ≡ self.old.block) × (self.new.next ≡ self.old.next) }
        ensures begun { self.new.begun ≡ self.old.begun }
        ensures saved { self.new.saved ≡ self.old.saved }
        ensures at { OnOk result (self.new.at ≡ self.old.at + 1) }
        ensures err { OnErr result (self.new ≡ self.old) }
        ensures sure { target_at script.now self.old ≡ Nowhere → IsOk result }
        ensures lasting { value_in reply.now ≡ None → IsOk result }
    {
        let Some(body) = body_at(script, self.block, self.next) else {
            return Ok(());
        };
        let Some(statement) = body.get(self.at) else {
            return Ok(());
        };
        let carried = carried(&self.variables, self.stored, statement);
        bind(&mut self.variables, target_of(statement), reply)?;
        self.stored = stored_after(self.stored, carried, reply);
        self.refused = refuses(reply);
        self.at += 1;
        Ok(())
    }

    /// Keeps what the variables hold for a back. Their bytes are shared.
    pub fn save(&mut self) -> Result<(), NoMemory>
        ensures ok { OnOk result (self.new ≡ record self.old { saved = Some self.old.variables.values }) }
        ensures err { OnErr result (self.new ≡ self.old) }
    {
        let mut values = mem::replace(&mut self.unused, Values::new(self.alloc));
        self.variables.keep_values(&mut values)?;
        self.saved = Some(values);
        Ok(())
    }

    /// What was kept for a back is dropped. It takes no memory.
    pub fn keep(&mut self)
        requires { IsSome self.old.saved }
        ensures { self.new ≡ record self.old { saved = None } }
    {
        self.forget_save();
    }

    /// Answers the back that was asked: goes on behind the block's keep, with what the variables held at the save. Where clients
    /// ask it stays. It takes no memory.
    pub fn unsave(&mut self, script: &Script)
        requires open { IsSome self.old.saved }
        requires asked { script.now.clients ≡ false → IsAskedCall script.now self.old }
        requires settled { IsPastSilent script.now self.old }
        ensures walk { walk_of script.now self.new ≡ back_to (walk_of script.now self.old) self.old.saved }
        ensures same { (self.new.block ≡ self.old.block) × (self.new.next ≡ self.old.next) }
        ensures begun { self.new.begun ≡ self.old.begun }
        ensures saved { self.new.saved ≡ None }
        ensures at { script.now.clients ≡ false → self.old.at < self.new.at }
    {
        let Some(body) = body_at(script, self.block, self.next) else {
            return;
        };
        if let Some(values) = self.saved.take() {
            self.unused = self.variables.take_values(values);
            self.unused.clear();
        }
        self.refused = false;
        pass_keep(&mut self.at, body);
    }

    /// Goes back to the start of the transaction, with its variables. It takes no memory.
    pub fn back(&mut self)
        ensures { self.new ≡ at_begin (record { block = self.old.block; next = self.old.next; variables = self.old.begun }) }
    {
        match self.begun.take() {
            Some(values) => {
                self.spare = self.variables.take_values(values);
                self.spare.clear();
            }
            None => self.variables.clear(),
        }
        self.rewind();
    }

    /// Goes on to the next transaction, with the variables as they are. It takes no memory.
    pub fn pass(&mut self)
        requires { self.old.next < 2 ^ 32 }
        ensures { self.new ≡ at_begin (record { block = self.old.block; next = self.old.next + 1; variables = self.old.variables }) }
    {
        self.next += 1;
        self.rewind();
    }

    /// The slots of the calls that were kept for a commit, and that no back dropped, take their ends, in order. What was kept
    /// for an abort is dropped. It takes no memory.
    pub fn set_ends(&mut self, calls: &[Call], replies: &[Reply], ends: &[LateEnd])
        ensures { self.new ≡ record self.old {
          variables = with_ends self.old.variables (kept_calls calls.now replies.now) ends.now;
          begun = nothing_kept;
        } }
    {
        set_ends(&mut self.variables, calls, replies, ends);
        self.forget_begin();
    }

    // Stands before its transaction, with the variables as they are.
    fn rewind(&mut self)
        ensures { self.new ≡ at_begin (job_of self.old) }
    {
        self.at = 0;
        self.stored = 0;
        self.refused = false;
        self.forget_begin();
        self.forget_save();
    }

    // What was kept for a back is dropped, and its list stays.
    #[inline(always)]
    fn forget_save(&mut self)
        ensures { self.new ≡ record self.old { saved = None } }
    {
        if let Some(mut values) = self.saved.take() {
            values.clear();
            self.unused = values;
        }
    }

    // What was kept for an abort is dropped, and its list stays.
    fn forget_begin(&mut self)
        ensures { self.new ≡ record self.old { begun = nothing_kept } }
    {
        if let Some(mut values) = self.begun.take() {
            values.clear();
            self.spare = values;
        }
    }
}

impl JobState {
    /// How many statements the next transaction has, which bounds its calls; none, where no transaction is left.
    pub fn statements(&self, script: &Script) -> usize
        ensures { MatchOption (next_body script.now (job_of self.now)) (result ≡ 0) (λ body. result ≡ length body) }
    {
        match body_at(script, self.block, self.next) {
            Some(body) => body.len(),
            None => 0,
        }
    }

    /// Whether a transaction is left.
    pub fn has_next(&self, script: &Script) -> bool
        ensures { result ≡ is_some (next_body script.now (job_of self.now)) }
    {
        body_at(script, self.block, self.next).is_some()
    }
}
