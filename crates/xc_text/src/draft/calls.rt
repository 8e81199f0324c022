//! The lines of a transaction that are calls. Each is read, its names take their places, and it is kept, so that no call is
//! handed on with its names.

ghost use Rattle.std.specs.Prelude.{◌≡◌, map};
ghost use Rattle.xc_text.specs.Calls.{call_kinds, word_form, name_form, handle_form, pipe_form, pair_form, thread_form, form_of};
ghost use Rattle.xc_text.specs.Calls.{read_call_line};
ghost use Rattle.xc_text.specs.declared.calls.WordCall.TheVariants as word;
ghost use Rattle.xc_text.specs.declared.calls.NameCall.TheVariants as named;
ghost use Rattle.xc_text.specs.declared.calls.HandleCall.TheVariants as handled;
ghost use Rattle.xc_text.specs.declared.calls.PipeCall.TheVariants as piped;
ghost use Rattle.xc_text.specs.declared.calls.PairCall.TheVariants as paired;
ghost use Rattle.xc_text.specs.declared.script.Statement.TheVariants as statement;
ghost use Rattle.xc_text.specs.Steps.{call_stated, stated_as, stated_by};
ghost use Rattle.xc_tokens.specs.Answers.{Gives};
ghost use Rattle.xc_tokens.specs.ByWord.{by_word as found_by};
ghost use Rattle.xc_tokens.specs.Views.{lexeme};

use crate::calls::{CallKind, HandleCall, NameCall, PairCall, PipeCall, WordCall, call_kind};
use crate::draft::Draft;
use crate::places::{
    place_ending, place_expression, place_target, place_targets, place_term, place_term_into,
};
use crate::script::{CallForm, NameIndex, Statement};
use crate::shapes::{
    handle_alone, handle_and_term, handle_into, handle_term_into, ident_and_slot, name_and_slot,
    name_into, target, term_and_expression, term_into, two_names, two_targets,
};
use crate::written::{written, written_with_slot};
use std::alloc::Global;
use xc_data::{Boxed, SharedName};
use xc_tokens::{Stop, Token, Why};

impl Draft {
    // One more call, whose names have their places.
    #[inline(always)]
    fn keep_call(&mut self, form: CallForm<NameIndex>) -> Result<(), Stop>
        ensures { Gives (λ _. self.new) result (stated_as self.old (self.old.names, statement.Call form)) }
    {
        self.keep(Statement::Call(form))
    }

    fn load(&mut self, rest: &[Token]) -> Result<(), Stop>
        ensures { Gives (λ _. self.new) result (call_stated self.old (word_form word.Load (map lexeme rest.now))) }
    {
        let (at, into) = term_into(rest)?;
        let (at, into) = place_term_into(&mut self.names, &at, &into)?;
        self.keep_call(CallForm::Load { at, into })
    }

    fn store(&mut self, rest: &[Token]) -> Result<(), Stop>
        ensures { Gives (λ _. self.new) result (call_stated self.old (word_form word.Store (map lexeme rest.now))) }
    {
        let (at, value) = term_and_expression(rest)?;
        let at = place_term(&mut self.names, &at)?;
        let value = place_expression(&mut self.names, &value)?;
        self.keep_call(CallForm::Store { at, value })
    }

    fn x_open(&mut self, alloc: Global, rest: &[Token]) -> Result<(), Stop>
        ensures { Gives (λ _. self.new) result (call_stated self.old (name_form named.XOpen (map lexeme rest.now))) }
    {
        let (name, into) = name_into(alloc, &mut self.files, rest)?;
        let into = place_target(&mut self.names, &into)?;
        self.keep_call(CallForm::XOpen { name, into })
    }

    fn x_create(&mut self, alloc: Global, rest: &[Token]) -> Result<(), Stop>
        ensures { Gives (λ _. self.new) result (call_stated self.old (name_form named.XCreate (map lexeme rest.now))) }
    {
        let (name, into) = name_into(alloc, &mut self.files, rest)?;
        let into = place_target(&mut self.names, &into)?;
        self.keep_call(CallForm::XCreate { name, into })
    }

    fn x_rename(&mut self, alloc: Global, rest: &[Token]) -> Result<(), Stop>
        ensures { Gives (λ _. self.new) result (call_stated self.old (name_form named.XRename (map lexeme rest.now))) }
    {
        let (from, to) = two_names(alloc, &mut self.files, rest)?;
        self.keep_call(CallForm::XRename { from, to })
    }

    fn x_unlink(&mut self, alloc: Global, rest: &[Token]) -> Result<(), Stop>
        ensures { Gives (λ _. self.new) result (call_stated self.old (name_form named.XUnlink (map lexeme rest.now))) }
    {
        let (name, slot) = name_and_slot(alloc, &mut self.files, rest)?;
        let slot = place_ending(&mut self.names, &slot)?;
        self.keep_call(CallForm::XUnlink { name, slot })
    }

    fn x_read(&mut self, rest: &[Token]) -> Result<(), Stop>
        ensures { Gives (λ _. self.new) result (call_stated self.old (handle_form handled.XRead (map lexeme rest.now))) }
    {
        let (handle, (n, into)) = handle_term_into(rest)?;
        let handle = self.names.variable(&handle)?;
        let (n, into) = place_term_into(&mut self.names, &n, &into)?;
        self.keep_call(CallForm::XRead { handle, n, into })
    }

    fn x_write_ovr(&mut self, alloc: Global, rest: &[Token]) -> Result<(), Stop>
        ensures { Gives (λ _. self.new) result (call_stated self.old (handle_form handled.XWriteOvr (map lexeme rest.now))) }
    {
        let (handle, data) = written(alloc, &self.source, &mut self.names, rest)?;
        self.keep_call(CallForm::XWriteOvr { handle, data })
    }

    fn x_write_seq(&mut self, alloc: Global, rest: &[Token]) -> Result<(), Stop>
        ensures { Gives (λ _. self.new) result (call_stated self.old (handle_form handled.XWriteSeq (map lexeme rest.now))) }
    {
        let (handle, data) = written(alloc, &self.source, &mut self.names, rest)?;
        self.keep_call(CallForm::XWriteSeq { handle, data })
    }

    fn x_seek(&mut self, rest: &[Token]) -> Result<(), Stop>
        ensures { Gives (λ _. self.new) result (call_stated self.old (handle_form handled.XSeek (map lexeme rest.now))) }
    {
        let (handle, to) = handle_and_term(rest)?;
        let handle = self.names.variable(&handle)?;
        let to = place_term(&mut self.names, &to)?;
        self.keep_call(CallForm::XSeek { handle, to })
    }

    fn x_len(&mut self, rest: &[Token]) -> Result<(), Stop>
        ensures { Gives (λ _. self.new) result (call_stated self.old (handle_form handled.XLen (map lexeme rest.now))) }
    {
        let (handle, into) = handle_into(rest)?;
        let handle = self.names.variable(&handle)?;
        let into = place_target(&mut self.names, &into)?;
        self.keep_call(CallForm::XLen { handle, into })
    }

    fn x_close(&mut self, rest: &[Token]) -> Result<(), Stop>
        ensures { Gives (λ _. self.new) result (call_stated self.old (handle_form handled.XClose (map lexeme rest.now))) }
    {
        let handle = handle_alone(rest)?;
        let handle = self.names.variable(&handle)?;
        self.keep_call(CallForm::XClose { handle })
    }

    fn x_sync(&mut self, rest: &[Token]) -> Result<(), Stop>
        ensures { Gives (λ _. self.new) result (call_stated self.old (handle_form handled.XSync (map lexeme rest.now))) }
    {
        let (handle, slot) = ident_and_slot(rest)?;
        let handle = self.names.variable(&handle)?;
        let slot = place_ending(&mut self.names, &slot)?;
        self.keep_call(CallForm::XSync { handle, slot })
    }

    fn x_pipe(&mut self, rest: &[Token]) -> Result<(), Stop>
        ensures { Gives (λ _. self.new) result (call_stated self.old (pipe_form piped.XPipe (map lexeme rest.now))) }
    {
        let into = target(rest)?;
        let into = place_target(&mut self.names, &into)?;
        self.keep_call(CallForm::XPipe { into })
    }

    fn x_read_pipe(&mut self, rest: &[Token]) -> Result<(), Stop>
        ensures { Gives (λ _. self.new) result (call_stated self.old (pipe_form piped.XReadPipe (map lexeme rest.now))) }
    {
        let (handle, (n, into)) = handle_term_into(rest)?;
        let handle = self.names.variable(&handle)?;
        let (n, into) = place_term_into(&mut self.names, &n, &into)?;
        self.keep_call(CallForm::XReadPipe { handle, n, into })
    }

    fn x_write_pipe(&mut self, alloc: Global, rest: &[Token]) -> Result<(), Stop>
        ensures { Gives (λ _. self.new) result (call_stated self.old (pipe_form piped.XWritePipe (map lexeme rest.now))) }
    {
        let ((handle, data), slot) = written_with_slot(alloc, &self.source, &mut self.names, rest)?;
        self.keep_call(CallForm::XWritePipe { handle, data, slot })
    }

    fn x_shutdown(&mut self, rest: &[Token]) -> Result<(), Stop>
        ensures { Gives (λ _. self.new) result (call_stated self.old (pipe_form piped.XShutdown (map lexeme rest.now))) }
    {
        let (handle, slot) = ident_and_slot(rest)?;
        let handle = self.names.variable(&handle)?;
        let slot = place_ending(&mut self.names, &slot)?;
        self.keep_call(CallForm::XShutdown { handle, slot })
    }

    fn x_pair(&mut self, rest: &[Token]) -> Result<(), Stop>
        ensures { Gives (λ _. self.new) result (call_stated self.old (pair_form paired.XPair (map lexeme rest.now))) }
    {
        let into = two_targets(rest)?;
        let into = place_targets(&mut self.names, &into)?;
        self.keep_call(CallForm::XPair { into })
    }

    fn x_recvmsg(&mut self, rest: &[Token]) -> Result<(), Stop>
        ensures { Gives (λ _. self.new) result (call_stated self.old (pair_form paired.XRecvmsg (map lexeme rest.now))) }
    {
        let (handle, into) = handle_into(rest)?;
        let handle = self.names.variable(&handle)?;
        let into = place_target(&mut self.names, &into)?;
        self.keep_call(CallForm::XRecvmsg { handle, into })
    }

    fn x_sendmsg(&mut self, alloc: Global, rest: &[Token]) -> Result<(), Stop>
        ensures { Gives (λ _. self.new) result (call_stated self.old (pair_form paired.XSendmsg (map lexeme rest.now))) }
    {
        let ((handle, data), slot) = written_with_slot(alloc, &self.source, &mut self.names, rest)?;
        self.keep_call(CallForm::XSendmsg { handle, data, slot })
    }

    fn x_thread_create(&mut self, alloc: Global, rest: &[Token]) -> Result<(), Stop>
        ensures { Gives (λ _. self.new) result (call_stated self.old (thread_form (map lexeme rest.now))) }
    {
        let (block, slot) = ident_and_slot(rest)?;
        let slot = place_ending(&mut self.names, &slot)?;
        let block = Boxed::new(alloc, block.ident())?;
        self.keep_call(CallForm::XThreadCreate { block, slot })
    }

    fn word_call(&mut self, call: WordCall, rest: &[Token]) -> Result<(), Stop>
        ensures { Gives (λ _. self.new) result (call_stated self.old (word_form call (map lexeme rest.now))) }
    {
        match call {
            WordCall::Load => self.load(rest),
            WordCall::Store => self.store(rest),
        }
    }

    fn name_call(&mut self, alloc: Global, call: NameCall, rest: &[Token]) -> Result<(), Stop>
        ensures { Gives (λ _. self.new) result (call_stated self.old (name_form call (map lexeme rest.now))) }
    {
        match call {
            NameCall::XOpen => self.x_open(alloc, rest),
            NameCall::XCreate => self.x_create(alloc, rest),
            NameCall::XRename => self.x_rename(alloc, rest),
            NameCall::XUnlink => self.x_unlink(alloc, rest),
        }
    }

    fn handle_call(&mut self, alloc: Global, call: HandleCall, rest: &[Token]) -> Result<(), Stop>
        ensures { Gives (λ _. self.new) result (call_stated self.old (handle_form call (map lexeme rest.now))) }
    {
        match call {
            HandleCall::XRead => self.x_read(rest),
            HandleCall::XWriteOvr => self.x_write_ovr(alloc, rest),
            HandleCall::XWriteSeq => self.x_write_seq(alloc, rest),
            HandleCall::XSeek => self.x_seek(rest),
            HandleCall::XLen => self.x_len(rest),
            HandleCall::XClose => self.x_close(rest),
            HandleCall::XSync => self.x_sync(rest),
        }
    }

    fn pipe_call(&mut self, alloc: Global, call: PipeCall, rest: &[Token]) -> Result<(), Stop>
        ensures { Gives (λ _. self.new) result (call_stated self.old (pipe_form call (map lexeme rest.now))) }
    {
        match call {
            PipeCall::XPipe => self.x_pipe(rest),
            PipeCall::XReadPipe => self.x_read_pipe(rest),
            PipeCall::XWritePipe => self.x_write_pipe(alloc, rest),
            PipeCall::XShutdown => self.x_shutdown(rest),
        }
    }

    fn pair_call(&mut self, alloc: Global, call: PairCall, rest: &[Token]) -> Result<(), Stop>
        ensures { Gives (λ _. self.new) result (call_stated self.old (pair_form call (map lexeme rest.now))) }
    {
        match call {
            PairCall::XPair => self.x_pair(rest),
            PairCall::XRecvmsg => self.x_recvmsg(rest),
            PairCall::XSendmsg => self.x_sendmsg(alloc, rest),
        }
    }

    // The call of a kind that the tokens after its word make.
    fn call(&mut self, alloc: Global, kind: CallKind, rest: &[Token]) -> Result<(), Stop>
        ensures { Gives (λ _. self.new) result (call_stated self.old (form_of kind (map lexeme rest.now))) }
    {
        match kind {
            CallKind::Word(call) => self.word_call(call, rest),
            CallKind::Name(call) => self.name_call(alloc, call, rest),
            CallKind::Handle(call) => self.handle_call(alloc, call, rest),
            CallKind::Pipe(call) => self.pipe_call(alloc, call, rest),
            CallKind::Pair(call) => self.pair_call(alloc, call, rest),
            CallKind::XThreadCreate => self.x_thread_create(alloc, rest),
        }
    }

    /// Reads the call that a line of a transaction is.
    pub(super) fn read_call(
        &mut self,
        alloc: Global,
        word: &[u8],
        rest: &[Token],
    ) -> Result<(), Stop>
        ensures { Gives (λ _. self.new) result (stated_by self.old (read_call_line (found_by call_kinds word.now) (map lexeme rest.now))) }
    {
        match call_kind(word) {
            Some(kind) => self.call(alloc, kind, rest),
            None => Err(Stop::Refused(Why::UnknownLine)),
        }
    }
}
