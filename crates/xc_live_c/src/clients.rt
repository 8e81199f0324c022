ghost use Rattle.std.specs.Prelude.{◌≡◌, ◌≤◌, ◌⊎◌, ◌++◌, ◌&&◌, [], length, pos, None, true, false, Ok, Err, IfOk, IfErr, OnErr, OnOk};
ghost use Rattle.std.specs.Option.{option_copied};
ghost use Rattle.xc_data.specs.Limits.{KeepsLimits};
ghost use Rattle.xc_data.specs.Spelling.{is_name};
ghost use Rattle.xc_memhost.specs.State.{mem_host_model};
ghost use Rattle.xc_model.specs.Opened.{IsOpening};
ghost use Rattle.xc_print.specs.Entries.{journal_text};
ghost use Rattle.xc_print.specs.Totals.{totals_of};
ghost use Rattle.xc_script.specs.declared.ask.Ask.TheVariants as PlainAsk;
ghost use Rattle.xc_station.specs.HandedTold.{last_reply_at};
ghost use Rattle.xc_station.specs.Jobs.{job_views};
ghost use Rattle.xc_station.specs.Stations.{entries_held, now_of};
ghost use Rattle.xc_text.specs.Scripts.{IsScript, parse_of};
ghost use Rattle.xc_tokens.specs.declared.why.Why.{Why};
ghost use Rattle.xc_live.specs.Closing.{NobodyIsActive, SomebodyIsActive};
ghost use Rattle.xc_live.specs.declared.answers.Called.TheVariants as PlainCalled;
ghost use Rattle.xc_live_c.specs.Finished.{IsTextOfRun, both_totals};
ghost use Rattle.xc_live_c.specs.Handing.{HasHandedOut};
ghost use Rattle.xc_live_c.specs.Opened.{IsDeskAsked, IsNotOpened, client_lines, desk_rules, desk_text};
ghost use Rattle.xc_live_c.specs.Told.{IsBegunInC, IsCalledInC, IsEndedInC, IsNoPlace, IsNotPlaced, KeepsDesk};
ghost use Rattle.xc_live_c.specs.Told.{has_begun, telling_of, with_begun};

use crate::codes::{
    BAD_NAME, BAD_TEXT, BEGUN, ENDED, NO_MEMORY, NOT_BEGUN, OK, TOO_MANY_NAMES, began_code,
    called_code, ended_code, kind_number, reply_code, value_of,
};
use crate::counts::{both_totals, held_totals};
use crate::run_text::RunText;
use std::alloc::Global;
use xc_data::{Call, Chunk, Name, NoMemory, Reply, SharedName, SlotName, Text};
use xc_live::{Began, Called, Desk};
use xc_memhost::MemHost;
use xc_model::Rules;
use xc_names::{Names, NotPlaced};
use xc_print::{Page, Totals, entry_text};
use xc_text::{ParseErr, Script, parse};

/// No bound on attempts at one transaction: the numbers of transactions end here too.
pub const ANY_ATTEMPTS: u32 = 4_294_967_295;

/// How many clients a desk has at most.
pub const MOST_CLIENTS: u32 = 1_000;

/// A desk over a host in memory, and what the calls of its clients need beside it.
#[derive(Drop)]
pub struct Clients {
    pub(crate) desk: Desk<MemHost>,
    // The clients that were told that they have begun, and not yet that their transaction has ended. The first place is nobody's.
    pub(crate) begun: Vec<bool>,
    // What the last line of the run's text counts of the entries that were handed out.
    pub(crate) counted: Totals,
    names: Names,
}

// The rules of a desk for C: as much patience as there may be.
fn desk_rules(attempts: u32) -> Rules
    ensures { result ≡ desk_rules attempts }
{
    Rules {
        attempts,
        patience: 1_000_000,
        undo_tries: 16,
    }
}

// The lines of clients, at the end of a page.
#[tactic(auto, using(crate::proofs::Lines::one_more_line))]
fn push_clients(out: &mut Page, clients: u32) -> Result<(), NoMemory>
    ensures { OnOk result (out.new ≡ out.old ++ client_lines clients) }
{
    for client in 0..clients {
        out.labelled("job c", u64::from(client) + 1)?;
        out.text("\nend\n")?;
    }
    Ok(())
}

// The text of a desk.
fn desk_text(alloc: Global, prologue: &[u8], words: u32, clients: u32) -> Result<Chunk, NoMemory>
    ensures { IfOk result (λ text. text ≡ desk_text prologue.now words clients) }
{
    let mut out = Page::new(alloc);
    out.push(prologue)?;
    out.labelled("\nwords ", u64::from(words))?;
    out.text("\n")?;
    push_clients(&mut out, clients)?;
    Chunk::new(alloc, out.into_text().as_slice())
}

/// Why there are no clients: a code, and the line of the text.
#[derive(Clone, Copy)]
pub(crate) struct NoClients {
    pub(crate) code: i32,
    pub(crate) line: u32,
}

impl From<NoMemory> for NoClients {
    ghost use Rattle.std.specs.Prelude.{◌≡◌, pos};

    ghost from_gives = { λ _ e. e ≡ record { code = pos 14; line = 0 } };

    fn from(_: NoMemory) -> Self {
        NoClients {
            code: NO_MEMORY,
            line: 0,
        }
    }
}

// Of a text that is no script, its first bad line.
fn bad_text(line: u32) -> NoClients
    ensures { result ≡ record { code = pos 15; line = line } }
{
    NoClients {
        code: BAD_TEXT,
        line,
    }
}

// The script of a text.
fn read_script(alloc: Global, text: &Chunk) -> Result<Script, NoClients>
    ensures ok { IfOk result (λ script. parse_of text.now ≡ Ok script) }
    ensures script { IfOk result IsScript }
    ensures limits { IfOk result (λ script. KeepsLimits script.outline) }
    ensures err { IfErr result (λ no. ((why : Why) × (parse_of text.now ≡ Err (no.line, why)) × (no.code ≡ pos 15))
        ⊎ ((no.code ≡ pos 14) × (no.line ≡ 0))) }
{
    match parse(alloc, text) {
        Ok(script) => Ok(script),
        Err(ParseErr::Refused { line, .. }) => Err(bad_text(line)),
        Err(ParseErr::NoMemory) => Err(NoClients::from(NoMemory)),
    }
}

// A desk of which it is known that nothing was handed out.
fn unparted(desk: Desk<MemHost>) -> Result<Desk<MemHost>, NoMemory>
    requires { desk.journal ≡ [] }
    ensures { IfOk result (λ new. new ≡ record desk { gone = 0 }) }
{
    let mut desk = desk;
    let _none = desk.hand_out()?;
    Ok(desk)
}

impl Clients {
    // A desk of a script that was read. A host in memory can follow each.
    fn start(
        alloc: Global,
        script: Script,
        begun: Vec<bool>,
        attempts: u32,
    ) -> Result<Clients, NoClients>
        requires script { IsScript script }
        requires limits { KeepsLimits script.outline }
        requires attempts { 1 ≤ attempts }
        ensures clients { IfOk result (λ c. c.desk.opening.script ≡ record script { clients = true }) }
        ensures opening { IfOk result (λ c. IsOpening (record script { clients = true }) (now_of mem_host_model c.desk)) }
        ensures rules { IfOk result (λ c. c.desk.rules ≡ desk_rules attempts) }
        ensures begun { IfOk result (λ c. c.begun.items ≡ begun.items) }
        ensures gone { IfOk result (λ c. c.desk.gone ≡ 0) }
        ensures counted { IfOk result (λ c. c.counted ≡ totals_of []) }
        ensures err { IfErr result (λ no. no ≡ record { code = pos 14; line = 0 }) }
    {
        let names = Names::new(alloc)?;
        let host = MemHost::new(alloc);
        let Ok(desk) = Desk::start(alloc, host, script.for_clients(), desk_rules(attempts)) else {
            return Err(NoClients::from(NoMemory));
        };
        let desk = unparted(desk)?;
        let counted = Totals {
            committed: 0,
            aborted: 0,
            faults: 0,
            remains: 0,
        };
        Ok(Clients {
            desk,
            begun,
            counted,
            names,
        })
    }

    /// A desk of so many clients and words, over the files, pipes and pairs of a prologue. Nobody has begun.
    pub(crate) fn open(
        alloc: Global,
        prologue: &[u8],
        words: u32,
        clients: u32,
        attempts: u32,
    ) -> Result<Clients, NoClients>
        ensures ok { IfOk result (λ c. IsDeskAsked
            (record { prologue = prologue.now; words = words; clients = clients; attempts = attempts }) c) }
        ensures err { IfErr result (λ no. IsNotOpened
            (record { prologue = prologue.now; words = words; clients = clients; attempts = attempts }) no.code no.line) }
    {
        if clients > MOST_CLIENTS || attempts == 0 {
            return Err(bad_text(0));
        }
        let text = desk_text(alloc, prologue, words, clients)?;
        let script = read_script(alloc, &text)?;
        let Ok(begun) = Vec::from_elem(alloc, false, clients as usize + 1) else {
            return Err(NoClients::from(NoMemory));
        };
        Clients::start(alloc, script, begun, attempts)
    }

    // Whether a client was told that it has begun, and not yet that its transaction has ended.
    fn has_begun(&self, client: u32) -> bool
        ensures { result ≡ has_begun self.now.begun.items client }
    {
        matches!(self.begun.get(client as usize), Some(true))
    }

    // From now on it is told so, or not.
    fn note(&mut self, client: u32, goes_on: bool)
        ensures begun { self.new.begun.items ≡ with_begun self.old.begun.items client goes_on }
        ensures same { (self.new.desk ≡ self.old.desk) × (self.new.counted ≡ self.old.counted) }
    {
        if let Some(place) = self.begun.get_mut(client as usize) {
            *place = goes_on;
        }
    }

    /// Begins a transaction of a client.
    pub(crate) fn begin(&mut self, client: u32) -> i32
        ensures { IsBegunInC client self.old self.new result }
    {
        if self.begun.get(client as usize).is_none() || !self.desk.live(client) {
            return ENDED;
        }
        if self.desk.is_active(client) {
            return BEGUN;
        }
        let began = self.desk.begin(client);
        self.note(client, matches!(began, Began::Went));
        began_code(&began)
    }

    // Tells what the last call of a client replied, where it has begun.
    fn tell(&self, client: u32, kind: &mut u32, value: &mut u64) -> i32
        ensures { telling_of PlainCalled.Replied (last_reply_at (job_views self.now.desk.jobs) client)
            (record { code = result; kind = kind.new; value = value.new }) }
    {
        let Some(reply) = self.desk.reply(client) else {
            return OK;
        };
        *kind = kind_number(reply);
        *value = value_of(reply);
        reply_code(reply)
    }

    /// Makes a call of a client. Kind and value are set where it replied.
    pub(crate) fn call(&mut self, client: u32, call: Call, kind: &mut u32, value: &mut u64) -> i32
        ensures { IsCalledInC client call self.old self.new (record { code = result; kind = kind.new; value = value.new }) }
    {
        if !self.has_begun(client) {
            return NOT_BEGUN;
        }
        let called = self.desk.call(client, call);
        let goes_on = matches!(called, Called::Replied | Called::Refused);
        self.note(client, goes_on);
        match called {
            Called::Replied => self.tell(client, kind, value),
            Called::Again(_) | Called::Refused | Called::Gone => called_code(&called),
        }
    }

    /// The reply to the last call of a client.
    pub(crate) fn reply(&self, client: u32) -> Option<&Reply>
        ensures { option_copied result ≡ last_reply_at (job_views self.now.desk.jobs) client }
    {
        self.desk.reply(client)
    }

    /// The slot that a late call from C names: none.
    pub(crate) fn no_slot(&self) -> SlotName
        ensures { result ≡ None }
    {
        self.names.no_slot()
    }

    /// A name's place, for a client that has begun, or else why there is none.
    pub(crate) fn place(
        &mut self,
        alloc: Global,
        client: u32,
        name: &[u8],
    ) -> Result<SharedName, i32>
        ensures ok { IfOk result (λ shared. shared ≡ name.now) }
        ensures err { IfErr result (λ code. IsNotPlaced (has_begun self.old.begun.items client) (is_name name.now) code) }
        ensures fit { IfOk result (λ _. (has_begun self.old.begun.items client ≡ true) × (is_name name.now ≡ true)) }
        ensures same { KeepsDesk self.old self.new }
    {
        if !self.has_begun(client) {
            return Err(NOT_BEGUN);
        }
        let Some(name) = Name::new(name) else {
            return Err(BAD_NAME);
        };
        self.placed(alloc, name)
    }

    // The place of a name, or the code that says why it gets none.
    fn placed(&mut self, alloc: Global, name: Name) -> Result<SharedName, i32>
        ensures ok { IfOk result (λ shared. shared ≡ name) }
        ensures err { IfErr result IsNoPlace }
        ensures same { KeepsDesk self.old self.new }
    {
        match self.names.place(alloc, name) {
            Ok(shared) => Ok(shared),
            Err(NotPlaced::Full) => Err(TOO_MANY_NAMES),
            Err(NotPlaced::NoMemory) => Err(NO_MEMORY),
        }
    }

    /// The places of two names, for a client that has begun, or else why there are none. Both are names before one gets its place.
    pub(crate) fn place_two(
        &mut self,
        alloc: Global,
        client: u32,
        one: &[u8],
        other: &[u8],
    ) -> Result<(SharedName, SharedName), i32>
        ensures ok { IfOk result (λ both. (both.0 ≡ one.now) × (both.1 ≡ other.now)) }
        ensures err { IfErr result (λ code.
            IsNotPlaced (has_begun self.old.begun.items client) (is_name one.now && is_name other.now) code) }
        ensures fit { IfOk result (λ _. (has_begun self.old.begun.items client ≡ true) × ((is_name one.now && is_name other.now) ≡ true)) }
        ensures same { KeepsDesk self.old self.new }
    {
        if !self.has_begun(client) {
            return Err(NOT_BEGUN);
        }
        let Some(one) = Name::new(one) else {
            return Err(BAD_NAME);
        };
        let Some(other) = Name::new(other) else {
            return Err(BAD_NAME);
        };
        let one = self.placed(alloc, one)?;
        let other = self.placed(alloc, other)?;
        Ok((one, other))
    }

    /// Commits the transaction of a client.
    pub(crate) fn commit(&mut self, client: u32) -> i32
        ensures { IsEndedInC client PlainAsk.Commit self.old self.new result }
    {
        if !self.has_begun(client) {
            return NOT_BEGUN;
        }
        self.note(client, false);
        ended_code(&self.desk.commit(client))
    }

    /// Undoes the transaction of a client.
    pub(crate) fn abort(&mut self, client: u32) -> i32
        ensures { IsEndedInC client PlainAsk.Abort self.old self.new result }
    {
        if !self.has_begun(client) {
            return NOT_BEGUN;
        }
        self.note(client, false);
        ended_code(&self.desk.abort(client))
    }

    /// The printed entries that weren't handed out.
    pub(crate) fn journal_text(&self, alloc: Global) -> Result<Text, NoMemory>
        ensures { IfOk result (λ text. text ≡ journal_text (entries_held self.now.desk)) }
    {
        let mut out = Page::new(alloc);
        let journal = self.desk.journal();
        for entry in journal {
            out.push(entry_text(alloc, entry)?.as_slice())?;
        }
        Ok(out.into_text())
    }

    // Hands out the entries that wait, and counts them.
    fn let_go(&mut self) -> Result<(), NoMemory>
        ensures desk { OnOk result (self.new.desk ≡ record self.old.desk { gone = length self.old.desk.journal }) }
        ensures begun { OnOk result (self.new.begun.items ≡ self.old.begun.items) }
        ensures counted { OnOk result (self.new.counted ≡ both_totals self.old.counted (totals_of (entries_held self.old.desk))) }
        ensures err { OnErr result (self.new ≡ self.old) }
    {
        let Some(more) = held_totals(self.desk.journal()) else {
            return Err(NoMemory);
        };
        let Some(counted) = both_totals(self.counted, more) else {
            return Err(NoMemory);
        };
        let _entries = self.desk.hand_out()?;
        self.counted = counted;
        Ok(())
    }

    /// Hands out the entries that wait, as a text. Without memory nothing changes.
    pub(crate) fn hand_out(&mut self, alloc: Global) -> Result<Box<RunText>, NoMemory>
        ensures ok { IfOk result (λ text. HasHandedOut self.old self.new text.value) }
        ensures err { OnErr result (self.new ≡ self.old) }
    {
        // What is handed out can't be taken back, so the text comes first.
        let bytes = self.journal_text(alloc)?;
        let text = Box::new(alloc, RunText { bytes })?;
        self.let_go()?;
        Ok(text)
    }

    /// Whether no client has a transaction.
    pub(crate) fn is_quiet(&self) -> bool
        ensures yes { result ≡ true → NobodyIsActive self.now.desk }
        ensures no { result ≡ false → SomebodyIsActive self.now.desk }
    {
        self.desk.is_quiet()
    }

    /// Ends all clients, and prints the run.
    pub(crate) fn finish(self, alloc: Global) -> Result<RunText, NoMemory>
        requires { NobodyIsActive self.desk }
        ensures { IfOk result (λ text. IsTextOfRun self text) }
    {
        let Clients {
            desk,
            begun: _begun,
            counted,
            names: _names,
        } = self;
        let end = desk.close();
        RunText::of(alloc, &end, counted)
    }
}
