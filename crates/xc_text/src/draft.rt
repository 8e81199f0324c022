ghost use Rattle.std.specs.Prelude.{◌≡◌, ◌≤◌, ◌++◌, false, map, replicate, IfOk, IsOk, IsTrue};
ghost use Rattle.xc_tokens.specs.Answers.{Gives, and_then};
ghost use Rattle.xc_tokens.specs.Views.{lexeme};
ghost use Rattle.xc_text.specs.Grammar.{prologue_line, between_line, block_line, outer_line, inner_line, transaction_line, worded_line};
ghost use Rattle.xc_text.specs.Grammar.{first_line, is_outside_line};
ghost use Rattle.xc_text.specs.Inner.{is_open};
ghost use Rattle.xc_text.specs.Said.{nothing_said};
ghost use Rattle.xc_text.specs.Scripts.{script_of};
ghost use Rattle.xc_text.specs.Sections.{block_in, is_outside, transaction_in};
ghost use Rattle.xc_text.specs.Steps.{is_among, may_begin, started, bodied, transaction_begun, stated_as, committed, ended_block};
ghost use Rattle.xc_text.specs.Steps.{after_line, after_tokens, after_bytes};

use crate::block_names::BlockNames;
use crate::counted::CountedBody;
use crate::file_names::FileNames;
use crate::grammar::{between_line, prologue_line};
use crate::limits::{FIRST_WORDS, MOST_BLOCKS, MOST_TRANSACTIONS};
use crate::line::{ScriptLine, Section};
use crate::names::Names;
use crate::objects::Objects;
use crate::script::{Block, Body, NameIndex, Script, Statement};
use crate::shapes::bare;
use crate::source::SharedText;
use std::alloc::Global;
use std::marker::Model;
use std::mem;
use xc_data::{Chunk, FaultList, Ident, Items, NoMemory, Outline, Prologue, WordList};
use xc_tokens::{Stop, TextLine, Token, Why, read_tokens, spells};

mod calls;
mod opening;
mod statements;

/// A script as far as its lines were read.
#[derive(Drop)]
pub struct Draft {
    source: SharedText,
    files: FileNames,
    section: Section,
    words: WordList,
    /// A `words` line came.
    sized: bool,
    /// A `word` line came.
    valued: bool,
    objects: Objects,
    faults: FaultList,
    grain: Option<u32>,
    /// The variables that the handles of the objects are in.
    handles: Items<NameIndex>,
    names: Names,
    /// The names of all blocks, also of the one under way.
    block_names: BlockNames,
    /// The blocks that have ended.
    blocks: Items<Block>,
    /// The transactions of the block under way that have ended.
    transactions: Items<Body>,
    /// The transaction under way.
    body: CountedBody,
}

impl Model for Draft {
    ghost use Rattle.xc_text.specs.Said.{Said};

    ghost Value = { Said };

    ghost view = { λ a. record {
      section = a.section;
      words = a.words;
      sized = a.sized;
      valued = a.valued;
      objects = a.objects;
      faults = a.faults;
      grain = a.grain;
      handles = a.handles;
      names = a.names;
      jobs = a.block_names.jobs;
      bodies = a.block_names.bodies;
      blocks = a.blocks;
      transactions = a.transactions;
      body = a.body;
    } };
}

fn zeros(alloc: Global, n: u64) -> Result<WordList, NoMemory>
    requires { n ≤ 4096 }
    ensures { IfOk result (λ words. words ≡ replicate n 0) }
{
    Ok(Items::from_vec(vec![in alloc; 0u64; n as usize]?))
}

impl Draft {
    /// No line was read.
    pub fn new(alloc: Global, text: Chunk) -> Result<Draft, NoMemory>
        ensures { IfOk result (λ draft. draft ≡ nothing_said) }
    {
        Ok(Draft {
            source: SharedText::new(text),
            files: FileNames::new(),
            section: Section::Prologue,
            words: zeros(alloc, FIRST_WORDS)?,
            sized: false,
            valued: false,
            objects: Objects::new(alloc),
            faults: Items::new(alloc),
            grain: None,
            handles: Items::new(alloc),
            names: Names::new(alloc)?,
            block_names: BlockNames::new(alloc),
            blocks: Items::new(alloc),
            transactions: Items::new(alloc),
            body: CountedBody::new(alloc),
        })
    }

    /// A script may end here.
    pub fn is_outside(&self) -> bool
        ensures { result ≡ is_outside self.now.section }
    {
        self.section.is_outside()
    }

    /// The whole script.
    pub fn into_script(self) -> Script
        ensures { result ≡ script_of self }
    {
        let (jobs, bodies) = self.block_names.into_lists();
        let prologue = Prologue {
            objects: self.objects.into_objects(),
            faults: self.faults,
            grain: self.grain,
        };
        Script {
            outline: Outline {
                words: self.words,
                prologue,
                bodies,
                jobs,
            },
            blocks: self.blocks,
            variables: self.names.variables,
            slots: self.names.slots,
            handles: self.handles,
            clients: false,
        }
    }

    // A block of this name may begin.
    fn check_block(&self, name: Ident) -> Result<(), Why>
        ensures check { result ≡ may_begin self.now name }
        ensures new { IsOk result → is_among name (self.now.jobs ++ self.now.bodies) ≡ false }
    {
        if self.block_names.has(name) {
            return Err(Why::Twice);
        }
        if self.block_names.len() >= MOST_BLOCKS {
            return Err(Why::TooMany);
        }
        Ok(())
    }

    fn start_job(&mut self, name: Ident) -> Result<(), Stop>
        ensures { Gives (λ _. self.new) result (started self.old name) }
    {
        self.check_block(name)?;
        self.block_names.push_job(name)?;
        self.section = Section::Block(name);
        Ok(())
    }

    fn start_body(&mut self, name: Ident) -> Result<(), Stop>
        ensures { Gives (λ _. self.new) result (bodied self.old name) }
    {
        self.check_block(name)?;
        self.block_names.push_body(name)?;
        self.section = Section::Block(name);
        Ok(())
    }

    fn begin(&mut self) -> Result<(), Stop>
        ensures { Gives (λ _. self.new) result (transaction_begun self.old (block_in self.old.section)) }
    {
        let Some(name) = self.section.block() else {
            return Err(Stop::Refused(Why::UnknownLine));
        };
        if self.transactions.len() >= MOST_TRANSACTIONS {
            return Err(Stop::Refused(Why::TooMany));
        }
        self.section = Section::Transaction(name);
        Ok(())
    }

    // One more statement, whose names have their places. Each of its callers puts it right into the list.
    #[inline(always)]
    fn keep(&mut self, placed: Statement<NameIndex>) -> Result<(), Stop>
        ensures { Gives (λ _. self.new) result (stated_as self.old (self.old.names, placed)) }
    {
        if !self.body.has_room(&placed) || !self.names.are_few() {
            return Err(Stop::Refused(Why::TooMany));
        }
        self.body.push(placed)?;
        Ok(())
    }

    fn commit(&mut self, alloc: Global) -> Result<(), Stop>
        ensures { Gives (λ _. self.new) result (committed self.old (transaction_in self.old.section)) }
    {
        let Some(name) = self.section.transaction() else {
            return Err(Stop::Refused(Why::UnknownLine));
        };
        let body = self.body.take_body(alloc)?;
        self.transactions.push(body)?;
        self.section = Section::Block(name);
        Ok(())
    }

    fn end(&mut self, alloc: Global) -> Result<(), Stop>
        ensures { Gives (λ _. self.new) result (ended_block self.old (block_in self.old.section)) }
    {
        let Some(name) = self.section.block() else {
            return Err(Stop::Refused(Why::UnknownLine));
        };
        let transactions = mem::replace(&mut self.transactions, Items::new(alloc));
        self.blocks.push(Block { name, transactions })?;
        self.section = Section::Between;
        Ok(())
    }

    fn add(&mut self, alloc: Global, line: ScriptLine) -> Result<(), Stop>
        requires plain { IsTrue (is_outside_line line) }
        ensures { Gives (λ _. self.new) result (after_line self.old line.entry) }
    {
        match line {
            ScriptLine::Words(n) => self.size(alloc, n),
            ScriptLine::Word { at, value } => self.value(at, value),
            ScriptLine::File { name, bytes } => self.file(name, bytes),
            ScriptLine::Pipe { handle, bytes } => self.pipe(&handle, bytes),
            ScriptLine::Pair { first, second } => self.pair(&first, &second),
            ScriptLine::Fault { kind, first, last } => self.fault(kind, first, last),
            ScriptLine::Grain(n) => self.set_grain(n),
            ScriptLine::Job(name) => self.start_job(name),
            ScriptLine::Body(name) => self.start_body(name),
            ScriptLine::Begin => self.begin(),
            ScriptLine::Statement(_) => unreachable!(),
            ScriptLine::Commit => self.commit(alloc),
            ScriptLine::End => self.end(alloc),
        }
    }

    fn read_in_prologue(&mut self, alloc: Global, word: &[u8], rest: &[Token]) -> Result<(), Stop>
        ensures { Gives (λ _. self.new) result
            (and_then (prologue_line word.now (map lexeme rest.now)) (λ says. after_line self.old says)) }
    {
        let line = prologue_line(alloc, word, rest)?;
        self.add(alloc, line)
    }

    fn read_between(&mut self, alloc: Global, word: &[u8], rest: &[Token]) -> Result<(), Stop>
        ensures { Gives (λ _. self.new) result (and_then (between_line word.now (map lexeme rest.now)) (λ says. after_line self.old says)) }
    {
        let line = between_line(word, rest)?;
        self.add(alloc, line)
    }

    fn read_in_block(&mut self, alloc: Global, word: &[u8], rest: &[Token]) -> Result<(), Stop>
        ensures { Gives (λ _. self.new) result (and_then (block_line word.now (map lexeme rest.now)) (λ says. after_line self.old says)) }
    {
        if spells(word, b"tx") {
            bare(rest)?;
            return self.begin();
        }
        if spells(word, b"end") {
            bare(rest)?;
            return self.end(alloc);
        }
        Err(Stop::Refused(Why::UnknownLine))
    }

    // A line of a transaction, outside of its inner blocks.
    fn read_outer(&mut self, alloc: Global, word: &[u8], rest: &[Token]) -> Result<(), Stop>
        ensures { Gives (λ _. self.new) result (and_then (outer_line word.now (map lexeme rest.now)) (λ says. after_line self.old says)) }
    {
        if spells(word, b"commit") {
            bare(rest)?;
            return self.commit(alloc);
        }
        self.read_outer_statement(alloc, word, rest)
    }

    // A line of an inner block.
    fn read_inner(&mut self, alloc: Global, word: &[u8], rest: &[Token]) -> Result<(), Stop>
        ensures { Gives (λ _. self.new) result (and_then (inner_line word.now (map lexeme rest.now)) (λ says. after_line self.old says)) }
    {
        self.read_inner_statement(alloc, word, rest)
    }

    fn read_in_transaction(
        &mut self,
        alloc: Global,
        word: &[u8],
        rest: &[Token],
    ) -> Result<(), Stop>
        ensures { Gives (λ _. self.new) result
            (and_then (transaction_line (is_open self.old.body) word.now (map lexeme rest.now)) (λ says. after_line self.old says)) }
    {
        if self.body.is_open() {
            return self.read_inner(alloc, word, rest);
        }
        self.read_outer(alloc, word, rest)
    }

    // A line that begins with a word, by the section that it stands in.
    fn read_word(&mut self, alloc: Global, word: &[u8], rest: &[Token]) -> Result<(), Stop>
        ensures { Gives (λ _. self.new) result
            (and_then (worded_line self.old.section (is_open self.old.body) word.now (map lexeme rest.now))
            (λ says. after_line self.old says)) }
    {
        match self.section {
            Section::Prologue => self.read_in_prologue(alloc, word, rest),
            Section::Between => self.read_between(alloc, word, rest),
            Section::Block(_) => self.read_in_block(alloc, word, rest),
            Section::Transaction(_) => self.read_in_transaction(alloc, word, rest),
        }
    }

    fn read_first(&mut self, alloc: Global, first: &Token, rest: &[Token]) -> Result<(), Stop>
        ensures { Gives (λ _. self.new) result
            (and_then (first_line self.old.section (is_open self.old.body) (lexeme first.now) (map lexeme rest.now))
            (λ says. after_line self.old says)) }
    {
        match first {
            Token::Word(word) => self.read_word(alloc, word, rest),
            Token::Plain { .. } | Token::Escaped { .. } => Err(Stop::Refused(Why::UnknownLine)),
        }
    }

    fn read_line(&mut self, alloc: Global, tokens: &[Token]) -> Result<(), Stop>
        ensures { Gives (λ _. self.new) result (after_tokens self.old (map lexeme tokens.now)) }
    {
        match tokens {
            [] => Ok(()),
            [first, rest @ ..] => self.read_first(alloc, first, rest),
        }
    }

    /// Reads one more line. The tokens are those of the line before, and then its own.
    #[inline(always)]
    pub fn read<'a>(
        &mut self,
        alloc: Global,
        tokens: &mut Vec<Token<'a>>,
        line: &TextLine<'a>,
    ) -> Result<(), Stop>
        ensures { Gives (λ _. self.new) result (after_bytes self.old line.now) }
    {
        if !line.is_clean() {
            return Err(Stop::Refused(Why::BadByte));
        }
        self.source.set_behind(line.behind());
        read_tokens(tokens, line)?;
        self.read_line(alloc, tokens.as_slice())
    }
}
