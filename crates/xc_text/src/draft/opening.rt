//! The lines of a prologue.

ghost use Rattle.std.specs.Prelude.{◌≡◌, false, Some};
ghost use Rattle.std.specs.List.{list_any};
ghost use Rattle.xc_tokens.specs.Answers.{Gives};
ghost use Rattle.xc_text.specs.Places.{variable};
ghost use Rattle.xc_text.specs.Steps.{is_file_of, sized_by, valued_by, filed, file_added, piped, piped_at, paired, faulted, grain_stated};

use crate::draft::{Draft, zeros};
use crate::limits::{MOST_GRAIN, MOST_OBJECTS, MOST_WORDS};
use std::alloc::Global;
use xc_data::{Chunk, FaultLine, HostCallKind, Name};
use xc_tokens::{IdentWord, Stop, Why};

impl Draft {
    pub(super) fn size(&mut self, alloc: Global, n: u64) -> Result<(), Stop>
        ensures { Gives (λ _. self.new) result (sized_by self.old n) }
    {
        if n < 1 || n > MOST_WORDS {
            return Err(Stop::Refused(Why::BadNumber));
        }
        if self.sized || self.valued {
            return Err(Stop::Refused(Why::Twice));
        }
        self.words = zeros(alloc, n)?;
        self.sized = true;
        Ok(())
    }

    pub(super) fn value(&mut self, at: u64, value: u64) -> Result<(), Stop>
        ensures { Gives (λ _. self.new) result (valued_by self.old at value) }
    {
        if at >= self.words.len() as u64 {
            return Err(Stop::Refused(Why::BadNumber));
        }
        self.words.set(at as usize, value);
        self.valued = true;
        Ok(())
    }

    fn add_file(&mut self, name: Name, bytes: Chunk) -> Result<(), Stop>
        requires new { list_any (is_file_of name) self.old.objects ≡ false }
        ensures { Gives (λ _. self.new) result (file_added self.old name (Some bytes)) }
    {
        if self.objects.len() >= MOST_OBJECTS {
            return Err(Stop::Refused(Why::TooMany));
        }
        self.objects.push_file(name, bytes)?;
        Ok(())
    }

    pub(super) fn file(&mut self, name: Name, bytes: Option<Chunk>) -> Result<(), Stop>
        ensures { Gives (λ _. self.new) result (filed self.old name bytes) }
    {
        if self.objects.has(name) {
            return Err(Stop::Refused(Why::Twice));
        }
        match bytes {
            Some(bytes) => self.add_file(name, bytes),
            None => Err(Stop::Refused(Why::TooMany)),
        }
    }

    fn add_pipe(&mut self, handle: &IdentWord, bytes: Chunk) -> Result<(), Stop>
        ensures { Gives (λ _. self.new) result (piped_at self.old bytes (variable self.old.names handle.now)) }
    {
        let at = self.names.variable(handle)?;
        if !self.objects.has_room_for_pipe() || !self.names.are_few() {
            return Err(Stop::Refused(Why::TooMany));
        }
        self.objects.push_pipe(bytes)?;
        self.handles.push(at)?;
        Ok(())
    }

    pub(super) fn pipe(&mut self, handle: &IdentWord, bytes: Option<Chunk>) -> Result<(), Stop>
        ensures { Gives (λ _. self.new) result (piped self.old handle.now bytes) }
    {
        match bytes {
            Some(bytes) => self.add_pipe(handle, bytes),
            None => Err(Stop::Refused(Why::TooMany)),
        }
    }

    pub(super) fn pair(&mut self, first: &IdentWord, second: &IdentWord) -> Result<(), Stop>
        ensures { Gives (λ _. self.new) result (paired self.old first.now second.now) }
    {
        let (first, second) = self.names.two_variables(first, second)?;
        if !self.objects.has_room_for_pair() || !self.names.are_few() {
            return Err(Stop::Refused(Why::TooMany));
        }
        self.objects.push_pair()?;
        self.handles.push(first)?;
        self.handles.push(second)?;
        Ok(())
    }

    pub(super) fn fault(&mut self, kind: HostCallKind, first: u64, last: u64) -> Result<(), Stop>
        ensures { Gives (λ _. self.new) result (faulted self.old kind first last) }
    {
        if first < 1 || last < first {
            return Err(Stop::Refused(Why::BadNumber));
        }
        self.faults.push(FaultLine { kind, first, last })?;
        Ok(())
    }

    pub(super) fn set_grain(&mut self, n: u64) -> Result<(), Stop>
        ensures { Gives (λ _. self.new) result (grain_stated self.old n) }
    {
        if n < 1 || n > MOST_GRAIN {
            return Err(Stop::Refused(Why::BadNumber));
        }
        if self.grain.is_some() {
            return Err(Stop::Refused(Why::Twice));
        }
        self.grain = Some(n as u32);
        Ok(())
    }
}
