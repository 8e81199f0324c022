//! The names of files in the lines of a script.

ghost use Rattle.std.specs.Prelude.{◌≡◌, IfOk, IfSome, Ok};
ghost use Rattle.xc_tokens.specs.Views.{lexeme};
ghost use Rattle.xc_tokens.specs.Words.{name as name_said};

use std::alloc::Global;
use xc_data::{NoMemory, SharedName};
use xc_tokens::{Token, Why, name, spells};

/// The name that a line named last: one that comes again shares its place.
#[derive(Drop)]
pub struct FileNames {
    last: Option<SharedName>,
}

impl FileNames {
    /// No line named one.
    pub fn new() -> FileNames {
        FileNames { last: None }
    }

    // The last name, if the token is that name.
    fn again(&self, token: &Token) -> Option<SharedName>
        ensures { IfSome result (λ again. name_said (lexeme token.now) ≡ Ok again) }
    {
        match (&self.last, token) {
            (Some(last), Token::Word(word)) if spells(word, last.as_slice()) => Some(last.again()),
            _ => None,
        }
    }

    /// What is read where a file's name is due.
    #[inline(always)]
    pub fn name(
        &mut self,
        alloc: Global,
        token: &Token,
    ) -> Result<Result<SharedName, Why>, NoMemory>
        ensures { IfOk result (λ read. read ≡ name_said (lexeme token.now)) }
    {
        if let Some(again) = self.again(token) {
            return Ok(Ok(again));
        }
        match name(token) {
            Ok(name) => {
                let shared = SharedName::new(alloc, name)?;
                self.last = Some(shared.again());
                Ok(Ok(shared))
            }
            Err(why) => Ok(Err(why)),
        }
    }
}
