//! What lines write through a handle. It is checked first, and then its names take their places while it is made.

ghost use Rattle.std.specs.Prelude.{◌≡◌, map};
ghost use Rattle.xc_text.specs.Pieces.{data_of};
ghost use Rattle.xc_text.specs.Places.{placed_write, written_with_slot_of};
ghost use Rattle.xc_text.specs.Shapes.{led, before_slot};
ghost use Rattle.xc_tokens.specs.Answers.{Gives, seen};
ghost use Rattle.xc_tokens.specs.Views.{lexeme};
ghost use Rattle.xc_tokens.specs.Words.{ident as ident_said};

use crate::names::Names;
use crate::pieces::{check_data, data};
use crate::places::place_ending;
use crate::script::{Data, NameIndex};
use crate::shapes::{parted, slot_ending};
use crate::source::SharedText;
use std::alloc::Global;
use xc_tokens::{Stop, Token, Why, beside, both, ident_token};

/// `H D`
#[inline(always)]
pub fn written(
    alloc: Global,
    source: &SharedText,
    names: &mut Names,
    tokens: &[Token],
) -> Result<(NameIndex, Data<NameIndex>), Stop>
    ensures { Gives (λ written. (names.new, written)) result
        (seen (placed_write names.old) (led ident_said data_of (map lexeme tokens.now))) }
{
    match tokens {
        [] => Err(Stop::Refused(Why::BadForm)),
        [handle, items @ ..] => {
            let handle = beside(ident_token(handle), check_data(items))?;
            let handle = names.variable(&handle)?;
            let data = data(alloc, source, names, items)?;
            Ok((handle, data))
        }
    }
}

/// `H D`, `H D slot S`
pub fn written_with_slot(
    alloc: Global,
    source: &SharedText,
    names: &mut Names,
    tokens: &[Token],
) -> Result<((NameIndex, Data<NameIndex>), Option<NameIndex>), Stop>
    ensures { Gives (λ written. (names.new, written)) result
        (seen (written_with_slot_of names.old) (led ident_said (before_slot data_of) (map lexeme tokens.now))) }
{
    match tokens {
        [] => Err(Stop::Refused(Why::BadForm)),
        [handle, behind @ ..] => {
            let (items, ending) = parted(behind);
            let slot = both(check_data(items), slot_ending(ending));
            let (handle, ((), slot)) = both(ident_token(handle), slot)?;
            let handle = names.variable(&handle)?;
            let data = data(alloc, source, names, items)?;
            let slot = place_ending(names, &slot)?;
            Ok(((handle, data), slot))
        }
    }
}
