ghost use Rattle.std.specs.Prelude.{◌≡◌, nat_eq};
ghost use Rattle.std.specs.Cmp.Lexicographic.{pointwise};
ghost use Rattle.std.specs.List.{list_any, position};
ghost use Rattle.xc_model.specs.Starts.{is_block_in};
ghost use Rattle.xc_script.specs.Ask.{block_place};
ghost use Rattle.xc_text.specs.declared.script.Block.{Block as PlainBlock};

use xc_data::Ident;
use xc_text::{Block, Script};

fn is_among(name: &Ident, names: &[Ident]) -> bool
    ensures { result ≡ list_any (λ other. pointwise nat_eq other name.now) names.now }
{
    names.iter().any(|other| *other == *name)
}

/// Whether a block of the script has this name.
pub(crate) fn is_block_in(script: &Script, name: &Ident) -> bool
    ensures { result ≡ is_block_in script.now name.now }
{
    let outline = script.outline();
    is_among(name, outline.jobs.as_slice()) || is_among(name, outline.bodies.as_slice())
}

fn place_among(name: &Ident, blocks: &[Block]) -> Option<usize>
    ensures { result ≡ position (λ (b : PlainBlock). pointwise nat_eq b.name name.now) blocks.now }
{
    blocks.iter().position(|block| block.name == *name)
}

/// The place in the script of the block of this name; 0, where none has it.
pub(crate) fn block_place(script: &Script, name: &Ident) -> usize
    ensures { result ≡ block_place script.now name.now }
{
    match place_among(name, script.blocks.as_slice()) {
        Some(place) => place,
        None => 0,
    }
}
