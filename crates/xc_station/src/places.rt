ghost use Rattle.std.specs.Prelude.{◌≡◌, IfOk, MatchOption, true, false};
ghost use Rattle.xc_script.specs.Ask.{block_place};
ghost use Rattle.xc_model.specs.Starts.{is_block_in};
ghost use Rattle.xc_text.specs.Scripts.{IsScript};
ghost use Rattle.xc_station.specs.Places.{IndexesBlocks};

use std::alloc::Global;
use xc_data::{Ident, NoMemory};
use xc_maps::IdentMap;
use xc_text::Script;

/// The place of each block in a script, by its name.
pub fn places_of(alloc: Global, script: &Script) -> Result<IdentMap<usize>, NoMemory>
    requires { IsScript script.now }
    ensures { IfOk result (λ places. IndexesBlocks script.now places) }
{
    let mut places = IdentMap::new(alloc);
    for (at, block) in script.blocks.as_slice().iter().enumerate() {
        places.insert(block.name, at)?;
    }
    Ok(places)
}

/// The place of the block of this name, where one has it.
pub fn block_at(script: &Script, places: &IdentMap<usize>, name: Ident) -> Option<usize>
    requires { IndexesBlocks script.now places.now }
    ensures { MatchOption result (is_block_in script.now name ≡ false)
        (λ at. (is_block_in script.now name ≡ true) × (at ≡ block_place script.now name)) }
{
    places.get(name).copied()
}
