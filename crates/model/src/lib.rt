// Model files, in both forms: judged first, and decoded only where they are good. The encoding, the reading and its laws are in model_files.
#![tactic(auto)]

ghost use Rattle.std.specs.Prelude.{◌≡◌};
ghost use Rattle.encoding.specs.Opening.{opens};
ghost use Rattle.model_files.specs.ModelFile.{mdl2, opening};
ghost use Rattle.model_files.specs.ReadModel.{map_fits_lem};

use model_files::ACTIONS_OPENING;

mod header;
pub mod judge;
pub mod tables;

// The place after the opening and the state count.
const FIRST_STATE: usize = 5;

// Whether no bit but 0 and 1 stands in a state's map.
fn map_fits(map: u8) -> bool
    ensures { result ≡ map_fits_lem map }
{
    map <= 3
}

// Whether the file is of the form for all actions.
fn for_actions(bytes: &[u8]) -> bool
    ensures { result ≡ opens (opening mdl2) bytes.now }
{
    bytes.starts_with(&ACTIONS_OPENING)
}
