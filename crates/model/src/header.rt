// What stands in a state before its successors: the map, the letter mask, the map of actions. A fault of these is placed at the map, once
// the bytes are there.
ghost use Rattle.std.specs.Prelude.{◌+◌, ◌<◌, ◌≡◌, length};
ghost use Rattle.encoding.specs.FourPlaces.{double_at};
ghost use Rattle.model_files.specs.ModelFile.{mdl2};
ghost use Rattle.model_files.specs.ReadModel.{form_by};
ghost use Rattle.model.specs.HeaderSteps.{InModel, MaskFollows, MaskedTells, ActionsFollow, HeaderTells};

use model_files::ModelFault;
use verdict::{Fault, Refusal};

// A map and its letter mask, and the place of what follows them.
#[derive(Clone, Copy)]
pub struct Masked {
    pub map: u8,
    pub mask: u32,
    pub next: usize,
}

// What a header tells, and the place of what follows it.
#[derive(Clone, Copy)]
pub struct Header {
    pub mask: u32,
    pub actions: u16,
    pub next: usize,
}

// The number of the four bytes at a place.
fn four_at(bytes: &[u8], at: usize) -> u32
    requires { at + 3 < length bytes.now }
    ensures { result ≡ double_at bytes.now at }
{
    u32::from_le_bytes([bytes[at], bytes[at + 1], bytes[at + 2], bytes[at + 3]])
}

// The mask after a map with bit 0.
fn mask_after(bytes: &[u8], at: usize) -> Result<Masked, Refusal<u32>>
    requires { (InModel bytes.now at) × (MaskFollows bytes.now at) }
    ensures { MaskedTells bytes.now at result }
{
    if bytes.len() < at + 5 {
        return Err(ModelFault::Length.at(bytes.len() as u32));
    }
    let mask = four_at(bytes, at + 1);
    if mask == 0 {
        return Err(ModelFault::Map.at(at as u32));
    }
    Ok(Masked {
        map: bytes[at],
        mask,
        next: at + 5,
    })
}

// The map, and the mask where bit 0 stands.
fn masked_at(bytes: &[u8], at: usize) -> Result<Masked, Refusal<u32>>
    requires { InModel bytes.now at }
    ensures { MaskedTells bytes.now at result }
{
    if bytes.len() <= at {
        return Err(ModelFault::Length.at(bytes.len() as u32));
    }
    let map = bytes[at];
    if !super::map_fits(map) {
        return Err(ModelFault::Map.at(at as u32));
    }
    if map % 2 == 0 {
        return Ok(Masked {
            map,
            mask: 0,
            next: at + 1,
        });
    }
    mask_after(bytes, at)
}

// The map of actions after a map with bit 1 and its mask.
fn actions_after(bytes: &[u8], at: usize, mask: u32, next: usize) -> Result<Header, Refusal<u32>>
    requires { (InModel bytes.now at) × (ActionsFollow bytes.now at mask next) }
    ensures { HeaderTells mdl2 bytes.now at result }
{
    if bytes.len() < next + 2 {
        return Err(ModelFault::Length.at(bytes.len() as u32));
    }
    let actions = encoding::word_at(bytes, next);
    if actions == 0 {
        return Err(ModelFault::Map.at(at as u32));
    }
    Ok(Header {
        mask,
        actions,
        next: next + 2,
    })
}

// Then the map of actions where bit 1 stands: two bytes, or action 0 in the form that does not write them.
pub fn header_at(bytes: &[u8], at: usize, acts: bool) -> Result<Header, Refusal<u32>>
    requires { InModel bytes.now at }
    ensures { HeaderTells (form_by acts) bytes.now at result }
{
    let Masked { map, mask, next } = masked_at(bytes, at)?;
    if map < 2 {
        return Ok(Header {
            mask,
            actions: 0,
            next,
        });
    }
    if !acts {
        return Ok(Header {
            mask,
            actions: 1,
            next,
        });
    }
    actions_after(bytes, at, mask, next)
}
