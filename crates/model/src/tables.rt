// The second pass, over a file that the first found good: the letter masks and the successor table.
ghost use Rattle.std.specs.Prelude.{◌≡◌, [], ◌+◌, ◌<◌, length};
ghost use Rattle.encoding.specs.Encode.{Counts};
ghost use Rattle.model_files.specs.ReadModel.{form_by};
ghost use Rattle.model_files.specs.Described.{successor_table};
ghost use Rattle.model_files.specs.Decoded.{GoodModel, states_of, mask_table};
ghost use Rattle.model.specs.HeaderSteps.{InModel, HeaderRead};
ghost use Rattle.model.specs.Rows.{row_of, RowMore};
ghost use Rattle.model.specs.Decoding.{HeaderThere, StateThere, SuccessorsAt, successors_at, StatePut};

use super::FIRST_STATE;
use super::header::{Header, header_at};

// A state's letter mask, and the place of what follows it.
#[derive(Clone, Copy)]
struct Put {
    mask: u32,
    next: usize,
}

// The header at a place where one is known to be.
fn known_header(bytes: &[u8], at: usize, acts: bool) -> Header
    requires { (InModel bytes.now at) × (HeaderThere (form_by acts) bytes.now at) }
    ensures { HeaderRead (form_by acts) bytes.now at result.mask result.actions result.next }
{
    // there is one, by what is required
    header_at(bytes, at, acts).unwrap()
}

// The bit of an action, in the marks of its listed successors.
fn put_marks(bytes: &[u8], list: usize, count: usize, action: usize, marks: &mut [u16; 64])
    requires { (SuccessorsAt bytes.now list count) × (action < 16) }
    ensures { RowMore action marks.old (successors_at bytes.now list count) marks.new }
{
    let bit = 1u16 << action;
    for &successor in &bytes[list..list + count] {
        marks[successor as usize] |= bit;
    }
}

// The marks of a state's successors, in a row with no mark.
fn put_state(bytes: &[u8], at: usize, acts: bool, marks: &mut [u16; 64]) -> Put
    requires { (InModel bytes.now at) × (StateThere (form_by acts) bytes.now at) × (marks.old ≡ row_of []) }
    ensures { StatePut (form_by acts) bytes.now at result.mask result.next marks.new }
{
    let header = known_header(bytes, at, acts);
    let mut next = header.next;
    let mut rest = header.actions;
    let mut action: usize = 0;
    while rest != 0 {
        if rest % 2 == 1 {
            let count = bytes[next] as usize;
            let first = next + 1;
            put_marks(bytes, first, count, action, marks);
            next = first + count;
        }
        rest /= 2;
        action += 1;
    }
    Put {
        mask: header.mask,
        next,
    }
}

// The number of states.
pub fn state_count(bytes: &[u8]) -> usize
    requires { GoodModel bytes.now }
    ensures { (result ≡ length (states_of bytes.now)) × (Counts 1 64 result) }
{
    bytes[4] as usize
}

// The successor table, 64 rows of 64 marks, by value; the letter masks beside it. Past the last state both are zero.
pub fn decode_model(bytes: &[u8], masks: &mut [u32; 64]) -> [[u16; 64]; 64]
    requires { GoodModel bytes.now }
    ensures { (result ≡ successor_table (states_of bytes.now)) × (masks.new ≡ mask_table (states_of bytes.now)) }
{
    *masks = [0u32; 64];
    let mut marks = [[0u16; 64]; 64];
    let acts = super::for_actions(bytes);
    let states = state_count(bytes);
    let mut at = FIRST_STATE;
    for i in 0..states {
        let put = put_state(bytes, at, acts, &mut marks[i]);
        masks[i] = put.mask;
        at = put.next;
    }
    marks
}
