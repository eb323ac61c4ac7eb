// The number of each formula of a table that earns none of 20 to 23: the least entry, no name, that has it. Entries are the same formula
// just where these numbers are equal.
#![tactic(auto)]

ghost use Rattle.std.specs.Prelude.{◌*◌, ◌≤◌, length};
ghost use Rattle.formula.specs.Columned.{entries};
ghost use Rattle.numbers.specs.First.{Told, Firsts, FirstEach};
ghost use Rattle.numbers.specs.Numbered.{RoomFor, Numbered};
ghost use Rattle.numbers.specs.Tabled.{NumberableIn};

use formula::{EntryColumns, Kind};
use one_level::Shapes;
use rounds::fill;
use scopes::fill_free_rows;
use thinning::prepare_all;

// For each number the least entry, no name, that has it: from the last entry down, so that the least is put last. A number is at most 255, so a
// table of 256 has a place for each.
fn find_firsts(table: &EntryColumns, numbers: &[u8], least: &mut [u16; 256])
    requires { table.now.count ≤ length numbers.now }
    ensures { Firsts table.now.kinds.now numbers.now table.now.count least.new 0 }
{
    let EntryColumns { kinds, count, .. } = *table;
    for e in (0..count).rev() {
        if kinds[e] != Kind::NAME {
            least[usize::from(numbers[e])] = e as u16;
        }
    }
}

// And so for each entry: the least that has its number.
fn take_firsts(numbers: &[u8], count: usize, least: &[u16; 256], canon: &mut [u16; 256])
    requires { (count ≤ 256) × (count ≤ length numbers.now) }
    ensures { FirstEach numbers.now least.now canon.old canon.new count }
{
    for e in 0..count {
        canon[e] = least[usize::from(numbers[e])];
    }
}

// The table of numbers, in lent room: rows for the free names and the marks of the operands, a row of numbers for each number of names
// bound, and marks of these.
fn fill_numbers(
    table: &EntryColumns,
    free: &mut [u64],
    firsts: &mut [u64],
    seconds: &mut [u64],
    numbers: &mut [u8],
    marks: &mut [u64],
)
    requires { NumberableIn table.now × RoomFor table.now.count free.old firsts.old seconds.old numbers.old marks.old }
    ensures { Told table.now.kinds.now (entries table.now) table.now.count numbers.new }
{
    let mut totals = [0u16; 256];
    let mut bound = [0u16; 256];
    let mut hints = [0u8; 512];
    fill_free_rows(table, free);
    prepare_all(table, free, &mut totals, &mut bound, firsts, seconds);
    let shapes = Shapes {
        table: *table,
        free,
        totals: &totals,
        firsts,
        seconds,
    };
    fill(&shapes, &mut bound, numbers, marks, &mut hints);
}

// And the number of each formula from it.
fn number_in(
    table: &EntryColumns,
    free: &mut [u64],
    firsts: &mut [u64],
    seconds: &mut [u64],
    numbers: &mut [u8],
    marks: &mut [u64],
    canon: &mut [u16; 256],
)
    requires { NumberableIn table.now × RoomFor table.now.count free.old firsts.old seconds.old numbers.old marks.old }
    ensures { Numbered (entries table.now) canon.old canon.new }
{
    fill_numbers(table, free, firsts, seconds, numbers, marks);
    let mut least = [0u16; 256];
    find_firsts(table, numbers, &mut least);
    take_firsts(numbers, table.count, &least, canon);
}

// The same with room of its own, enough for so many entries. It is not put into its caller: the 106,496 bytes for all 256 entries are no part of
// the frame that every call takes.
#[inline(never)]
fn number_within<const ROWS: usize, const CELLS: usize, const MARKS: usize>(
    table: &EntryColumns,
    canon: &mut [u16; 256],
)
    requires numberable { NumberableIn table.now }
    requires enough { (4 * table.now.count ≤ ROWS) × (256 * table.now.count ≤ CELLS) × (8 * table.now.count ≤ MARKS) }
    requires most { (ROWS ≤ 1024) × (CELLS ≤ 65536) × (MARKS ≤ 2048) }
    ensures { Numbered (entries table.now) canon.old canon.new }
{
    let mut free = [0u64; ROWS];
    let mut firsts = [0u64; ROWS];
    let mut seconds = [0u64; ROWS];
    let mut numbers = [0u8; CELLS];
    let mut marks = [0u64; MARKS];
    number_in(
        table,
        &mut free,
        &mut firsts,
        &mut seconds,
        &mut numbers,
        &mut marks,
        canon,
    );
}

// The number of each formula. A small claim clears no more room than it needs.
pub fn number_formulas(table: &EntryColumns, canon: &mut [u16; 256])
    requires { NumberableIn table.now }
    ensures { Numbered (entries table.now) canon.old canon.new }
{
    if 64 < table.count {
        number_within::<1024, 65536, 2048>(table, canon);
    } else if 16 < table.count {
        number_within::<256, 16384, 512>(table, canon);
    } else {
        number_within::<64, 4096, 128>(table, canon);
    }
}
