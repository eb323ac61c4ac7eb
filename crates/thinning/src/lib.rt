// The columns that the numbering of formulas goes by: how many free names an entry has, and which of them are free in each operand. A name
// is marked by its place among the entry's names in rising order, not by its number: T-03 does not go by what bound names are called.
#![tactic(auto)]

ghost use Rattle.std.specs.Prelude.{◌≡◌, ◌*◌, ◌+◌, ◌<◌, ◌≤◌, length, get_or};
ghost use Rattle.verdict.specs.Tells.{Tells};
ghost use Rattle.numbering.specs.Count.{tally};
ghost use Rattle.name_sets.specs.NameSets.{holds};
ghost use Rattle.thinning.specs.AllMarked.{Within};
ghost use Rattle.thinning.specs.Marked.{Grown, Thinned};
ghost use Rattle.thinning.specs.Columns.{RowMade};
ghost use Rattle.thinning.specs.Tabled.{PreparedIn};

use bits::wide;
use formula::{EntryColumns, Kind};
use name_sets::{Names, below, has, less, lowest, meet, only, put_row, row};

// The names of an entry passed so far: how many, and which of them are free in an operand, by place.
#[derive(Clone, Copy)]
pub struct Passed {
    marks: Names,
    size: usize,
}

// With one name more: the place after those passed is marked where the operand has the name.
fn pass(inner: Names, name: usize, s: Passed) -> Passed
    requires { (name < 256) × (s.size ≤ name) }
    ensures { Grown inner name s result }
{
    let Passed { marks, size } = s;
    if !has(inner, name) {
        return Passed {
            marks,
            size: size + 1,
        };
    }
    Passed {
        marks: name_sets::with(marks, size),
        size: size + 1,
    }
}

// The names of own below count passed from the lowest up, and which of them inner has.
fn thin(own: Names, inner: Names, count: usize) -> Passed
    requires { count ≤ 256 }
    ensures { Thinned own inner count result }
{
    let mut s = Passed {
        marks: name_sets::none(),
        size: 0,
    };
    let mut rest = own;
    let mut name = lowest(rest);
    while name < count {
        s = pass(inner, name, s);
        rest = less(rest, only(name));
        name = lowest(rest);
    }
    s
}

// How many names below count a set has.
fn size_of(own: Names, count: usize) -> usize
    requires { count ≤ 256 }
    ensures { result ≡ tally (holds own) count }
{
    let mut size: usize = 0;
    let mut rest = own;
    let mut name = lowest(rest);
    while name < count {
        size += 1;
        rest = less(rest, only(name));
        name = lowest(rest);
    }
    size
}

// Whether inner has every name of own.
fn has_all(inner: Names, own: Names) -> bool
    ensures { Tells result (Within own inner) }
{
    let lacking = less(own, inner);
    !meet(lacking, lacking)
}

// The number, or 0 if there is no such entry: that a field names one is not asked here.
fn near(x: u16, count: usize) -> usize
    requires { 0 < count }
    ensures { (result < count) × (x < count → result ≡ x) }
{
    let place = wide(x);
    if place < count { place } else { 0 }
}

// An entry of a table with its free names, own, of which there are size, and the rows that have those of all entries.
#[derive(Clone, Copy)]
struct Owner<'a> {
    table: &'a EntryColumns<'a>,
    free: &'a [u64],
    e: usize,
    own: Names,
    size: usize,
    ghost inside: { e < table.now.count },
    ghost rows: { 4 * table.now.count ≤ length free.now },
    ghost sized: { size ≡ tally (holds own) table.now.count },
}

impl Owner<'_> {
    ghost use Rattle.thinning.specs.Owned.{Thins, ThinsTwo};

    // Which of its names are free in the operand that a field names, as its row of marks. Where there are none, or the operand has all of
    // them, as most operands have, they are not passed one by one.
    // Put into its caller: otherwise every entry is laid out in memory to be lent, whatever its kind.
    #[inline(always)]
    fn put_thinned(&self, field: u16, marks: &mut [u64])
        requires { 4 * self.now.e + 3 < length marks.old }
        ensures { RowMade marks.old marks.new self.now.e (Thins self.now field) }
    {
        let Owner {
            table,
            free,
            e,
            own,
            size,
        } = *self;
        if size == 0 {
            put_row(marks, e, name_sets::none());
            return;
        }
        let inner = row(free, near(field, table.count));
        if has_all(inner, own) {
            put_row(marks, e, below(size));
            return;
        }
        let passed = thin(own, inner, table.count);
        put_row(marks, e, passed.marks);
    }

    // The same for both operands of an or or and. No other entry has its rows looked at.
    // Put into its caller for the same reason.
    #[inline(always)]
    fn put_operands(&self, firsts: &mut [u64], seconds: &mut [u64])
        requires { (4 * self.now.e + 3 < length firsts.old) × (4 * self.now.e + 3 < length seconds.old) }
        ensures row_made { RowMade firsts.old firsts.new self.now.e (ThinsTwo self.now (get_or self.now.table.now.a.now self.now.e 0)) }
        ensures row_made_2 { RowMade seconds.old seconds.new self.now.e (ThinsTwo self.now (get_or self.now.table.now.b.now self.now.e 0)) }
    {
        let Owner { table, e, .. } = *self;
        if table.kinds[e] < Kind::OR || Kind::AND < table.kinds[e] {
            return;
        }
        self.put_thinned(table.a[e], firsts);
        self.put_thinned(table.b[e], seconds);
    }
}

// The columns of entry e: the count of its free names, one more than that, and the marks of its operands.
fn prepare(
    table: &EntryColumns,
    free: &[u64],
    totals: &mut [u16; 256],
    bound: &mut [u16; 256],
    firsts: &mut [u64],
    seconds: &mut [u64],
    e: usize,
)
    requires inside { (e < table.now.count) × (4 * table.now.count ≤ length free.now) }
    requires prepared { PreparedIn table.now free.now totals.old bound.old firsts.old seconds.old e }
    ensures { PreparedIn table.now free.now totals.new bound.new firsts.new seconds.new (e + 1) }
{
    let own = row(free, e);
    let size = size_of(own, table.count);
    totals[e] = size as u16;
    bound[e] = (size + 1) as u16;
    let owner = Owner {
        table,
        free,
        e,
        own,
        size,
    };
    owner.put_operands(firsts, seconds);
}

// The columns of all entries, from their rows of free names. What stood in them does not matter.
pub fn prepare_all(
    table: &EntryColumns,
    free: &[u64],
    totals: &mut [u16; 256],
    bound: &mut [u16; 256],
    firsts: &mut [u64],
    seconds: &mut [u64],
)
    requires free_rows { 4 * table.now.count ≤ length free.now }
    requires prepared { PreparedIn table.now free.now totals.old bound.old firsts.old seconds.old 0 }
    ensures { PreparedIn table.now free.now totals.new bound.new firsts.new seconds.new table.now.count }
{
    for e in 0..table.count {
        prepare(table, free, totals, bound, firsts, seconds, e);
    }
}
