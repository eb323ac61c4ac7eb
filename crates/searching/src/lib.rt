// The number for an entry with some names bound: that of an entry that is the same form, or a fresh one. Entries that are the same form have
// the same mark, one of 512 for each number of bound names, so where that mark does not stand yet there is none, and nothing is searched.
// Where it stands, the last entry that had that mark, with whatever number of names bound, is tried before all others are: a twin is mostly
// found there.
#![tactic(auto)]

ghost use Rattle.std.specs.Prelude.{◌≡◌, ◌||◌, ℕ, ◌*◌, ◌<◌, ◌≤◌, eqb, length};
ghost use Rattle.verdict.specs.Tells.{Tells};
ghost use Rattle.bits.specs.WordSet.{in_set};
ghost use Rattle.one_level.specs.Fit.{cell};
ghost use Rattle.searching.specs.Search.{Found, Searched, NameNumber, mark_in_lem};
ghost use Rattle.searching.specs.Shaped.{Like, mark_here, ChosenIn};

use formula::{EntryColumns, Kind};
use one_level::{Shapes, Sought, as_index, at, number};

// Whether f stands with k names bound, which it does from bound[f] to totals[f], and is the same form as e. Most are of another kind, so `fit`'s
// first test is made before the others.
fn candidate(sought: &Sought, bound: &[u16; 256], f: usize) -> bool
    requires { f < sought.now.shapes.now.table.count }
    ensures { Tells result (Like sought.now bound.now f) }
{
    let Sought { shapes, k, e, .. } = *sought;
    let kinds = shapes.table.kinds;
    kinds[f] == kinds[e]
        && as_index(bound[f]) <= k
        && k <= as_index(shapes.totals[f])
        && sought.fit(f)
}

// The first such entry, or count.
fn find(sought: &Sought, bound: &[u16; 256]) -> usize
    ensures { Found sought.now.shapes.now.table.count (Like sought.now bound.now) result }
{
    let count = sought.shapes.table.count;
    for f in 0..count {
        if candidate(sought, bound, f) {
            return f;
        }
    }
    count
}

// The number of an entry that is the same form, the one guessed or else the first, or e, which is a fresh one.
fn search(sought: &Sought, bound: &[u16; 256], guess: usize) -> u8
    requires k_lt_count { sought.now.k < sought.now.shapes.now.table.count }
    requires cells { 256 * sought.now.shapes.now.table.count ≤ length sought.now.numbers.now }
    ensures { Searched sought.now.shapes.now.table.count (Like sought.now bound.now) (cell sought.now.numbers.now sought.now.k) sought.now.e result }
{
    let Sought {
        shapes,
        numbers,
        k,
        e,
        ..
    } = *sought;
    let count = shapes.table.count;
    if guess < count && candidate(sought, bound, guess) {
        return numbers[256 * k + guess];
    }
    let f = find(sought, bound);
    if f < count {
        numbers[256 * k + f]
    } else {
        e as u8
    }
}

// The number of a name of fixpoint x: bound, 255; written out, that of its fixpoint.
fn name_number(numbers: &[u8], k: usize, x: u16) -> u8
    ensures { NameNumber numbers.now k x result }
{
    if k == 0 { number(numbers, 0, x) } else { 255 }
}

// The mark of an entry of the kind and fields x and y, whose operands have the numbers. It goes by what `fit` compares, and by no more. The
// kind counts 53 times, so that entries of different kinds seldom share a mark, and the second operand or the action 37 times.
fn mark_in(kind: u8, x: u16, y: u16, first: u8, second: u8) -> usize
    ensures { (result ≡ mark_in_lem kind x y first second) × (result < 512) }
{
    if kind < Kind::LETTER {
        return kind as usize;
    }
    if kind < Kind::OR {
        return (53 * kind as usize + as_index(x)) % 512;
    }
    let left = 53 * kind as usize + first as usize;
    if kind <= Kind::AND {
        return (left + 37 * second as usize) % 512;
    }
    if kind <= Kind::BOX {
        return (left + 37 * as_index(y)) % 512;
    }
    left % 512
}

// The mark of the entry sought.
fn mark_of(sought: &Sought) -> usize
    ensures { (result ≡ mark_here sought.now) × (result < 512) }
{
    let Sought {
        shapes,
        numbers,
        i,
        j,
        e,
        ..
    } = *sought;
    let EntryColumns { kinds, a, b, .. } = shapes.table;
    mark_in(
        kinds[e],
        a[e],
        b[e],
        number(numbers, i, a[e]),
        number(numbers, j, b[e]),
    )
}

// Whether mark x stands.
fn marked(marks: &[u64], x: usize) -> bool
    requires { x < 64 * length marks.now }
    ensures { result ≡ in_set marks.now x }
{
    (marks[x / 64] >> (x % 64)) & 1 == 1
}

// Mark x stands from now on.
fn mark(marks: &mut [u64], x: usize)
    requires { x < 64 * length marks.old }
    ensures { (d : ℕ) → in_set marks.new d ≡ (in_set marks.old d || eqb d x) }
{
    marks[x / 64] |= 1u64 << (x % 64);
}

// The number for entry e with k names bound, where its operands' numbers stand. Its mark stands afterwards. `hints` has for each mark the last
// entry that had it, with whatever number of names bound: a guess to be tried first, of which nothing is asked or promised.
pub fn choose(
    shapes: &Shapes,
    bound: &[u16; 256],
    numbers: &[u8],
    marks: &mut [u64],
    hints: &mut [u8; 512],
    k: usize,
    e: usize,
) -> u8
    requires k_lt_count { (k < shapes.now.table.count) × (e < shapes.now.table.count) × (8 * shapes.now.table.count ≤ length marks.old) }
    requires cells { 256 * shapes.now.table.count ≤ length numbers.now }
    ensures { ChosenIn shapes.now bound.now numbers.now marks.old marks.new k e result }
{
    let table = &shapes.table;
    if table.kinds[e] == Kind::NAME {
        return name_number(numbers, k, table.a[e]);
    }
    let sought = Sought {
        shapes,
        numbers,
        k,
        i: at(bound, table.a[e]),
        j: at(bound, table.b[e]),
        e,
    };
    let own = mark_of(&sought);
    let place = 512 * k + own;
    let seen = marked(marks, place);
    mark(marks, place);
    let guess = usize::from(hints[own]);
    hints[own] = e as u8;
    if !seen {
        return e as u8;
    }
    search(&sought, bound, guess)
}
