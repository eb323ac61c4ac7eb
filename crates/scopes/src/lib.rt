// The judge of refusals 20, 71 and 21 to 23 over an entry table in plain numbers. For 21, 22 and 23, free names, alternation and guardedness, it goes
// entry by entry: an entry's free names, and the names reached from it through no box or diamond, are made once from those of its operands.
#![tactic(auto)]

ghost use Rattle.std.specs.Prelude.{◌≡◌, false, ◌&&◌, ℕ, ◌*◌, ◌<◌, ◌≤◌, eqb, ltb, length, get_or};
ghost use Rattle.verdict.specs.Shown.{shown};
ghost use Rattle.formula.specs.Columned.{entries};
ghost use Rattle.conditions.specs.Judge.{plainly, judge_table};
ghost use Rattle.conditions.specs.TestLaws.{free_set};
ghost use Rattle.operands.specs.OperandBounds.{out_of};
ghost use Rattle.name_sets.specs.NameSets.{Marks};
ghost use Rattle.name_sets.specs.RowWords.{row_of};
ghost use Rattle.scopes.specs.RowMarks.{RowsBelow};
ghost use Rattle.scopes.specs.JudgeSteps.{names_from};

use crate::entry::{Places, fault, free_names, open_names, places_of};
use formula::{EntryColumns, Kind};
use name_sets::{Names, put_row, row};
use operands::first_fault;
use verdict::{Refusal, Verdict};

mod entry; // entry.rt: what is made and judged at one entry

// The entries of one kind.
fn of_kind(table: &EntryColumns, kind: u8) -> Names
    ensures { Marks result (λ n. ltb n table.now.count && eqb (get_or table.now.kinds.now n 0) kind) }
{
    let mut found = name_sets::none();
    for e in 0..table.count {
        if table.kinds[e] == kind {
            found = name_sets::with(found, e);
        }
    }
    found
}

// The first entry that earns 21, 22 or 23, where none earns 20. The caller lends rows for the free names, and for the names reached through
// no box or diamond; what stands in them does not matter.
fn judge_rows(table: &EntryColumns, free_rows: &mut [u64], open_rows: &mut [u64]) -> Verdict
    requires room { (4 * table.now.count ≤ length free_rows.old) × (4 * table.now.count ≤ length open_rows.old) }
    requires by_index { (w : ℕ) → w < table.now.count → out_of (entries table.now) w ≡ false }
    ensures { shown result ≡ names_from (entries table.now) table.now.count 0 }
{
    let mus = of_kind(table, Kind::MU);
    let nus = of_kind(table, Kind::NU);
    let mut passed = name_sets::none();
    for e in 0..table.count {
        let kind = table.kinds[e];
        let Places { first, left, right } = places_of(table, e);
        let free = free_names(kind, first, e, row(free_rows, left), row(free_rows, right));
        let body = row(open_rows, left);
        passed = name_sets::with(passed, e);
        if let Some(number) = fault(kind, e, free, body, passed, mus, nus) {
            return Err(Refusal {
                number,
                place: e as u16,
            });
        }
        let open = open_names(kind, first, e, body, row(open_rows, right));
        put_row(free_rows, e, free);
        put_row(open_rows, e, open);
    }
    Ok(())
}

// The same in so many words of rows of its own, which are cleared first. It is not put into its caller, so what it clears is no part of the
// frame that every call takes.
#[inline(never)]
fn judge_sized<const WORDS: usize>(table: &EntryColumns) -> Verdict
    requires room { (4 * table.now.count ≤ WORDS) × (WORDS ≤ 1024) }
    requires by_index { (w : ℕ) → w < table.now.count → out_of (entries table.now) w ≡ false }
    ensures { shown result ≡ names_from (entries table.now) table.now.count 0 }
{
    let mut free_rows = [0u64; WORDS];
    let mut open_rows = [0u64; WORDS];
    judge_rows(table, &mut free_rows, &mut open_rows)
}

// In few rows for a table of few entries.
fn judge_names(table: &EntryColumns) -> Verdict
    requires by_index { (w : ℕ) → w < table.now.count → out_of (entries table.now) w ≡ false }
    ensures { shown result ≡ names_from (entries table.now) table.now.count 0 }
{
    if table.count <= 32 {
        judge_sized::<128>(table)
    } else {
        judge_sized::<1024>(table)
    }
}

// Refusals 20, 71 and 21 to 23 over the first count entries: 20 and 71 over all of them, then 21, 22 and 23 entry by entry.
pub fn judge(table: &EntryColumns) -> Verdict
    ensures { shown result ≡ judge_table plainly (entries table.now) }
{
    first_fault(table)?;
    judge_names(table)
}

// The free names of each entry, where none earns 20, into lent rows; what stood in them does not matter.
pub fn fill_free_rows(table: &EntryColumns, rows: &mut [u64])
    requires room { 4 * table.now.count ≤ length rows.old }
    requires by_index { (w : ℕ) → w < table.now.count → out_of (entries table.now) w ≡ false }
    ensures { RowsBelow (row_of rows.new) (free_set (entries table.now)) table.now.count }
{
    for e in 0..table.count {
        let Places { first, left, right } = places_of(table, e);
        let free = free_names(table.kinds[e], first, e, row(rows, left), row(rows, right));
        put_row(rows, e, free);
    }
}
