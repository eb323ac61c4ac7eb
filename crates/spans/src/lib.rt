// Entry and exit numbers of a walk of the trees from their roots down, without the walk: sizes from the last node up, then numbers from
// the first node on. They tell in one step whether one node is above another.
#![tactic(auto)]

ghost use Rattle.std.specs.Prelude.{◌≡◌, ◌∷◌, ◌<◌, ◌≤◌, length, get_or};
ghost use Rattle.spans.specs.Spans.{at_parent_lem, Upward, CountedOnce, Counted, spanned};
ghost use Rattle.spans.specs.Ancestors.{SpansFilled};

use bits::wide;

// For each of up to 1,024 nodes one more than the number of its parent, which is smaller than its own; 0 for a root.
#[derive(Clone, Copy)]
pub struct Owners<'a> {
    pub table: &'a [u16],
    pub nodes: usize,
    pub ghost upward: { Upward table.now nodes },
}

impl Owners<'_> {
    // What a table has at the parent of v, 0 for a root.
    pub fn at_parent(&self, table: &[u16], v: usize) -> u16
        requires { (v < length self.now.table.now) × (get_or self.now.table.now v 0 ≤ length table.now) }
        ensures { result ≡ at_parent_lem self.now.table.now table.now v }
    {
        let owner = wide(self.table[v]);
        if owner == 0 {
            return 0;
        }
        table[owner - 1]
    }
}

// By falling number each node is counted in its parent, and a root with the trees: its entry lies after all that is counted there before it.
fn count_nodes(owners: &Owners, offsets: &mut [u16], sizes: &mut [u16])
    requires { CountedOnce owners.now.nodes offsets.old sizes.old }
    ensures { Counted owners.now.table.now owners.now.nodes 0 offsets.new (owners.now.nodes ∷ sizes.new) }
{
    let mut taken: u16 = 0;
    for v in (0..owners.nodes).rev() {
        let owner = wide(owners.table[v]);
        if owner == 0 {
            offsets[v] = taken;
            taken += sizes[v];
        } else {
            let counted = sizes[owner - 1];
            offsets[v] = counted;
            sizes[owner - 1] = counted + sizes[v];
        }
    }
}

// By rising number each node is entered as far after its parent as was counted, and left once all below it is.
fn number_nodes(owners: &Owners, entries: &mut [u16], exits: &mut [u16])
    requires { Counted owners.now.table.now owners.now.nodes 0 entries.old (owners.now.nodes ∷ exits.old) }
    ensures { SpansFilled owners.now.table.now owners.now.nodes entries.new exits.new }
{
    for v in 0..owners.nodes {
        let entry = owners.at_parent(entries, v) + entries[v];
        entries[v] = entry;
        exits[v] = entry + exits[v];
    }
}

// The entry and exit numbers, in tables that count each node once.
pub fn fill_spans(owners: &Owners, entries: &mut [u16], exits: &mut [u16])
    requires { CountedOnce owners.now.nodes entries.old exits.old }
    ensures { SpansFilled owners.now.table.now owners.now.nodes entries.new exits.new }
{
    count_nodes(owners, entries, exits);
    number_nodes(owners, entries, exits);
}

// The entry and exit numbers once they are known.
#[derive(Clone, Copy)]
pub struct SpanColumns<'a> {
    pub entries: &'a [u16],
    pub exits: &'a [u16],
}

impl SpanColumns<'_> {
    // Whether v is entered after c, and before c is left.
    pub fn is_spanned(&self, c: usize, v: usize) -> bool
        requires { (c < length self.now.entries.now) × (v < length self.now.entries.now) × (c < length self.now.exits.now) }
        ensures { result ≡ spanned self.now.entries.now self.now.exits.now c v }
    {
        (self.entries[c] < self.entries[v]) & (self.entries[v] < self.exits[c])
    }
}
