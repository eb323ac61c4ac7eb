// "The decoded nodes stand as records in a slice the caller lends", and so do the entries: the records, read and written one at a time,
// stored from columns of plain numbers and loaded into them.
#![tactic(auto)]

ghost use Rattle.std.specs.Prelude.{◌≡◌, ◌+◌, ◌*◌, ◌<◌, ◌≤◌, length, get_or, set};
ghost use Rattle.verdict.specs.Lists.{written};
ghost use Rattle.records.specs.Records.{blank_entry, blank_node, entry_of_lem, entries_of, node_of_lem, nodes_of};
ghost use Rattle.records.specs.Records.{EntryRoom, NodeRoom, FieldRoom, CountFits, CountsFit, first_nodes, total, links_set, RowSet, NodeRowSet, FieldsSet, EntriesLoaded, NodesLoaded, FieldsLoaded};

// "An entry's record is its kind, A and B."
#[repr(C)]
#[derive(Clone, Copy)]
pub struct Entry {
    pub kind: u8,
    pub a: u16,
    pub b: u16,
}

// "A record is the rule, the four two-byte fields and the code count."
#[repr(C)]
#[derive(Clone, Copy)]
pub struct Node {
    pub rule: u8,
    pub principal: u16,
    pub first: u16,
    pub second: u16,
    pub back: u16,
    pub count: u8,
}

// Entry i of the columns, in one record.
fn entry_of(kinds: &[u8], a: &[u16], b: &[u16], i: usize) -> Entry
    requires { EntryRoom kinds.now a.now b.now (i + 1) }
    ensures { result ≡ entry_of_lem kinds.now a.now b.now i }
{
    Entry {
        kind: kinds[i],
        a: a[i],
        b: b[i],
    }
}

// A record's fields, in the columns at i.
fn set_entry(kinds: &mut [u8], a: &mut [u16], b: &mut [u16], i: usize, entry: Entry)
    requires { EntryRoom kinds.old a.old b.old (i + 1) }
    ensures { RowSet kinds.old a.old b.old i entry kinds.new a.new b.new }
{
    kinds[i] = entry.kind;
    a[i] = entry.a;
    b[i] = entry.b;
}

// The first records are those of the columns, and the slice is unchanged beyond them.
pub fn store_entries(entries: &mut [Entry], kinds: &[u8], a: &[u16], b: &[u16], count: usize)
    requires { EntryRoom kinds.now a.now b.now count × (count ≤ length entries.old) }
    ensures { entries.new ≡ written (entries_of kinds.now a.now b.now count) entries.old }
{
    for i in 0..count {
        entries[i] = entry_of(kinds, a, b, i);
    }
}

// The columns that the judge reads are those of the first records that stand in the slice, and unchanged beyond them.
pub fn load_entries(entries: &[Entry], count: usize, kinds: &mut [u8], a: &mut [u16], b: &mut [u16])
    requires { EntryRoom kinds.old a.old b.old count × (count ≤ length entries.now) }
    ensures { EntriesLoaded entries.now count kinds.old a.old b.old kinds.new
        a.new b.new }
{
    for i in 0..count {
        set_entry(kinds, a, b, i, entries[i]);
    }
}

// Node v of the columns, in one record.
fn node_of(rules: &[u8], links: &[u16], starts: &[u16], v: usize) -> Node
    requires { NodeRoom rules.now links.now starts.now (v + 1) × CountFits starts.now v }
    ensures { result ≡ node_of_lem rules.now links.now starts.now v }
{
    let count = starts[v + 1] - starts[v];
    Node {
        rule: rules[v],
        principal: links[4 * v],
        first: links[4 * v + 1],
        second: links[4 * v + 2],
        back: links[4 * v + 3],
        count: count as u8,
    }
}

fn set_links(links: &mut [u16], v: usize, node: Node)
    requires { 4 * (v + 1) ≤ length links.old }
    ensures { links.new ≡ links_set links.old v node }
{
    links[4 * v] = node.principal;
    links[4 * v + 1] = node.first;
    links[4 * v + 2] = node.second;
    links[4 * v + 3] = node.back;
}

// A record's fields, in the columns at v; its codes end where the next node's start.
fn set_node(rules: &mut [u8], links: &mut [u16], starts: &mut [u16], v: usize, node: Node)
    requires { NodeRoom rules.old links.old starts.old (v + 1) × (get_or starts.old v 0 + node.count < 65536) }
    ensures { NodeRowSet rules.old links.old starts.old v node rules.new links.new
        starts.new }
{
    rules[v] = node.rule;
    set_links(links, v, node);
    starts[v + 1] = starts[v] + (node.count as u16);
}

// A record's fields and its code count, in the columns at v.
fn set_node_fields(rules: &mut [u8], links: &mut [u16], counts: &mut [u16], v: usize, node: Node)
    requires { FieldRoom rules.old links.old counts.old (v + 1) }
    ensures { FieldsSet rules.old links.old counts.old v node rules.new links.new
        counts.new }
{
    rules[v] = node.rule;
    set_links(links, v, node);
    counts[v] = node.count as u16;
}

// The first records are those of the columns, and the slice is unchanged beyond them.
pub fn store_nodes(nodes: &mut [Node], rules: &[u8], links: &[u16], starts: &[u16], count: usize)
    requires { NodeRoom rules.now links.now starts.now count × (count ≤ length nodes.old) × CountsFit starts.now count }
    ensures { nodes.new ≡ written (nodes_of rules.now links.now starts.now count) nodes.old }
{
    for i in 0..count {
        nodes[i] = node_of(rules, links, starts, i);
    }
}

// The same for nodes; codes follow each other without gaps, so a node's start is the count of all codes before it.
pub fn load_nodes(
    nodes: &[Node],
    count: usize,
    rules: &mut [u8],
    links: &mut [u16],
    starts: &mut [u16],
)
    requires { NodeRoom rules.old links.old starts.old count × (count ≤ length nodes.now) × (total (first_nodes nodes.now count) ≤ 24576) }
    ensures { NodesLoaded nodes.now count rules.old links.old starts.old rules.new
        links.new starts.new }
{
    starts[0] = 0;
    for i in 0..count {
        set_node(rules, links, starts, i, nodes[i]);
    }
}

// The same for nodes that nobody has judged: how many codes each says it has, and not where they start.
pub fn load_node_fields(
    nodes: &[Node],
    count: usize,
    rules: &mut [u8],
    links: &mut [u16],
    counts: &mut [u16],
)
    requires { FieldRoom rules.old links.old counts.old count × (count ≤ length nodes.now) }
    ensures { FieldsLoaded nodes.now count rules.old links.old counts.old rules.new
        links.new counts.new }
{
    for i in 0..count {
        set_node_fields(rules, links, counts, i, nodes[i]);
    }
}
