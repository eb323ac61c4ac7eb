// A back leaf's link to its companion (38), told in one step by the entry and exit numbers of the trees.
#![tactic(auto)]

ghost use Rattle.std.specs.Prelude.{◌+◌, ◌*◌, ◌<◌, length};
ghost use Rattle.companions.specs.Companions.{Companion};

use bits::wide;
use formula::{LinkColumns, Rule};
use spans::SpanColumns;

// Whether the back link of v is a proper ancestor of rule 10. The two sequents are not compared here.
pub fn companion(tree: &LinkColumns, spans: &SpanColumns, v: usize) -> bool
    requires { (v < length tree.now.rules.now) × (4 * v + 3 < length tree.now.links.now) × (v < length spans.now.entries.now) × (v < length spans.now.exits.now) }
    ensures { Companion tree.now.rules.now tree.now.links.now spans.now.entries.now spans.now.exits.now v result }
{
    let link = wide(tree.links[4 * v + 3]);
    link < v && spans.is_spanned(link, v) && tree.rules[link] == Rule::D
}
