// Which nodes may lie on a loop path (39): by the rule and the sequent of each alone.
#![tactic(auto)]

ghost use Rattle.std.specs.Prelude.{◌≡◌, ◌+◌, ◌-◌, ◌<◌, ◌≤◌, length, take, drop, get_or};
ghost use Rattle.verdict.specs.Tests.{any};
ghost use Rattle.formula.specs.PlainNodes.{codes_at_lem};
ghost use Rattle.calculus.specs.Judge.{in_focus, on_loop};

use bits::wide;
use formula::{NodeColumns, Rule};

// Whether one of the codes from start up to end is in focus.
fn has_focus(codes: &[u16], start: usize, end: usize) -> bool
    requires { end ≤ length codes.now }
    ensures { result ≡ any in_focus (take (end - start) (drop start codes.now)) }
{
    (start..end).any(|i| codes[i] % 2 == 1)
}

// Whether node v may lie on a loop path: its sequent has a focused member, and its rule is not 8.
pub fn may_loop(proof: &NodeColumns, v: usize) -> bool
    requires { (v < length proof.now.tree.rules.now) × (v + 1 < length proof.now.starts.now) × (get_or proof.now.starts.now (v + 1) 0 ≤ length proof.now.codes.now) }
    ensures { result ≡ on_loop (get_or proof.now.tree.rules.now v 0) (codes_at_lem proof.now.starts.now proof.now.codes.now v) }
{
    let starts = proof.starts;
    proof.tree.rules[v] != Rule::F && has_focus(proof.codes, wide(starts[v]), wide(starts[v + 1]))
}
