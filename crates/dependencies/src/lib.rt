// What each entry depends on: its highest free name, and which entries read whose words; and the actions that the claim has.
#![tactic(auto)]

ghost use Rattle.std.specs.Prelude.{◌≡◌, true, false, ◌<◌, length, get_or};
ghost use Rattle.dependencies.specs.Actions.{Modal, NearActions, ActionBit, UsedActions};
ghost use Rattle.dependencies.specs.Columned.{top_in, TopsIn, EnteredIn, UsersIn};

pub mod prepared;

use bits::wide;
use entry_sets::insert;
use forming::columns::ClaimColumns;
use formula::Kind;
use prepared::PreparedClaim;

// The highest free name of an entry, 0 for none, from those of the entries below it.
fn top_of(claim: &ClaimColumns, tops: &[u16; 256], e: usize) -> u16
    requires { e < length claim.now.kinds.now }
    ensures { result ≡ top_in claim.now tops.now e }
{
    let kind = claim.kinds[e];
    if kind < Kind::OR {
        return 0;
    }
    let p = claim.a[e];
    if kind == Kind::NAME {
        return p;
    }
    let x = tops[wide(p)];
    if kind < Kind::DIAMOND {
        return x.max(tops[wide(claim.b[e])]);
    }
    if kind < Kind::MU {
        return x;
    }
    if e < wide(x) { x } else { 0 }
}

// The highest free name of each entry, upwards. Free names lie above (21), so 0 says that there is none.
pub fn find_tops(claim: &ClaimColumns) -> [u16; 256]
    ensures { TopsIn claim.now result }
{
    let mut tops = [0u16; 256];
    for e in 0..claim.kinds.len() {
        tops[e] = top_of(claim, &tops, e);
    }
    tops
}

// An entry is entered with those whose words it reads: entry e with c as 256 * c + e.
fn enter(claim: &ClaimColumns, users: &mut [u64], e: usize)
    requires { (e < length claim.now.kinds.now) × (length users.old ≡ 1024) }
    ensures { EnteredIn claim.now e users.old users.new }
{
    let kind = claim.kinds[e];
    if kind < Kind::OR {
        return;
    }
    insert(users, 256 * wide(claim.a[e]) + e);
    if kind < Kind::DIAMOND {
        insert(users, 256 * wide(claim.b[e]) + e);
    }
}

// Which entries read each entry's word.
pub fn find_users(claim: &ClaimColumns, users: &mut [u64])
    requires { length users.old ≡ 1024 }
    ensures { UsersIn claim.now users.new }
{
    for e in 0..claim.kinds.len() {
        enter(claim, users, e);
    }
}

// Whether an entry is a fixpoint whose body has a free name; one whose body has none has its body's word.
pub fn needs_rounds(prepared: &PreparedClaim, e: usize) -> bool
    requires { e < length prepared.now.claim.kinds.now }
    ensures { (result ≡ true → (7 < get_or prepared.now.claim.kinds.now e 0) × (get_or prepared.now.claim.kinds.now e 0 < 10)) ×
        (result ≡ false → 7 < get_or prepared.now.claim.kinds.now e 0 → get_or prepared.now.claim.kinds.now e 0 < 10 →
        get_or prepared.now.tops.now (get_or prepared.now.claim.a.now e 0) 0 ≡ 0) }
{
    let claim = &prepared.claim;
    matches!(claim.kinds[e], Kind::MU | Kind::NU) && prepared.tops[wide(claim.a[e])] != 0
}

// The action of a box or a diamond as a bit; no bit for any other kind.
fn action_bit(kind: u8, b: u16) -> u16
    requires { Modal kind → b < 16 }
    ensures { ActionBit kind b result }
{
    if matches!(kind, Kind::DIAMOND | Kind::BOX) {
        1u16 << b
    } else {
        0
    }
}

// The actions of the boxes and diamonds: bit n for action n.
pub fn used_actions(kinds: &[u8], b: &[u16]) -> u16
    requires { NearActions kinds.now b.now }
    ensures { UsedActions kinds.now b.now (length kinds.now) result }
{
    let mut used: u16 = 0;
    for (e, kind) in kinds.iter().enumerate() {
        used |= action_bit(*kind, b[e]);
    }
    used
}
