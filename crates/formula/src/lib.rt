// The entry kinds and the rules, each with one named constant for each number and the fields that it has; and the target of an operand.
#![tactic(auto)]

ghost use Rattle.std.specs.Prelude.{◌≡◌, List, ℕ, ◌+◌, ◌*◌, ◌<◌, ◌≤◌, length};
ghost use Rattle.bits.specs.IfSet.{if_set_lem};
ghost use Rattle.formula.specs.Claim as claims;
ghost use Rattle.formula.specs.NamedForm.{named_form};
ghost use Rattle.formula.specs.Fields.{has_a_lem, has_b, is_modal_lem, is_fixpoint_lem, has_principal_lem, has_first_lem, has_second_lem, has_back_lem, map_of, low_map_lem, link_width_lem};
ghost use Rattle.formula.specs.Plain.{table_of};
ghost use Rattle.formula.specs.Target as targets;

use bits::if_set;

#[derive(Clone, Copy)]
pub struct Kind;

impl Kind {
    pub const FALSE: u8 = 0;

    pub const TRUE: u8 = 1;

    pub const LETTER: u8 = 2;

    pub const NEGATED: u8 = 3;

    pub const OR: u8 = 4;

    pub const AND: u8 = 5;

    pub const DIAMOND: u8 = 6;

    pub const BOX: u8 = 7;

    pub const MU: u8 = 8;

    pub const NU: u8 = 9;

    pub const NAME: u8 = 10;

    // Whether an entry of the kind has field A.
    pub fn has_a(kind: u8) -> bool
        ensures { result ≡ has_a_lem kind }
    {
        Kind::LETTER <= kind && kind <= Kind::NAME
    }

    // Whether it has field B.
    pub fn has_b(kind: u8) -> bool
        ensures { result ≡ has_b kind }
    {
        Kind::OR <= kind && kind <= Kind::AND
    }

    // The bit map of its fields; 0 for a number that is no kind.
    pub fn map(kind: u8) -> u8
        ensures { result ≡ map_of kind }
    {
        if Kind::has_b(kind) {
            return 0b11;
        }
        if Kind::has_a(kind) {
            return 0b01;
        }
        0
    }

    // Whether it is a diamond or a box.
    pub fn is_modal(kind: u8) -> bool
        ensures { result ≡ is_modal_lem kind }
    {
        Kind::DIAMOND <= kind && kind <= Kind::BOX
    }

    // Whether it is a least or a greatest fixpoint.
    pub fn is_fixpoint(kind: u8) -> bool
        ensures { result ≡ is_fixpoint_lem kind }
    {
        Kind::MU <= kind && kind <= Kind::NU
    }
}

// The forms of a claim with its proof, as the calls name them: CLM1 with PRF1 for one goal, CLM2 with PRF2 for several.
#[derive(Clone, Copy)]
pub struct Form;

impl Form {
    pub const CLM1: u8 = 1;

    pub const CLM2: u8 = 2;

    // The least entry count and node count: only the form for several goals may have none of either.
    pub fn fewest(form: u8) -> u16
        ensures { result ≡ claims.fewest (named_form form) }
    {
        if form == Form::CLM2 {
            return 0;
        }
        1
    }
}

#[derive(Clone, Copy)]
pub struct Rule;

impl Rule {
    pub const AX1: u8 = 0;

    pub const AX2: u8 = 1;

    pub const OR: u8 = 2;

    pub const AND: u8 = 3;

    pub const BOX: u8 = 4;

    pub const MU: u8 = 5;

    pub const NU: u8 = 6;

    pub const W: u8 = 7;

    pub const F: u8 = 8;

    pub const U: u8 = 9;

    pub const D: u8 = 10;

    pub const BACK: u8 = 11;

    // Whether a node of the rule has a principal.
    pub fn has_principal(rule: u8) -> bool
        ensures { result ≡ has_principal_lem rule }
    {
        Rule::OR <= rule && rule <= Rule::U
    }

    // Whether it has a first child.
    pub fn has_first(rule: u8) -> bool
        ensures { result ≡ has_first_lem rule }
    {
        Rule::OR <= rule && rule <= Rule::D
    }

    // Whether it has a second child.
    pub fn has_second(rule: u8) -> bool
        ensures { result ≡ has_second_lem rule }
    {
        rule == Rule::AND
    }

    // Whether it has a back link.
    pub fn has_back(rule: u8) -> bool
        ensures { result ≡ has_back_lem rule }
    {
        rule == Rule::BACK
    }

    // The sum of the numbers given for those fields that it has.
    fn field_sum(rule: u8, principal: u8, first: u8, second: u8, back: u8) -> u8
        requires { principal + first + second + back ≤ 255 }
        ensures value { result ≡ if_set_lem (has_principal_lem rule) principal + if_set_lem (has_first_lem rule) first + if_set_lem (has_second_lem rule) second + if_set_lem (has_back_lem rule) back }
        ensures upper_bound { result ≤ principal + first + second + back }
    {
        if_set(Rule::has_principal(rule), principal)
            + if_set(Rule::has_first(rule), first)
            + if_set(Rule::has_second(rule), second)
            + if_set(Rule::has_back(rule), back)
    }

    // The low four bits of its map.
    pub fn low_map(rule: u8) -> u8
        ensures { (result ≡ low_map_lem rule) × (result ≤ 15) }
    {
        Rule::field_sum(rule, 1, 2, 4, 8)
    }

    // The bytes of its fields.
    pub fn link_width(rule: u8) -> u8
        ensures { (result ≡ link_width_lem rule) × (result ≤ 6) }
    {
        Rule::field_sum(rule, 2, 2, 2, 2)
    }
}

// An entry table as columns, of which the first entries count.
#[derive(Clone, Copy)]
pub struct EntryColumns<'a> {
    pub kinds: &'a [u8; 256],
    pub a: &'a [u16; 256],
    pub b: &'a [u16; 256],
    pub count: usize,
    pub ghost few: { count ≤ 256 },
}

// A proof's nodes as columns: their rules, and four links each.
#[derive(Clone, Copy)]
pub struct LinkColumns<'a> {
    pub rules: &'a [u8],
    pub links: &'a [u16],
    pub nodes: usize,
    pub ghost few: { nodes ≤ 1024 },
    pub ghost room: { (nodes ≤ length rules.now) × (4 * nodes ≤ length links.now) },
}

// With their sequents: the codes of all, and where each node's start.
#[derive(Clone, Copy)]
pub struct NodeColumns<'a> {
    pub tree: LinkColumns<'a>,
    pub starts: &'a [u16],
    pub codes: &'a [u16],
    pub ghost starts_room: { tree.nodes < length starts.now },
}

// The target of an operand: the operand, or its fixpoint if it is a name. It is the same whatever the B fields and the table's length.
pub fn target(kinds: &[u8; 256], a: &[u16; 256], operand: u16) -> u16
    requires { operand < 256 }
    ensures { (ys : List ℕ) (n : ℕ) → operand < n → result ≡ targets.target (table_of kinds.now a.now ys n) operand }
{
    let e = operand as usize;
    if kinds[e] == Kind::NAME {
        return a[e];
    }
    operand
}
