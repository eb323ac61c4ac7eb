// A claim's columns and a model's words, as evaluation reads them.
ghost use Rattle.std.specs.Prelude.{◌≤◌, length};
ghost use Rattle.states.specs.StateWords.{Inside};
ghost use Rattle.forming.specs.Claim.{Claim};
ghost use Rattle.forming.specs.ClaimProp.{claim_prop};

// A claim: its entries' kinds, As and Bs in a column each.
#[derive(Clone, Copy)]
pub struct ClaimColumns<'a> {
    pub kinds: &'a [u8],
    pub a: &'a [u16],
    pub b: &'a [u16],
    pub ghost is_claim: { Claim kinds.now a.now b.now } by { claim_prop kinds.now a.now b.now },
}

// A model of `size` states: the letters of each state, and its successors by each action, from row 64 * a on for action a.
#[derive(Clone, Copy)]
pub struct ModelWords<'a> {
    pub rows: &'a [u64],
    pub masks: &'a [u32; 64],
    pub size: usize,
    pub ghost states: { size ≤ 64 },
    pub ghost rows_inside: { Inside size (length rows.now) rows.now },
}
