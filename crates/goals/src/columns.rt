// The goals of a claim, with the roots of its proof, as columns: the members of each goal stand from its bound up to the next, and each goal
// has a root.
ghost use Rattle.formula.specs.Held.{GoalsHeld};

#[derive(Clone, Copy)]
pub struct GoalColumns<'a> {
    pub bounds: &'a [u16; 17],
    pub members: &'a [u16; 384],
    pub roots: &'a [u16; 16],
    pub count: usize,
    pub ghost held: { GoalsHeld bounds.now members.now count },
}
