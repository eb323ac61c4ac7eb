// What is made once of a claim, before its entries are evaluated.
ghost use Rattle.dependencies.specs.Prepared.{Prepared};

use forming::columns::ClaimColumns;

// A claim with the highest free name of each entry, and with who reads each entry's word.
#[derive(Clone, Copy)]
pub struct PreparedClaim<'a> {
    pub claim: ClaimColumns<'a>,
    pub tops: &'a [u16; 256],
    pub users: &'a [u64; 1024],
    pub ghost found: { Prepared claim.kinds.now claim.a.now claim.b.now tops.now users.now },
}
