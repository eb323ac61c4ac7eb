// A verdict, and the number by which the C calls answer it. The definitions of verdicts and of tests are in specs/.
#![tactic(auto)]

ghost use Rattle.std.specs.Prelude.{◌≡◌, ℕ};
ghost use Rattle.verdict.specs.Verdict.{packed, packed_wide, Within};
ghost use Rattle.verdict.specs.Verdict as verdicts;
ghost use Rattle.verdict.specs.Shown.{refusal, shown};
ghost use Rattle.verdict.specs.FaultNumbers.{number_of};

// A refusal's number and its place: a byte, an entry or a node. A place in a model can lie above 65,535.
#[derive(Clone, Copy, PartialEq, Eq)]
pub struct Refusal<Place = u16> {
    pub number: u16,
    pub place: Place,
}

// Where places can be wider, one of two bytes is a place too.
impl From<Refusal> for Refusal<u32> {
    ghost from_gives = { λ narrow refusal. refusal ≡ narrow };

    fn from(refusal: Refusal) -> Refusal<u32> {
        Refusal {
            number: refusal.number,
            place: u32::from(refusal.place),
        }
    }
}

pub type Verdict = Result<(), Refusal>;

// What can be wrong with a file, a state or a call: each fault has its number.
pub trait Fault: Copy {
    ghost number_of: { Self → ℕ };

    fn number(self) -> u16
        ensures { result ≡ number_of self };

    // The refusal at a place.
    fn at<Place>(self, place: Place) -> Refusal<Place>
        ensures { result ≡ refusal (number_of self) place }
    {
        Refusal {
            number: self.number(),
            place,
        }
    }
}

// What slices earn that a caller lends: one under its length, or an output without room.
#[derive(Clone, Copy, PartialEq, Eq)]
pub enum SliceFault {
    Short = 1,
    Output = 70,
}

impl Fault for SliceFault {
    ghost number_of = { number_of };

    fn number(self) -> u16 {
        self as u16
    }
}

// 0 for accepted, or refusal × 65,536 + place.
pub fn pack(verdict: Verdict) -> u32
    ensures { (result ≡ packed (shown verdict)) × Within 65536 (shown verdict) }
{
    match verdict {
        Ok(()) => 0,
        Err(refusal) => (refusal.number as u32) * 65536 + (refusal.place as u32),
    }
}

// Refusal × 2^32 + place, for places that two bytes cannot hold.
pub fn pack_wide(number: u16, place: u32) -> u64
    ensures { (result ≡ packed_wide (verdicts.refused number place)) × Within 4294967296 (verdicts.refused number place) }
{
    (number as u64) * 4294967296 + (place as u64)
}
