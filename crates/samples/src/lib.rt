// Document 01's samples and the near misses are computed in specs/Samples.antt; here is their number.
#![tactic(auto)]

ghost use Rattle.std.specs.Prelude.{◌≡◌, length};
ghost use Rattle.samples.specs.Samples.{samples};

pub fn count() -> usize
    ensures { result ≡ length samples }
{
    126
}
