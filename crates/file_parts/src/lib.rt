// The parts of a file, at their places: two-byte numbers, little-endian, which are fields that stand or not and counts in their range; lists.
#![tactic(auto)]

ghost use Rattle.std.specs.Prelude.{◌+◌};
ghost use Rattle.encoding.specs.Places.{InFile};
ghost use Rattle.file_parts.specs.Numbers.{NumberTells, two_at_lem, field_at, count_at_lem};

use encoding::{Parsed, Read};
use verdict::Refusal;

// A file that ends before the number is refused with the given number, at its length.
pub fn two_at(bytes: &[u8], at: usize, early: u16) -> Parsed<u16>
    requires { InFile bytes.now 65500 at }
    ensures { NumberTells bytes.now (at + 2) (two_at_lem early bytes.now at) result }
{
    if bytes.len() - at < 2 {
        return Err(Refusal {
            number: early,
            place: bytes.len() as u16,
        });
    }
    Ok(Read {
        value: encoding::join(bytes[at], bytes[at + 1]),
        next: at + 2,
    })
}

// A field whose bit does not stand takes no bytes and is 0.
pub fn field_at(bytes: &[u8], at: usize, stands: bool, early: u16) -> Parsed<u16>
    requires { InFile bytes.now 65500 at }
    ensures { NumberTells bytes.now (at + 2) (field_at early stands bytes.now at) result }
{
    if stands {
        return two_at(bytes, at, early);
    }
    Ok(Read { value: 0, next: at })
}

// A count is from the least to the top, or refused where it begins.
pub fn count_at(
    bytes: &[u8],
    at: usize,
    least: u16,
    top: u16,
    unfit: u16,
    early: u16,
) -> Parsed<u16>
    requires { InFile bytes.now 65500 at }
    ensures { NumberTells bytes.now (at + 2) (count_at_lem least top unfit early bytes.now at) result }
{
    let count = two_at(bytes, at, early)?;
    if count.value < least || top < count.value {
        return Err(Refusal {
            number: unfit,
            place: at as u16,
        });
    }
    Ok(count)
}
