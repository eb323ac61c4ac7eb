// Sets of entries, by number: number k is bit k % 64 of word k / 64.
#![tactic(auto)]

ghost use Rattle.std.specs.Prelude.{◌≡◌, ◌*◌, ◌%◌, ◌<◌, length};
ghost use Rattle.bits.specs.WordLaws.{without_bit};
ghost use Rattle.bits.specs.WordSet.{in_set};
ghost use Rattle.entry_sets.specs.Sets.{Inserted, Removed, Joined, Lowest};

use bits::lowest_bit;

pub fn has(set: &[u64; 4], k: usize) -> bool
    requires { k < 256 }
    ensures { result ≡ in_set set.now k }
{
    (set[k / 64] >> (k % 64)) & 1 == 1
}

pub fn insert(set: &mut [u64], k: usize)
    requires { k < 64 * length set.old }
    ensures { Inserted set.old k set.new }
{
    set[k / 64] |= 1u64 << (k % 64);
}

// A word without bit k % 64.
pub fn cleared(word: u64, k: usize) -> u64
    ensures { result ≡ without_bit word (k % 64) }
{
    word & !(1u64 << (k % 64))
}

// Each word at a fixed place: a set that is only used in this way stays in registers. One that is stored to at a place worked out by the
// call stays in memory, and the next use of its words in pairs waits for that store.
pub fn remove(set: &mut [u64; 4], k: usize)
    requires { (k < 256) × (length set.old ≡ 4) }
    ensures { Removed set.old k set.new }
{
    if k < 64 {
        set[0] = cleared(set[0], k);
    } else if k < 128 {
        set[1] = cleared(set[1], k);
    } else if k < 192 {
        set[2] = cleared(set[2], k);
    } else {
        set[3] = cleared(set[3], k);
    }
}

pub fn join(set: &mut [u64; 4], more: &[u64; 4])
    requires { length set.old ≡ 4 }
    ensures { Joined set.old more.now set.new }
{
    for i in 0..4 {
        set[i] |= more[i];
    }
}

// The lowest number in a set, 256 if it has none.
pub fn lowest(set: &[u64; 4]) -> usize
    requires { length set.now ≡ 4 }
    ensures { Lowest set.now result }
{
    if set[0] != 0 {
        lowest_bit(set[0])
    } else if set[1] != 0 {
        64 + lowest_bit(set[1])
    } else if set[2] != 0 {
        128 + lowest_bit(set[2])
    } else if set[3] != 0 {
        192 + lowest_bit(set[3])
    } else {
        256
    }
}
