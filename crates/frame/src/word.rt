// Bits 3 to 48 of a frame as one number of 46 bits, of which bit 3 of the frame is the highest.
ghost use Rattle.std.specs.Prelude.{◌≡◌, ◌∷◌, [], ◌++◌, ◌+◌, ◌*◌, ◌<◌, drop};
ghost use Rattle.frame.specs.Bits.{number_high_first, octet_bits, balanced};
ghost use Rattle.frame.specs.Down.{down_bits};
ghost use Rattle.frame.specs.Up.{up_bits, single};
ghost use Rattle.frame.specs.Word.{top_bits};

use super::fields::{DownFields, UpFields};

// Gives the number of 11 bits that an octet and the three bits x, y and z after it are.
#[tactic(auto, using(crate::proofs::Words::part_number))]
fn part(octet: u8, x: bool, y: bool, z: bool) -> u64
    ensures value { result ≡ number_high_first (octet_bits octet ++ (x ∷ y ∷ z ∷ [])) }
    ensures upper_bound { result < 2048 }
{
    u64::from(octet) * 8 + u64::from(x) * 4 + u64::from(y) * 2 + u64::from(z)
}

// Gives the number of 11 bits that an octet with its L, and d with its L, are. L is 1 where an even
// number of the bits before it is 0: of an octet's eight bits that is so exactly if an even number
// is 1, and the L of a single bit is as the bit.
#[tactic(auto, using(crate::proofs::Words::group_bits))]
fn group(octet: u8, d: bool) -> u64
    ensures value { result ≡ number_high_first (balanced (octet_bits octet) ++ single d) }
    ensures upper_bound { result < 2048 }
{
    part(octet, octet.count_ones() % 2 == 0, d, d)
}

// Joins the four parts of 11 bits of which a frame is made, with `pair`, the two bits of positions
// 14 and 15, after the first part.
fn joined(first: u64, pair: u64, second: u64, third: u64, fourth: u64) -> u64
    requires first_bound { first < 2048 }
    requires pair_bound { pair < 4 }
    requires second_bound { second < 2048 }
    requires third_bound { third < 2048 }
    requires fourth_bound { fourth < 2048 }
    ensures { result ≡ (((first * 4 + pair) * 2048 + second) * 2048 + third) * 2048 + fourth }
{
    (((first * 4 + pair) * 2048 + second) * 2048 + third) * 2048 + fourth
}

// Gives bits 3 to 48 of a downward frame. N is the inverse of FA, so that the pair FA, N is 01 or
// 10. The last L is 1 where an even number of the 45 bits before it is 0, that is, where an odd
// number of them is 1.
#[tactic(auto, using(crate::proofs::Words::down_bits_lem))]
pub(crate) fn down_word(f: DownFields) -> u64
    ensures { top_bits 46 result ≡ drop 2 (down_bits f) }
{
    let first = part(f.b1first, f.e.first, f.d.first, f.a);
    let second = part(f.b2first, f.e.second, f.d.second, f.m);
    let third = part(f.b1second, f.e.third, f.d.third, f.s);
    let fourth = part(f.b2second, f.e.fourth, f.d.fourth, false);
    let open = joined(first, 1 + u64::from(f.fa), second, third, fourth);
    open + u64::from(open.count_ones() % 2)
}

// Gives bits 3 to 48 of an upward frame. FA's L is as FA.
#[tactic(auto, using(crate::proofs::Words::up_bits_lem))]
pub(crate) fn up_word(f: UpFields) -> u64
    ensures { top_bits 46 result ≡ drop 2 (up_bits f) }
{
    let first = group(f.b1first, f.d.first);
    let second = group(f.b2first, f.d.second);
    let third = group(f.b1second, f.d.third);
    let fourth = group(f.b2second, f.d.fourth);
    joined(first, 3 * u64::from(f.fa), second, third, fourth)
}
