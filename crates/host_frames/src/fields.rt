// The fields of a frame as 16 octets, with the same places in both directions: the four B octets;
// then bits, each an octet 0 or 1: the four D, the four E, A, FA, M and S. Of these bits an upward
// frame has the four D and FA: the octets of the others are 0.
ghost use Rattle.std.specs.Prelude.{◌≡◌, ◌+◌, ◌≤◌};
ghost use Rattle.host_frames.specs.Octets.{fields_length, down_octets, down_from, four_from, as_down};

use frame::fields::{DownFields, Four, UpFields};

// The number of octets that fields take.
pub const FIELDS: usize = 16;

// The places of the first D and of the first E.
pub(crate) const FIRST_D: usize = 4;

pub(crate) const FIRST_E: usize = 8;

// The places of FA and of M, the first behind it.
pub(crate) const FA: usize = 13;

pub(crate) const M: usize = 14;

// Gives the four bits from place `at` on.
fn four_from(octets: &[u8; FIELDS], at: usize) -> Four
    requires { at + 4 ≤ fields_length }
    ensures { result ≡ four_from at octets.now }
{
    Four {
        first: octets[at] == 1,
        second: octets[at + 1] == 1,
        third: octets[at + 2] == 1,
        fourth: octets[at + 3] == 1,
    }
}

// Gives the fields that octets stand for.
pub(crate) fn down_from(octets: &[u8; FIELDS]) -> DownFields
    ensures { result ≡ down_from octets.now }
{
    DownFields {
        b1first: octets[0],
        b2first: octets[1],
        b1second: octets[2],
        b2second: octets[3],
        e: four_from(octets, FIRST_E),
        d: four_from(octets, FIRST_D),
        a: octets[12] == 1,
        fa: octets[FA] == 1,
        m: octets[M] == 1,
        s: octets[15] == 1,
    }
}

// Gives the octets of the fields f.
#[tactic(auto, using(frame::proofs::Bits::byte_bit), unfolding(crate::specs::Octets::down_octets))]
pub(crate) fn down_octets(f: DownFields) -> [u8; FIELDS]
    ensures { result ≡ down_octets f }
{
    [
        f.b1first,
        f.b2first,
        f.b1second,
        f.b2second,
        u8::from(f.d.first),
        u8::from(f.d.second),
        u8::from(f.d.third),
        u8::from(f.d.fourth),
        u8::from(f.e.first),
        u8::from(f.e.second),
        u8::from(f.e.third),
        u8::from(f.e.fourth),
        u8::from(f.a),
        u8::from(f.fa),
        u8::from(f.m),
        u8::from(f.s),
    ]
}

// Gives the fields of an upward frame as those of a downward one, with every other bit 0.
pub(crate) fn as_down(f: UpFields) -> DownFields
    ensures { result ≡ as_down f }
{
    DownFields {
        b1first: f.b1first,
        b2first: f.b2first,
        b1second: f.b1second,
        b2second: f.b2second,
        e: Four::all(false),
        d: f.d,
        a: false,
        fa: f.fa,
        m: false,
        s: false,
    }
}
