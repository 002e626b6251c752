// Reading frames, and what is taken from a line at symbol level. Each call refuses a lent slice that
// is no line, with `Refusal::WrongSlice`.
ghost use Rattle.std.specs.Prelude.{◌≡◌, ◌+◌, ◌<◌, List, ℕ, length};
ghost use Rattle.symbols.specs.Symbols.{line_length, levels};
ghost use Rattle.symbols.specs.Calls.{has_line_length, reply, leaves, tested};
ghost use Rattle.frame.specs.Bits.{number_high_first, four_at, d_bits};
ghost use Rattle.frame.specs.Down.{down_line, down_fields_of, e_bits};
ghost use Rattle.frame.specs.Up.{up_line, up_fields_of};
ghost use Rattle.frame_reader.specs.Read.{read_by, down_read, up_read, four_read, a_level};

use frame::fields::{DownFields, Four, UpFields};
use frame::write::{write_down, write_up};
use refusals::Refusal;
use symbols::{LINE_LENGTH, NONE, as_line, same_symbols};

// The indices of the four D bits, of either direction.
const D1: usize = 11;

const D2: usize = 24;

const D3: usize = 35;

const D4: usize = 46;
// The index of FA, of either direction.
const FA: usize = 13;
// The indices of the four echo bits.
const E1: usize = 10;

const E2: usize = 23;

const E3: usize = 34;

const E4: usize = 45;

// Gives the octet whose bits are eight symbols.
#[tactic(auto, using(crate::proofs::Octets::octet_start, crate::proofs::Octets::octet_small, crate::proofs::Octets::octet_lt, crate::proofs::Octets::octet_next, crate::proofs::Octets::octet_done))]
fn octet(symbols: &[u8]) -> u8
    requires { length symbols.now ≡ 8 }
    ensures { result ≡ number_high_first (levels symbols.now) }
{
    let mut n = 0;
    for symbol in symbols {
        n = n * 2 + u8::from(*symbol == NONE);
    }
    n
}

// Gives the bits at the indices i, j, k and l.
#[tactic(auto, using(crate::proofs::Octets::four_levels))]
fn four_at(line: &[u8; LINE_LENGTH], i: usize, j: usize, k: usize, l: usize) -> Four
    requires i_in_bounds { i < line_length }
    requires j_in_bounds { j < line_length }
    requires k_in_bounds { k < line_length }
    requires l_in_bounds { l < line_length }
    ensures { result ≡ four_at (i + 1) (j + 1) (k + 1) (l + 1) (levels line.now) }
{
    Four {
        first: line[i] == NONE,
        second: line[j] == NONE,
        third: line[k] == NONE,
        fourth: line[l] == NONE,
    }
}

// Gives the fields that a downward line holds at symbol level.
fn down_fields(line: &[u8; LINE_LENGTH]) -> DownFields
    ensures { result ≡ down_fields_of line.now }
{
    DownFields {
        b1first: octet(&line[2..10]),
        b2first: octet(&line[15..23]),
        b1second: octet(&line[26..34]),
        b2second: octet(&line[37..45]),
        e: four_at(line, E1, E2, E3, E4),
        d: four_at(line, D1, D2, D3, D4),
        a: line[12] == NONE,
        fa: line[FA] == NONE,
        m: line[25] == NONE,
        s: line[36] == NONE,
    }
}

// Gives the fields that an upward line holds at symbol level.
fn up_fields(line: &[u8; LINE_LENGTH]) -> UpFields
    ensures { result ≡ up_fields_of line.now }
{
    UpFields {
        b1first: octet(&line[2..10]),
        b2first: octet(&line[15..23]),
        b1second: octet(&line[26..34]),
        b2second: octet(&line[37..45]),
        d: four_at(line, D1, D2, D3, D4),
        fa: line[FA] == NONE,
    }
}

// The fields of a frame of one direction: a line holds some, and they are written as a line.
trait Frame: Copy {
    // What a line holds.
    ghost taken_from: { List ℕ → Self };

    // What fields are written as.
    ghost line_of: { Self → List ℕ };

    // Takes the fields from a line.
    fn taken(line: &[u8; LINE_LENGTH]) -> Self
        ensures { result ≡ taken_from line.now };

    // Writes the fields.
    fn write(self, out: &mut [u8]) -> Result<(), Refusal>
        ensures reply { result ≡ reply (has_line_length out.old) }
        ensures octets { out.new ≡ leaves (has_line_length out.old) (line_of self) out.old };
}

impl Frame for DownFields {
    ghost taken_from = { down_fields_of };

    ghost line_of = { down_line };

    fn taken(line: &[u8; LINE_LENGTH]) -> DownFields {
        down_fields(line)
    }

    fn write(self, out: &mut [u8]) -> Result<(), Refusal> {
        write_down(self, out)
    }
}

impl Frame for UpFields {
    ghost taken_from = { up_fields_of };

    ghost line_of = { up_line };

    fn taken(line: &[u8; LINE_LENGTH]) -> UpFields {
        up_fields(line)
    }

    fn write(self, out: &mut [u8]) -> Result<(), Refusal> {
        write_up(self, out)
    }
}

// Reads a frame: gives its fields, or refuses what is no line, and a line that no fields are written
// as.
#[tactic(auto, unfolding(crate::specs::Read::read_by))]
fn read<F: Frame>(line: &[u8]) -> Result<F, Refusal>
    ensures { result ≡ read_by F.line_of F.taken_from line.now }
{
    let f = F::taken(as_line(line)?);
    let mut back = [NONE; LINE_LENGTH];
    f.write(&mut back)?;
    if same_symbols(line, &back) {
        Ok(f)
    } else {
        Err(Refusal::NoFrame)
    }
}

// Reads a downward frame: gives its fields, or refuses with `WrongSlice` what is no line, and with
// `NoFrame` a line that no fields are written as.
pub fn read_down(line: &[u8]) -> Result<DownFields, Refusal>
    ensures { result ≡ down_read line.now }
{
    read::<DownFields>(line)
}

// Reads an upward frame in the same way.
pub fn read_up(line: &[u8]) -> Result<UpFields, Refusal>
    ensures { result ≡ up_read line.now }
{
    read::<UpFields>(line)
}

// Gives the four D bits of a line of either direction.
#[tactic(auto, unfolding(crate::specs::Read::four_read))]
pub fn d_bits(line: &[u8]) -> Result<Four, Refusal>
    ensures { result ≡ four_read d_bits line.now }
{
    Ok(four_at(as_line(line)?, D1, D2, D3, D4))
}

// Gives the four echo bits of a downward line.
#[tactic(auto, unfolding(crate::specs::Read::four_read))]
pub fn e_bits(line: &[u8]) -> Result<Four, Refusal>
    ensures { result ≡ four_read e_bits line.now }
{
    Ok(four_at(as_line(line)?, E1, E2, E3, E4))
}

// Tests whether the A bit of a downward line is 1.
pub fn a_bit(line: &[u8]) -> Result<bool, Refusal>
    ensures { result ≡ tested a_level line.now }
{
    Ok(as_line(line)?[12] == NONE)
}
