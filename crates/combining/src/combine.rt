// Several terminals on one line: plus where only plus is sent, minus where only minus, none
// otherwise. Which terminals send is found first, and their lines alone are gathered.
ghost use Rattle.std.specs.Prelude.{◌≡◌, map, length, get_or};
ghost use Rattle.std.specs.Int.Bits.{bit_or};
ghost use Rattle.symbols.specs.Symbols.{none, line_length, line_by};
ghost use Rattle.symbols.specs.Calls.{leaves};
ghost use Rattle.combining.specs.Combine.{column};
ghost use Rattle.combining.specs.Gathering.{gathered, gathered_symbol};
ghost use Rattle.combining.specs.Calls.{terminals, lines_length, rows, combine_fits, combined_reply, eight};
ghost use Rattle.combining.specs.Sending.{is_sending, sending, lines_taken};

use refusals::Refusal;
use symbols::{LINE_LENGTH, MINUS, NONE, fits};

// The number of terminals of a bus, and the number of symbols of all their lines.
pub const TERMINALS: usize = 8;

pub const LINES_LENGTH: usize = TERMINALS * LINE_LENGTH;

// What a plus and a minus at one position are gathered to: 1 and 2 bit by bit.
const PLUS_AND_MINUS: u8 = 3;

// Adds a line to what is gathered in `sum`, bit by bit.
#[tactic(auto, using(symbols::proofs::Fill::fill_done))]
fn overlay(sum: &mut [u8; LINE_LENGTH], line: &[u8])
    requires { length line.now ≡ line_length }
    ensures { sum.new ≡ line_by (λ i. bit_or (get_or sum.old i none) (get_or line.now i none)) }
{
    for i in 0..LINE_LENGTH {
        sum[i] |= line[i];
    }
}

// Gives the symbol of what is gathered at a position: none where plus and minus are.
fn gathered_symbol(m: u8) -> u8
    ensures { result ≡ gathered_symbol m }
{
    if m == PLUS_AND_MINUS { NONE } else { m }
}

// Makes symbols of what is gathered in `sum`.
#[tactic(auto, using(symbols::proofs::Fill::fill_done))]
fn resolve(sum: &mut [u8; LINE_LENGTH])
    ensures { sum.new ≡ line_by (λ i. gathered_symbol (get_or sum.old i none)) }
{
    for symbol in sum.iter_mut() {
        *symbol = gathered_symbol(*symbol);
    }
}

// Tests whether a terminal with this line sends: the line INFO 0 alone has no code above none.
#[tactic(auto, using(crate::proofs::Sending::sending_is))]
fn sends(line: &[u8]) -> bool
    ensures { result ≡ is_sending line.now }
{
    !fits(line, LINE_LENGTH, NONE)
}

// Finds which of the eight terminals send, by their lines.
fn senders(lines: &[u8]) -> [bool; TERMINALS]
    requires { length lines.now ≡ lines_length }
    ensures { result ≡ map is_sending (rows terminals lines.now) }
{
    let mut found = [false; TERMINALS];
    for n in 0..TERMINALS {
        let from = n * LINE_LENGTH;
        found[n] = sends(&lines[from..from + LINE_LENGTH]);
    }
    found
}

// Adds the lines of the terminals that send to what is gathered in `sum`, and gives how many they
// are.
fn gather(lines: &[u8], sends: [bool; TERMINALS], sum: &mut [u8; LINE_LENGTH]) -> u8
    requires lines_len { length lines.now ≡ lines_length }
    requires sends_value { sends ≡ map is_sending (rows terminals lines.now) }
    ensures taken { result ≡ lines_taken lines.now }
    ensures octets { sum.new
        ≡ line_by (λ i. gathered (get_or sum.old i none) (column i (sending (rows terminals lines.now)))) }
{
    let mut taken = 0;
    for n in 0..TERMINALS {
        if sends[n] {
            let from = n * LINE_LENGTH;
            overlay(sum, &lines[from..from + LINE_LENGTH]);
            taken += 1;
        }
    }
    taken
}

// Combines the eight terminals' lines, lent as 8 times 48 octets, into `out`, and gives how many it
// took: as many as terminals send other than INFO 0. Refuses a wrong length or code.
pub fn combine(lines: &[u8], out: &mut [u8]) -> Result<u8, Refusal>
    ensures reply { result
        ≡ combined_reply (combine_fits lines.now out.old) (lines_taken lines.now) }
    ensures octets { out.new
        ≡ leaves (combine_fits lines.now out.old) (eight lines.now) out.old }
{
    if out.len() != LINE_LENGTH || !fits(lines, LINES_LENGTH, MINUS) {
        return Err(Refusal::WrongSlice);
    }
    let sends = senders(lines);
    let mut sum = [NONE; LINE_LENGTH];
    let taken = gather(lines, sends, &mut sum);
    resolve(&mut sum);
    out.copy_from_slice(&sum);
    Ok(taken)
}
