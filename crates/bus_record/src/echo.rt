// What of the downward line the exchange and the terminals' hearing need: a line is built under a
// hit alone.
ghost use Rattle.std.specs.Prelude.{◌≡◌};
ghost use Rattle.bus_rules.specs.Quick.{shown_by};
ghost use Rattle.exchange.specs.Shown.{letters_at_e};
ghost use Rattle.bus_record.specs.Echo.{letter_at, hit_in, first_tally, built_down, heard_down};

use super::record::BusRecord;
use combining::hit::{KEEP_LETTER, apply_hit};
use exchange::tally::{Letters, Tally};
use frame::fields::Four;
use heard_line::heard::Downward;
use heard_line::sensing::sense_down;
use info::info::{info0, info2, info4};
use symbols::{LINE_LENGTH, NONE};
use table_6_3::info_sent;

// Gives the letter at index i, the keep letter past the end.
fn letter_at(letters: &[u8], i: usize) -> u8
    ensures { result ≡ letter_at letters.now i }
{
    letters.get(i).copied().unwrap_or(KEEP_LETTER)
}

// Gives the letters at E11, E24, E35 and E46, the keep letter where there is no hit.
#[tactic(auto, unfolding(exchange::specs::Shown::letters_at_e, crate::specs::Echo::hit_in))]
fn letters_at_e(hit: bool, letters: &[u8]) -> Letters
    ensures { result ≡ letters_at_e (hit_in hit letters.now) }
{
    if hit {
        Letters {
            first: letter_at(letters, 10),
            second: letter_at(letters, 23),
            third: letter_at(letters, 34),
            fourth: letter_at(letters, 45),
        }
    } else {
        Letters::KEEP
    }
}

// Gives the tally as the first E of a period comes.
#[tactic(auto, unfolding(crate::specs::Echo::first_tally))]
pub fn first_tally(bus: BusRecord, letters: &[u8]) -> Tally
    ensures { result ≡ first_tally bus letters.now }
{
    Tally::first(bus.network.state, letters_at_e(bus.hit, letters), bus.echo)
}

// Gives what a line that the network end sends in `state` shows.
#[tactic(auto, using(crate::proofs::EchoLaws::shown_by_state))]
pub fn shown_by(state: u8) -> Downward
    ensures { result ≡ shown_by state }
{
    let info = info_sent(state);
    let pulse = info != 0;
    Downward {
        pulse,
        framed: pulse,
        a: info != 2,
    }
}

// Builds the line that a network end in `state` sends, with the four E `es`.
#[tactic(auto, unfolding(crate::specs::Echo::built_down, bus_rules::specs::Exchange::sent_down))]
fn build_down(state: u8, es: Four, line: &mut [u8; LINE_LENGTH])
    ensures { line.new ≡ built_down state es line.old }
{
    let built = match info_sent(state) {
        4 => info4(es, line),
        2 => info2(line),
        _ => info0(line),
    };
    built.unwrap()
}

// Gives what all powered terminals hear of the line, where `ds` are the four D heard in the
// exchange.
pub fn heard_down(bus: BusRecord, ds: Four, letters: &[u8]) -> Downward
    ensures { result ≡ heard_down bus ds letters.now }
{
    let quick = shown_by(bus.network.state);
    if !bus.hit {
        return quick;
    }
    let es = Four {
        first: bus.echo,
        second: ds.first,
        third: ds.second,
        fourth: ds.third,
    };
    let mut line = [NONE; LINE_LENGTH];
    build_down(bus.network.state, es, &mut line);
    // Letters that are not 48 are refused, and the line stays as it is sent.
    let _ = apply_hit(&mut line, letters);
    sense_down(&line).unwrap_or(quick)
}
