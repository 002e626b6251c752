// A bus lent as octets is taken apart, stepped and laid again. The images stay where they are; the
// letters and the reader's octets go through arrays, since no two parts of one slice are lent to
// one call.
ghost use Rattle.std.specs.Prelude.{true, ◌≡◌};
ghost use Rattle.bus_rules.specs.Calls.Call.{event as eventCall};
ghost use Rattle.bus_call_specs.specs.Lists.{told, called};
ghost use Rattle.bus_call_specs.specs.Run.{run_answer, kept_after};
ghost use Rattle.bus_octets.specs.Layout.{is_bus, shown, bus_octets};

use bus_by_value::HeldRun;
use bus_event::event::Told;
use bus_octets::laid::lay;
use bus_octets::layout::IMAGES_AT;
use bus_octets::shown::{letters_in, octets_in, record_in, terminals_in};

// Gives an event to the bus that octets s stand for.
pub(crate) fn give(s: &mut [u8], unit: u32, event: u8, value: &[u8]) -> Told
    requires { is_bus s.old ≡ true }
    ensures value { result ≡ told unit event value.now (shown s.old) }
    ensures s_after { s.new ≡ bus_octets (called (shown s.old) (eventCall unit event value.now)) }
{
    let bus = record_in(s);
    let before = terminals_in(s);
    let mut letters = letters_in(s);
    let octets = octets_in(s);
    let images = &mut s[IMAGES_AT..];
    let g = bus_by_value::event(bus, before, images, &mut letters, unit, event, value);
    let told = g.told;
    let after = told.bus;
    let terminals = g.terminals;
    lay(s, after, terminals, &letters, &octets);
    told
}

// Runs at most `most` periods of the bus that octets s stand for.
pub(crate) fn go(s: &mut [u8], most: u32) -> HeldRun
    requires { is_bus s.old ≡ true }
    ensures answer_value { result.answer ≡ run_answer most (shown s.old) }
    ensures notes_value { result.notes ≡ (kept_after most (shown s.old)).notes }
    ensures s_after { s.new ≡ bus_octets (kept_after most (shown s.old)) }
{
    let bus = record_in(s);
    let before = terminals_in(s);
    let letters = letters_in(s);
    let mut octets = octets_in(s);
    let images = &s[IMAGES_AT..];
    let g = bus_by_value::run(bus, before, images, &mut octets, &letters, most);
    let answer = g.answer;
    let after = answer.bus;
    let terminals = g.terminals;
    lay(s, after, terminals, &letters, &octets);
    g
}
