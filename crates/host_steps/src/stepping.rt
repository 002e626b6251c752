// Stepping a bus that is lent as octets: an event, a period, a run of periods. The notes come back
// as octets in lent room.
ghost use Rattle.std.specs.Prelude.{◌≡◌};
ghost use Rattle.bus_rules.specs.Calls.Call.{event as eventCall, period as periodCall};
ghost use Rattle.host_steps.specs.Stepping as spec;

use super::held::{give, go};
use super::notes::{NOTES_LENGTH, put_run, put_told};
use bus_octets::layout::{IMAGES_AT, OCTETS_AT};
use bus_octets::shown::record_in;
use host_bus::lent::lent_reason;
use refusals::Refusal;

// Gives the number of an event as an octet; 0, which is none, for what is above an octet.
fn event_number(event: u32) -> u8
    ensures { result ≡ spec.event_number event }
{
    if event < 256 { event as u8 } else { 0 }
}

// Gives the number that a host is told: the reply of the bus, or the number of the reason for which
// what is lent was turned down.
// Kept: what may not change: a `reply` is any number that `replied` and `refused_run` are given.
fn told_number(outcome: Result<u8, Refusal>) -> u32
    ensures { result ≡ spec.told_number outcome }
{
    match outcome {
        Ok(reply) => u32::from(reply),
        Err(refusal) => u32::from(refusal.number()),
    }
}

// Gives the bus an event and puts its notes, unless what is lent is turned down; gives the reply of
// the bus.
fn give_event(
    bus: &mut [u8],
    notes: &mut [u8],
    unit: u32,
    event: u32,
    value: &[u8],
) -> Result<u8, Refusal>
    ensures value { spec.told_number result
        ≡ spec.host_reply bus.old notes.old (eventCall unit event value.now) }
    ensures bus_after { bus.new ≡ spec.host_bus bus.old notes.old (eventCall unit event value.now) }
    ensures notes_after { notes.new
        ≡ spec.host_notes bus.old notes.old (eventCall unit event value.now) }
{
    lent_reason(bus, notes.len(), NOTES_LENGTH)?;
    let period = record_in(bus).periods.0;
    let told = give(bus, unit, event_number(event), value);
    if told.reply != 0 {
        return Ok(told.reply);
    }
    put_told(notes, period, unit, told.notes);
    Ok(0)
}

// Gives the bus an event: any unit number, any event number, any value.
pub fn sbus_event(bus: &mut [u8], notes: &mut [u8], unit: u32, event: u32, value: &[u8]) -> u32
    ensures value { result ≡ spec.host_reply bus.old notes.old (eventCall unit event value.now) }
    ensures bus_after { bus.new ≡ spec.host_bus bus.old notes.old (eventCall unit event value.now) }
    ensures notes_after { notes.new
        ≡ spec.host_notes bus.old notes.old (eventCall unit event value.now) }
{
    told_number(give_event(bus, notes, unit, event, value))
}

// Runs at most `most` periods and puts the notes of the last, unless what is lent is turned down;
// gives the reply of the bus.
fn run_most(bus: &mut [u8], notes: &mut [u8], most: u32) -> Result<u8, Refusal>
    ensures value { spec.told_number result ≡ spec.host_run_reply bus.old notes.old most }
    ensures bus_after { bus.new ≡ spec.host_run_bus bus.old notes.old most }
    ensures notes_after { notes.new ≡ spec.host_run_notes bus.old notes.old most }
{
    lent_reason(bus, notes.len(), NOTES_LENGTH)?;
    let g = go(bus, most);
    let answer = g.answer;
    let units = g.notes;
    if answer.reply != 0 {
        return Ok(answer.reply);
    }
    put_run(notes, answer, units, &bus[OCTETS_AT..IMAGES_AT]);
    Ok(0)
}

// Runs one period.
pub fn sbus_period(bus: &mut [u8], notes: &mut [u8]) -> u32
    ensures value { result ≡ spec.host_reply bus.old notes.old periodCall }
    ensures bus_after { bus.new ≡ spec.host_bus bus.old notes.old periodCall }
    ensures notes_after { notes.new ≡ spec.host_notes bus.old notes.old periodCall }
{
    told_number(run_most(bus, notes, 1))
}

// Runs periods until `until` of them have been run since the bus was fresh or one hands back notes.
pub fn sbus_run(bus: &mut [u8], notes: &mut [u8], until: u32) -> u32
    ensures value { result ≡ spec.host_run_reply bus.old notes.old (spec.most_to until bus.old) }
    ensures bus_after { bus.new ≡ spec.host_run_bus bus.old notes.old (spec.most_to until bus.old) }
    ensures notes_after { notes.new
        ≡ spec.host_run_notes bus.old notes.old (spec.most_to until bus.old) }
{
    let run = record_in(bus).periods.0;
    told_number(run_most(bus, notes, until.saturating_sub(run)))
}
