// An event of the book: the reasons for which it is turned down, and what it does to one terminal.
// What it does to the network end stands in crate `bus_calls`, which has looked at those reasons.
ghost use Rattle.std.specs.Prelude.{◌≡◌, ◌*◌, ◌<◌, ◌≤◌, length};
ghost use Rattle.packing.specs.Packing.{image_room};
ghost use Rattle.hdlc.specs.Image.{image, longest_body};
ghost use Rattle.bus_rules.specs.Bus.{terminals};
ghost use Rattle.bus_rules.specs.Event.{event_for, call_reasons, first_holding};
ghost use Rattle.terminal.specs.Steps.{as_result};
ghost use Rattle.refusals.specs.Numbers.{unless_refused};
ghost use Rattle.bus_event.specs.Event as spec;

use bus_record::record::BusRecord;
use combining::combine::TERMINALS;
use combining::hit::NONE_LETTER;
use dchannel::access::Class;
use hdlc::LONGEST_BODY;
use notes_and_cells::cell::NO_NOTES;
use notes_and_cells::events::{AR, D1, D2, DR, HIT, OFF, ON};
use notes_and_cells::notes::Notes;
use packing::image::{IMAGE_ROOM, image};
use refusals::Refusal;
use symbols::{LINE_LENGTH, fits};
use table_6_2::F7;
use terminal::{Terminal, TerminalStep};
use timing::counts::Periods;

// The highest unit number: that of the last terminal.
const LAST_UNIT: u32 = TERMINALS as u32;

// The octets of the rooms of all images.
pub const IMAGES_ROOM: usize = TERMINALS * IMAGE_ROOM;

// What an event gives: the record, the notes of its unit, and 0 or the number of the refusal.
#[derive(Clone, Copy)]
pub struct Told {
    pub bus: BusRecord,
    pub notes: Notes,
    pub reply: u8,
}

// Gives the record as it is, with notes and a reply.
pub fn replied(bus: BusRecord, notes: Notes, reply: u8) -> Told
    ensures { result ≡ spec.told bus notes reply }
{
    Told { bus, notes, reply }
}

// Tests whether `event` is an event of unit `unit`.
fn event_for(unit: u32, event: u8) -> bool
    ensures { result ≡ event_for unit event }
{
    if unit == 0 {
        return (event == AR) | (event == DR) | (event == HIT);
    }
    (event == ON) | (event == OFF) | (event == AR) | (event == D1) | (event == D2)
}

// Refuses an event for the first reason that the call itself decides.
fn call_reason(unit: u32, event: u8, value: &[u8]) -> Result<(), Refusal>
    ensures { result ≡ unless_refused (first_holding (call_reasons unit event value.now)) tt }
{
    if (event == HIT) & !fits(value, LINE_LENGTH, NONE_LETTER) {
        return Err(Refusal::WrongSlice);
    }
    if LAST_UNIT < unit {
        return Err(Refusal::NoSuchUnit);
    }
    if !event_for(unit, event) {
        return Err(Refusal::NotForUnit);
    }
    Ok(())
}

// Refuses an event for the first reason that is known before a unit is asked: `ready` is whether the
// slice of terminals is in order, `images` the number of octets lent for images.
pub fn first_reason(
    ready: bool,
    bus: BusRecord,
    images: usize,
    letters: &[u8],
    unit: u32,
    event: u8,
    value: &[u8],
) -> Result<(), Refusal>
    ensures { result ≡ unless_refused (spec.first_reason ready bus images letters.now unit event value.now) tt }
{
    if !(ready & bus.in_range()) {
        return Err(Refusal::OutOfRange);
    }
    if !((images == IMAGES_ROOM) & fits(letters, LINE_LENGTH, NONE_LETTER)) {
        return Err(Refusal::WrongSlice);
    }
    call_reason(unit, event, value)
}

// Writes the image of a body into the room of terminal i, and gives its length in bits.
fn put_image(images: &mut [u8], i: usize, value: &[u8]) -> u16
    requires i_lt_terminals { i < terminals }
    requires images_len { length images.old ≡ terminals * image_room }
    requires in_bounds { 1 ≤ length value.now }
    requires value_len_bound { length value.now ≤ longest_body }
    ensures value { result ≡ length (image value.now) }
    ensures images_after { images.new ≡ spec.image_put i value.now images.old }
{
    let from = i * IMAGE_ROOM;
    let to = from + IMAGE_ROOM;
    image(value, &mut images[from..to]).unwrap_or(0)
}

// Refuses a frame of `octets` octets for the first reason for which terminal i is not given it.
fn frame_reason(terminal: Terminal, images: usize, i: usize, octets: usize) -> Result<(), Refusal>
    ensures { result ≡ unless_refused (spec.frame_reason images i octets terminal) tt }
{
    if !terminal.in_range() {
        return Err(Refusal::OutOfRange);
    }
    if !((images == IMAGES_ROOM) & (i < TERMINALS)) {
        return Err(Refusal::WrongSlice);
    }
    if terminal.state != F7 {
        return Err(Refusal::OutsideF7);
    }
    if !((octets != 0) & (octets <= LONGEST_BODY)) {
        return Err(Refusal::BodyLength);
    }
    if terminal.access.held != 0 {
        return Err(Refusal::FrameHeld);
    }
    Ok(())
}

// Gives terminal i a frame (`d1`, `d2`): nothing is written before all reasons have been looked at.
fn give_frame(
    terminal: Terminal,
    images: &mut [u8],
    i: usize,
    class: Class,
    value: &[u8],
) -> Result<TerminalStep, Refusal>
    ensures value { result ≡ as_result (spec.frame_given class images.old i value.now terminal) }
    ensures images_after { images.new ≡ spec.images_with terminal i value.now images.old }
{
    frame_reason(terminal, images.len(), i, value.len())?;
    let length = put_image(images, i, value);
    terminal.hand_over(class, length)
}

// Gives terminal i an event. No other number moves it: whether it is an event of a terminal has been
// looked at before.
#[tactic(auto, unfolding(crate::specs::Event::terminal_told, crate::specs::Event::images_after, terminal::specs::Steps::as_result))]
pub fn terminal_event(
    terminal: Terminal,
    images: &mut [u8],
    i: usize,
    event: u8,
    value: &[u8],
    period: Periods,
) -> Result<TerminalStep, Refusal>
    ensures value { result ≡ as_result (spec.terminal_told event images.old i value.now period terminal) }
    ensures images_after { images.new ≡ spec.images_after event terminal i value.now images.old }
{
    match event {
        ON => terminal.switch_on(period),
        OFF => terminal.switch_off(period),
        AR => terminal.request(period),
        D1 => give_frame(terminal, images, i, Class::One, value),
        D2 => give_frame(terminal, images, i, Class::Two, value),
        _ => Ok(TerminalStep {
            terminal,
            notes: NO_NOTES,
        }),
    }
}

// Gives what the call gives where terminal `unit` has answered an event with this step and reply:
// the record, the notes and the reply. Every event of a terminal ends here, with all that is known
// of it; no event of document 01 changes the record, or asks for more than the step.
#[tactic(auto, unfolding(crate::specs::Event::event_settled))]
pub fn event_settled(
    bus: BusRecord,
    unit: u32,
    event: u8,
    value: &[u8],
    step: TerminalStep,
    reply: u8,
) -> Told
    ensures { result ≡ spec.event_settled bus unit event value.now
        (record { terminal = step.terminal; notes = step.notes; reply = reply }) }
{
    replied(bus, step.notes, reply)
}
