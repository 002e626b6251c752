// The forms of a line's value.
ghost use Rattle.std.specs.Prelude.{◌≡◌};
ghost use Rattle.book_line.specs.ValueForms.{form_of};
ghost use Rattle.book_line.specs.Line as spec;

use notes_and_cells::events::{D1, D2, HIT};
use symbols::LINE_LENGTH;
use text::octets::{all_hex, all_letters};

// What an event's value is: none, so that `-` stands for it; a body in hexadecimal; the letters of
// a hit.
#[derive(Clone, Copy)]
pub enum ValueForm {
    Absent,
    Body,
    Letters,
}

// Tests whether a value is absent.
#[tactic(auto, using(symbols::proofs::Comparing::pointwise_same), unfolding(crate::specs::Line::is_absent))]
pub fn is_absent(v: &[u8]) -> bool
    ensures { result ≡ spec.is_absent v.now }
{
    v == b"-".as_slice()
}

// Tests whether a value is a body in hexadecimal.
#[tactic(auto, unfolding(crate::specs::Line::is_body_text))]
pub fn is_body(v: &[u8]) -> bool
    ensures { result ≡ spec.is_body_text v.now }
{
    is_absent(v) | ((1 <= v.len()) & (v.len() % 2 == 0) & all_hex(v))
}

// Tests whether a value is the letters of a hit, one for each symbol of a line.
#[tactic(auto, unfolding(crate::specs::Line::is_hit_text))]
pub fn is_hit(v: &[u8]) -> bool
    ensures { result ≡ spec.is_hit_text v.now }
{
    (v.len() == LINE_LENGTH) & all_letters(v)
}

// Gives the form of an event's value.
#[tactic(auto, unfolding(crate::specs::ValueForms::form_of))]
pub(crate) fn form_of(event: u8) -> ValueForm
    ensures { result ≡ form_of event }
{
    match event {
        D1 | D2 => ValueForm::Body,
        HIT => ValueForm::Letters,
        _ => ValueForm::Absent,
    }
}

// Tests whether a value is of the form that the event wants.
#[tactic(auto, unfolding(crate::specs::Line::value_fits))]
pub fn value_fits(event: u8, v: &[u8]) -> bool
    ensures { result ≡ spec.value_fits event v.now }
{
    match form_of(event) {
        ValueForm::Absent => is_absent(v),
        ValueForm::Body => is_body(v),
        ValueForm::Letters => is_hit(v),
    }
}
