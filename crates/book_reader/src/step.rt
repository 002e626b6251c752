// One call on lent text from a position on: the first line, a line's entry, a fault, or that more
// text is needed. An answer says how many octets it takes, not where they stand.
ghost use Rattle.std.specs.Prelude.{◌≡◌, ◌+◌};
ghost use Rattle.text.specs.Part.{IsPart};
ghost use Rattle.refusals.specs.Numbers.{number};
ghost use Rattle.book_line.specs.Line.{in_order};
ghost use Rattle.book_line.specs.Judging.{judged};
ghost use Rattle.book_reader.specs.Step as spec;

use book_line::line::{LONGEST_LINE, judge};
use refusals::Refusal;
use text::field::{Ends, field};
use text::part::part;
use text::piece::{LF, long_piece_end};
use text::same::same;
use timing::counts::MOST_PERIODS;

// The stage of a book: its first line is to come, its lines are to come, or its `end` has been
// accepted.
// Kept: what may not change: `step_at` takes any number for it, and so does the record of `go_on`.
pub const BEFORE_FIRST_LINE: u8 = 0;

pub const AT_LINES: u8 = 1;

pub const AFTER_END: u8 = 2;

// The field of a line that is its value: period, unit and event come before it.
const VALUE: usize = 3;

// The book's first line, its LF included, and how many octets it has.
const FIRST_LINE: [u8; 24] = *b"period unit event value\n";

const FIRST_LINE_LENGTH: usize = FIRST_LINE.len();

// What a call answers.
#[derive(Clone, Copy)]
pub enum Step {
    // The book's first line has been read.
    Begun,
    // A line of `octets` octets, its LF included, and where its fields end: the value is the last
    // of them.
    Entry {
        period: u32,
        unit: u32,
        event: u8,
        ends: Ends,
        octets: usize,
    },
    // The book has ended with its accepted `end` line.
    Done,
    // The book stops here, for the reason of this number: 11 to 14.
    // Kept: what may not change: `octets_of`, `value_at` and `Reader::value` take a fault of any number.
    Fault(u8),
    // The text does not hold a whole line, and it is not all of the book.
    More,
}

// Stops the book.
fn fault(reason: Refusal) -> Step
    ensures { result ≡ Step.Fault (number reason) }
{
    Step::Fault(reason.number())
}

// Gives how many octets an answer takes.
#[tactic(auto, unfolding(crate::specs::Step::taken_by))]
pub fn octets_of(step: Step) -> usize
    ensures { result ≡ spec.taken_by step }
{
    match step {
        Step::Begun => FIRST_LINE_LENGTH,
        Step::Entry {
            period: _,
            unit: _,
            event: _,
            ends: _,
            octets,
        } => octets,
        Step::Done => 0,
        Step::Fault(_) => 0,
        Step::More => 0,
    }
}

// Reads the book's first line: it is looked at once all its octets are there, or the book has
// ended.
#[tactic(auto, unfolding(crate::specs::Step::head_step))]
fn head_step(t: &[u8], whole: bool) -> Step
    ensures { result ≡ spec.head_step t.now whole }
{
    if t.len() < FIRST_LINE_LENGTH {
        if whole {
            return fault(Refusal::NoFirstLine);
        }
        return Step::More;
    }
    if same(&t[..FIRST_LINE_LENGTH], &FIRST_LINE) {
        return Step::Begun;
    }
    fault(Refusal::NoFirstLine)
}

// Tests whether a period may stand after the last line's.
#[tactic(auto, unfolding(book_line::specs::Line::in_order))]
fn in_order(last: u32, period: u32) -> bool
    ensures { result ≡ in_order last period }
{
    (last <= period) & (period <= MOST_PERIODS)
}

// Judges a line of `octets` octets, its LF included: gives its entry, or stops with the reason.
#[tactic(auto, using(crate::proofs::Returns::ruled_wrong, crate::proofs::Returns::ruled_late, crate::proofs::Returns::ruled_entry))]
fn rule(line: &[u8], octets: usize, last: u32) -> Step
    ensures { result ≡ spec.ruled last octets (judged line.now) }
{
    let Ok(entry) = judge(line) else {
        return fault(Refusal::WrongLine);
    };
    if !in_order(last, entry.period) {
        return fault(Refusal::WrongPeriod);
    }
    Step::Entry {
        period: entry.period,
        unit: entry.unit,
        event: entry.event,
        ends: entry.ends,
        octets,
    }
}

// Judges n octets without LF: too long a line, a cut one, or the book's end.
#[tactic(auto, unfolding(crate::specs::Step::unended))]
fn unended(n: usize, whole: bool) -> Step
    ensures { result ≡ spec.unended n whole }
{
    if n >= LONGEST_LINE {
        return fault(Refusal::WrongLine);
    }
    if !whole {
        return Step::More;
    }
    if n == 0 {
        return fault(Refusal::NoEnd);
    }
    fault(Refusal::WrongLine)
}

// Reads a line: its LF is looked for among the first 600 octets.
#[tactic(auto, using(crate::proofs::Returns::step_line, crate::proofs::Returns::step_unended))]
fn line_step(t: &[u8], last: u32, whole: bool) -> Step
    ensures { result ≡ spec.line_step t.now last whole }
{
    let n = LONGEST_LINE.min(t.len());
    let end = long_piece_end(&t[..n], 0, LF);
    if end < n {
        return rule(&t[..end], end + 1, last);
    }
    unended(t.len(), whole)
}

// Judges n octets after `end`: there may be none.
#[tactic(auto, unfolding(crate::specs::Step::tail_step))]
fn tail_step(n: usize, whole: bool) -> Step
    ensures { result ≡ spec.tail_step n whole }
{
    if n != 0 {
        return fault(Refusal::NoEnd);
    }
    if whole {
        return Step::Done;
    }
    Step::More
}

// Reads what the text says from `at` on; `whole` says that it reaches to the book's end.
#[tactic(auto, using(crate::proofs::Returns::at_head, crate::proofs::Returns::at_line, crate::proofs::Returns::at_tail))]
pub fn step_at(text: &[u8], at: usize, stage: u8, last: u32, whole: bool) -> Step
    ensures { result ≡ spec.step_at text.now at stage last whole }
{
    let from = at.min(text.len());
    let t = &text[from..];
    if stage == BEFORE_FIRST_LINE {
        return head_step(t, whole);
    }
    if stage == AT_LINES {
        return line_step(t, last, whole);
    }
    tail_step(t.len(), whole)
}

// Gives the value of the line read at `at`, whose entry `said` is, as the part of the text that it
// is; empty where no line was read.
#[tactic(auto, using(text::proofs::Parts::part_within), unfolding(crate::specs::Step::value_from, crate::specs::Step::value_to))]
pub fn value_at(text: &[u8], at: usize, said: Step) -> &[u8]
    ensures { IsPart text.entry (at + spec.value_from said) (at + spec.value_to said) result }
{
    let from = at.min(text.len());
    let rest = &text[from..];
    let Step::Entry { ends, .. } = said else {
        return part(rest, 0, 0);
    };
    field(rest, ends, VALUE)
}

// Gives the place `octets` octets further on, at most the text's end.
pub fn moved_on(at: usize, octets: usize, length: usize) -> usize
    ensures { result ≡ spec.moved_on at octets length }
{
    let from = at.min(length);
    if octets <= length - from {
        return from + octets;
    }
    length
}
