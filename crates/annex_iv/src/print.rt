// Printing.
use notes_and_cells::notes::Notes;
use refusals::Refusal;
use std::io;

// The notes by their codes, from 1 on. The standard's MPH-II(c) is for connected and MPH-II(d) for
// disconnected.
const NOTES: [&str; 9] = [
    "PH-ACT",
    "PH-DEACT",
    "MPH-ACT",
    "MPH-DEACT",
    "MPH-EI",
    "MPH-EI1",
    "MPH-EI2",
    "MPH-II(c)",
    "MPH-II(d)",
];

// Prints a text, and the period at whose start a timer is due, `-` for none.
pub(crate) fn timer(rt: &impl Print, text: &str, due: u64) -> io::Result<()> {
    if due == 0 {
        print!(rt; "{text}-")
    } else {
        print!(rt; "{text}{due}")
    }
}

// Prints the next state, the INFO that is sent there, the reply and the notes.
pub(crate) fn outcome(
    rt: &impl Print,
    letter: &str,
    state: u8,
    info: u8,
    reply: u8,
    n: Notes,
) -> io::Result<()> {
    print!(rt; "{letter}{state} I{info} reply {reply} ")?;
    for code in [n.1, n.2, n.3, n.4] {
        if code != 0 {
            let note = named(&NOTES, code, "another");
            print!(rt; "{note:10}")?;
        }
    }
    Ok(())
}

// Gives the name of a number, counted from 1, or `other` for a number that has none.
pub(crate) fn named<'a>(names: &[&'a str], number: u8, other: &'a str) -> &'a str {
    names
        .get((number as usize).wrapping_sub(1))
        .copied()
        .unwrap_or(other)
}

// Gives what a line shows; the refusal of one that is refused is printed, and it shows `nothing`.
pub(crate) fn shown<T: Copy>(
    rt: &impl Print,
    sensed: Result<T, Refusal>,
    nothing: T,
) -> io::Result<T> {
    match sensed {
        Ok(shows) => Ok(shows),
        Err(reason) => {
            print!(rt; "refused {reason}")?;
            Ok(nothing)
        }
    }
}
