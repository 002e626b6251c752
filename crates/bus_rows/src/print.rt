// Printing.
use notes_and_cells::notes::Notes;
use std::io;

// The notes by their codes, from 1 on. Behind `heard` the octets of the body are printed.
const NOTES: [&str; 16] = [
    "PH-ACT",
    "PH-DEACT",
    "MPH-ACT",
    "MPH-DEACT",
    "MPH-EI",
    "MPH-EI1",
    "MPH-EI2",
    "MPH-II connected",
    "MPH-II disconnected",
    "heard ",
    "torn",
    "done1",
    "done2",
    "dropped1",
    "dropped2",
    "refused",
];

// Prints octets in hexadecimal.
pub(crate) fn octets(rt: &impl Print, o: &[u8]) -> io::Result<()> {
    for octet in o {
        print!(rt; "{octet:02x}")?;
    }
    Ok(())
}

// Gives the word of a code, counted from 1; nothing for a code that has none.
pub(crate) fn word<'a>(words: &[&'a str], code: u8) -> &'a str {
    words
        .get((code as usize).wrapping_sub(1))
        .copied()
        .unwrap_or("")
}

// Prints a note of a unit by its code, 0 for none.
pub(crate) fn note(rt: &impl Print, unit: u32, code: u8) -> io::Result<()> {
    if code == 0 {
        return Ok(());
    }
    let name = word(&NOTES, code);
    print!(rt; "  {unit} {name}")
}

// Prints the notes of a unit.
pub(crate) fn notes(rt: &impl Print, unit: u32, n: Notes) -> io::Result<()> {
    for code in [n.1, n.2, n.3, n.4] {
        note(rt, unit, code)?;
    }
    Ok(())
}
