// One of the annex's two tables: its name, the letter of its states, the names of its stimuli and
// its rows, and how a row is run.
use super::print::named;
use std::io;

// The rows of a state: the state, the number of the first of them, and their stimuli by number.
#[derive(Clone, Copy)]
pub(crate) struct Rows {
    pub(crate) state: u8,
    pub(crate) first: u8,
    pub(crate) stimuli: &'static [u8],
}

pub(crate) trait Table {
    const NAME: &'static str;

    const LETTER: &'static str;
    // By their numbers in table 6-3 or 6-2, from 1 on.
    const STIMULI: [&'static str; 9];

    // Runs one row: prints what comes of the stimulus.
    fn test(rt: &impl Print, state: u8, stimulus: u8) -> io::Result<()>;
}

// Runs the rows of a table, state by state.
pub(crate) fn run<T: Table>(rt: &impl Print, rows: &[Rows]) -> io::Result<()> {
    for r in rows {
        for (number, stimulus) in (r.first..=99).zip(r.stimuli) {
            let table = T::NAME;
            let letter = T::LETTER;
            let state = r.state;
            let name = named(&T::STIMULI, *stimulus, "another");
            print!(rt; "\n{table} {number} {letter}{state} {name:9}")?;
            T::test(rt, state, *stimulus)?;
        }
    }
    Ok(())
}
