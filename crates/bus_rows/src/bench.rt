// A bus with its terminals, as a book is run on it.
use super::row::{event, exchange, said};
use bus_event::event::IMAGES_ROOM;
use bus_record::record::BusRecord;
use hdlc::LONGEST_BODY;
use std::io;
use symbols::LINE_LENGTH;
use terminal::Terminal;

// No hit is given here, so that the letters of one need not be kept.
pub(crate) const NO_LETTERS: [u8; LINE_LENGTH] = [0; LINE_LENGTH];

#[derive(Drop)]
pub(crate) struct Bench {
    pub(crate) bus: BusRecord,
    pub(crate) terminals: [Terminal; 8],
    // The images of the held frames.
    pub(crate) images: [u8; IMAGES_ROOM],
    // What is read of a body, from one period to the next.
    body: [u8; LONGEST_BODY],
    // How often each E followed each D in G3.
    pub(crate) echoes: [u32; 4],
    // How many terminals are in use.
    pub(crate) used: usize,
}

impl Bench {
    // Gives a fresh bus with so many terminals in use.
    pub(crate) fn fresh(used: usize) -> Self {
        Bench {
            bus: BusRecord::fresh(),
            terminals: [Terminal::fresh(); 8],
            images: [0; IMAGES_ROOM],
            body: [0; LONGEST_BODY],
            echoes: [0; 4],
            used,
        }
    }

    // Gives an event and prints its row.
    pub(crate) fn give(
        &mut self,
        rt: &impl Print,
        unit: u32,
        code: u8,
        octet: u8,
    ) -> io::Result<()> {
        let mut letters = NO_LETTERS;
        let period = self.bus.periods.0;
        let g = bus_by_value::event(
            self.bus,
            self.terminals,
            &mut self.images,
            &mut letters,
            unit,
            code,
            &[octet],
        );
        let terminals = g.terminals;
        self.bus = g.told.bus;
        self.terminals = terminals;
        event(rt, period, unit, code, octet, g)
    }

    // Runs the periods before period `end` and prints their rows.
    pub(crate) fn run_until(&mut self, rt: &impl Print, end: u32) -> io::Result<()> {
        for _ in self.bus.periods.0..end {
            exchange(rt, self)?;
            let p = bus_by_value::run(
                self.bus,
                self.terminals,
                &self.images,
                &mut self.body,
                &NO_LETTERS,
                1,
            );
            let terminals = p.terminals;
            self.bus = p.answer.bus;
            self.terminals = terminals;
            said(rt, p, &self.body)?;
        }
        Ok(())
    }
}
