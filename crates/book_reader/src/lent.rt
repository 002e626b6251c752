// The book reader: the lent text by reference, and how far it has read. Its calls do no more than
// call functions on the text and on numbers (step).
ghost use Rattle.std.specs.Prelude.{◌≡◌, length, ◌+◌};
ghost use Rattle.text.specs.Part.{IsPart};
ghost use Rattle.book_reader.specs.Step.{step_at, moved_on, value_from, value_to};

use crate::step::{Step, moved_on, step_at, value_at};

// The lent text, and how far it has been read.
#[derive(Clone, Copy)]
pub struct Reader<'a> {
    pub text: &'a [u8],
    pub at: usize,
}

impl<'a> Reader<'a> {
    // Makes a reader of the text that has read nothing.
    pub fn new(text: &'a [u8]) -> Self
        ensures text_value { result.text ≡ text.entry }
        ensures at_value { result.at ≡ 0 }
    {
        Reader { text, at: 0 }
    }

    // Reads what stands where the reader is; `whole` says that its text reaches to the book's end.
    pub fn read(self, stage: u8, last: u32, whole: bool) -> Step
        ensures { result ≡ step_at self.entry.text.now self.entry.at stage last whole }
    {
        step_at(self.text, self.at, stage, last, whole)
    }

    // Gives the value of the line that it has read there, as the part of the lent text that it is;
    // empty where it has read no line.
    pub fn value(self, said: Step) -> &'a [u8]
        ensures { IsPart self.entry.text (self.entry.at + value_from said) (self.entry.at + value_to said) result }
    {
        value_at(self.text, self.at, said)
    }

    // Moves the reader on by `octets` octets, at most to the text's end.
    pub fn next(self, octets: usize) -> Self
        ensures text_value { result.text ≡ self.entry.text }
        ensures at_value { result.at ≡ moved_on self.entry.at octets (length self.entry.text.now) }
    {
        let text = self.text;
        let at = moved_on(self.at, octets, text.len());
        Reader { text, at }
    }

    // Gives how far it has read.
    pub fn at(self) -> usize
        ensures { result ≡ self.entry.at }
    {
        self.at
    }
}
