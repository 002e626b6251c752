// Making a book.
ghost use Rattle.std.specs.Prelude.{cond, ◌≡◌, eqb, length};
ghost use Rattle.refusals.specs.Numbers.{reply_of};
ghost use Rattle.host_book.specs.Octets.{book_length};
ghost use Rattle.host_book.specs.Going.{fresh_book};

use super::octets::{BOOK_LENGTH, STAGE_AT};
use bus_octets::layout::BUS_LENGTH;
use host_bus::fresh::sbus_fresh;
use note_text::room::put;
use refusals::{Refusal, reply};

// Gives the number of octets of a book.
pub fn sbus_book_length() -> usize
    ensures { result ≡ book_length }
{
    BOOK_LENGTH
}

// Makes a book of which nothing has been read, on a fresh bus, where what is lent has the length of
// a book.
fn make_fresh(book: &mut [u8]) -> Result<(), Refusal>
    ensures value { reply_of result ≡ cond (eqb (length book.old) book_length) 0 1 }
    ensures book_after { book.new ≡ cond (eqb (length book.old) book_length) fresh_book book.old }
{
    if book.len() != BOOK_LENGTH {
        return Err(Refusal::OutOfRange);
    }
    sbus_fresh(&mut book[..BUS_LENGTH]);
    put(book, STAGE_AT, &[0, 0, 0]);
    Ok(())
}

// Makes a book of which nothing has been read, on a fresh bus. Gives 0, or 1 where what is lent has
// not the length of a book.
pub fn sbus_book_fresh(book: &mut [u8]) -> u32
    ensures value { result ≡ cond (eqb (length book.old) book_length) 0 1 }
    ensures book_after { book.new ≡ cond (eqb (length book.old) book_length) fresh_book book.old }
{
    reply(make_fresh(book))
}
