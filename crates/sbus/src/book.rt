// Making a book, and going on with it.
ghost use Rattle.std.specs.Prelude.{cond, not, ◌≡◌, eqb, length};
ghost use Rattle.host_book.specs.Octets.{book_length};
ghost use Rattle.host_book.specs.Going.{fresh_book, HostGoesOn};

// Gives the number of octets of a book.
#[unsafe(no_mangle)]
pub extern "C" fn sbus_book_length() -> usize
    ensures { result ≡ book_length }
{
    host_book::fresh::sbus_book_length()
}

// Makes a book of which nothing has been read, on a fresh bus. Gives 0, or 1 where what is lent has
// not the length of a book.
#[unsafe(no_mangle)]
pub extern "C" fn sbus_book_fresh(book: &mut [u8]) -> u32
    ensures value { result ≡ cond (eqb (length book.old) book_length) 0 1 }
    ensures book_after { book.new ≡ cond (eqb (length book.old) book_length) fresh_book book.old }
{
    host_book::fresh::sbus_book_fresh(book)
}

// Goes on with a book in lent text, its report in lent room, until it needs more text or room, or
// is finished; `whole` other than 0 says that the text reaches to the book's end.
#[unsafe(no_mangle)]
pub extern "C" fn sbus_book_go_on(
    book: &mut [u8],
    text: &[u8],
    whole: u32,
    report: &mut [u8],
    went: &mut [u8],
) -> u32
    ensures { HostGoesOn book.old text.now report.old went.old (not (eqb whole 0))
        result book.new report.new went.new }
{
    host_book::going::sbus_book_go_on(book, text, whole, report, went)
}
