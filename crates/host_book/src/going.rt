// Going on with a book that is lent as octets.
ghost use Rattle.std.specs.Prelude.{true, not, ◌≡◌, eqb};
ghost use Rattle.refusals.specs.Numbers.{reply_of};
ghost use Rattle.note_text.specs.Room.{laid};
ghost use Rattle.host_book.specs.Octets.{is_book, progress_in, progress_laid};
ghost use Rattle.host_book.specs.Going.{going_reason, gone_on_octets, Goes, HostGoesOn};

use super::octets::{BEGUN_AT, OVER_AT, STAGE_AT, is_book};
use book_go_on::go_on::go_on;
use book_go_on::progress::{GoneOn, Progress};
use bus_octets::laid::lay;
use bus_octets::layout::{BUS_LENGTH, IMAGES_AT};
use bus_octets::numbers::{flag_at, octet_at};
use bus_octets::shown::{letters_in, octets_in, record_in, terminals_in};
use note_text::low::put_double;
use note_text::room::put;
use refusals::{Refusal, reply};

// The octets that say how far a call went.
const WENT: usize = 17;

// Reads how far a book has come.
#[tactic(auto, unfolding(crate::specs::Octets::progress_in))]
fn progress_in(book: &[u8]) -> Progress
    ensures { result ≡ progress_in book.now }
{
    let record = record_in(book);
    let terminals = terminals_in(book);
    Progress {
        bus: record,
        terminals,
        stage: octet_at(book, STAGE_AT),
        begun: flag_at(book, BEGUN_AT),
        over: flag_at(book, OVER_AT),
    }
}

// Writes how far a book has come over its octets, but for the images.
#[tactic(auto, unfolding(crate::specs::Octets::progress_laid))]
fn lay_progress(book: &mut [u8], p: Progress, letters: &[u8], octets: &[u8])
    ensures { book.new ≡ progress_laid p letters.now octets.now book.old }
{
    let bus = p.bus;
    let terminals = p.terminals;
    lay(book, bus, terminals, letters, octets);
    put(book, STAGE_AT, &[p.stage, p.begun as u8, p.over as u8]);
}

// Goes on with a book: what is a book is not refused.
fn go(book: &mut [u8], text: &[u8], report: &mut [u8], whole: bool) -> GoneOn
    requires { is_book book.old ≡ true }
    ensures { Goes book.old text.now report.old whole result book.new report.new }
{
    let progress = progress_in(book);
    let mut letters = letters_in(&book[..BUS_LENGTH]);
    let mut octets = octets_in(&book[..BUS_LENGTH]);
    let images = &mut book[IMAGES_AT..BUS_LENGTH];
    let w = go_on(
        progress,
        images,
        &mut octets,
        &mut letters,
        text,
        report,
        whole,
    )
    .unwrap();
    let after = w.progress;
    lay_progress(book, after, &letters, &octets);
    w
}

fn put_gone_on(went: &mut [u8], taken: usize, wrote: usize, why: u8)
    ensures { went.new ≡ laid went.old 0 (gone_on_octets taken wrote why) }
{
    let taken_put = put_double(went, 0, taken as u64);
    let both_put = put_double(went, taken_put, wrote as u64);
    put(went, both_put, &[why]);
}

// Tests whether the octets lent are a book, and there is room to say how far the call went.
#[tactic(auto, unfolding(crate::specs::Going::going_reason))]
fn going_reason(book: &[u8], went: usize) -> Result<(), Refusal>
    ensures { reply_of result ≡ going_reason book.now went }
{
    if !is_book(book) {
        return Err(Refusal::OutOfRange);
    }
    if went < WENT {
        return Err(Refusal::WrongSlice);
    }
    Ok(())
}

// Goes on with a book, and puts how far the call went.
fn go_on_lent(
    book: &mut [u8],
    text: &[u8],
    whole: bool,
    report: &mut [u8],
    went: &mut [u8],
) -> Result<(), Refusal>
    ensures { HostGoesOn book.old text.now report.old went.old whole
        (reply_of result) book.new report.new went.new }
{
    going_reason(book, went.len())?;
    let w = go(book, text, report, whole);
    put_gone_on(went, w.taken, w.wrote, w.why);
    Ok(())
}

// Goes on with a book in lent text, its report in lent room, until it needs more text or room, or
// is finished; `whole` other than 0 says that the text reaches to the book's end.
pub fn sbus_book_go_on(
    book: &mut [u8],
    text: &[u8],
    whole: u32,
    report: &mut [u8],
    went: &mut [u8],
) -> u32
    ensures { HostGoesOn book.old text.now report.old went.old (not (eqb whole 0))
        result book.new report.new went.new }
{
    reply(go_on_lent(book, text, whole != 0, report, went))
}
