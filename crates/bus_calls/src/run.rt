// Running periods.
ghost use Rattle.std.specs.Prelude.{◌≡◌};
ghost use Rattle.bus_call_specs.specs.Kept.{kept};
ghost use Rattle.bus_call_specs.specs.Run.{run_answer, kept_after};
ghost use Rattle.bus_calls.specs.Replies.{reply_number};

use super::ready::{goes_on, in_range, run_reason};
use super::turn::advance;
use bus_record::record::BusRecord;
use bus_record::side::{RunAnswer, refused_run};
use period_hearing::hears::UnitNotes;
use refusals::Refusal;
use terminal::Terminal;

// Gives the number of the reason for which a run is turned down, 0 where it is not.
fn reply_to(checked: Result<(), Refusal>) -> u8
    ensures { result ≡ reply_number checked }
{
    match checked {
        Ok(()) => 0,
        Err(refusal) => refusal.number(),
    }
}

// Runs periods until `most` of them are run or one hands back notes: as many single calls of
// `period`. The images are of the frames that are held, and the octets keep what is read of a body:
// a caller lends the same ones to every call.
pub fn run(
    bus: BusRecord,
    terminals: &mut [Terminal],
    images: &[u8],
    octets: &mut [u8],
    letters: &[u8],
    notes: &mut [UnitNotes],
    most: u32,
) -> RunAnswer
    ensures value { result ≡ run_answer most
        (kept bus terminals.old images.now octets.old letters.now notes.old) }
    ensures terminals_after { terminals.new ≡ (kept_after most
        (kept bus terminals.old images.now octets.old letters.now notes.old)
        ).terminals }
    ensures octets_after { octets.new ≡ (kept_after most
        (kept bus terminals.old images.now octets.old letters.now notes.old)
        ).octets }
    ensures notes_after { notes.new ≡ (kept_after most
        (kept bus terminals.old images.now octets.old letters.now notes.old)
        ).notes }
{
    let ready = in_range(terminals);
    let checked = run_reason(
        ready,
        bus,
        images.len(),
        octets.len(),
        letters,
        notes.len(),
        most,
    );
    let mut last = refused_run(bus, reply_to(checked));
    let mut left = most;
    while goes_on(last, left) {
        let turn = advance(last.bus, terminals, images, octets, letters, notes, left);
        last = turn.answer;
        left -= 1 + turn.over;
    }
    last
}

// Runs one period.
pub fn period(
    bus: BusRecord,
    terminals: &mut [Terminal],
    images: &[u8],
    octets: &mut [u8],
    letters: &[u8],
    notes: &mut [UnitNotes],
) -> RunAnswer
    ensures value { result ≡ run_answer 1
        (kept bus terminals.old images.now octets.old letters.now notes.old) }
    ensures terminals_after { terminals.new ≡ (kept_after 1
        (kept bus terminals.old images.now octets.old letters.now notes.old)
        ).terminals }
    ensures octets_after { octets.new ≡ (kept_after 1
        (kept bus terminals.old images.now octets.old letters.now notes.old)
        ).octets }
    ensures notes_after { notes.new ≡ (kept_after 1
        (kept bus terminals.old images.now octets.old letters.now notes.old)
        ).notes }
{
    run(bus, terminals, images, octets, letters, notes, 1)
}
