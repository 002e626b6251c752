// All terminals hear a period's line, and the notes of each go to its place.
ghost use Rattle.std.specs.Prelude.{◌≡◌};
ghost use Rattle.period_hearing.specs.Hears.{listen_reply, listen_terminals, listen_notes};

use super::hears::{UnitNotes, hear_one};
use heard_line::heard::Downward;
use terminal::Terminal;
use timing::counts::Periods;

// Lets all terminals hear the line of a period, and then takes their timers at the next one's
// start. Gives whether there is a note. Does nothing where the places for notes are not as many as
// the terminals.
#[tactic(auto, using(std::proofs::lemmas::Bool::Decides::nat_tests), unfolding(crate::specs::Hears::listen_reply, crate::specs::Hears::listen_terminals, crate::specs::Hears::listen_notes))]
pub fn listen(
    terminals: &mut [Terminal],
    notes: &mut [UnitNotes],
    line: Downward,
    period: Periods,
) -> bool
    ensures value { result ≡ listen_reply line period notes.old terminals.old }
    ensures terminals_after { terminals.new ≡ listen_terminals line period notes.old terminals.old }
    ensures notes_after { notes.new ≡ listen_notes line period notes.old terminals.old }
{
    if notes.len() != terminals.len() {
        return false;
    }
    let mut told = false;
    for (i, terminal) in terminals.iter_mut().enumerate() {
        let heard = hear_one(*terminal, line, period);
        *terminal = heard.terminal;
        notes[i] = heard.notes;
        told |= heard.told;
    }
    told
}
