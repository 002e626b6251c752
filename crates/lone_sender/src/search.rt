// Whether one terminal sends alone, and which.
ghost use Rattle.std.specs.Prelude.{◌≡◌};
ghost use Rattle.lone_sender.specs.Search.{sender_after, searched_one, no_search, alone_for, in_vain, searched};

use super::lone::LoneSender;
use bus_record::record::BusRecord;
use heard_line::heard::Downward;
use period_hearing::hears::rests;
use table_6_2::F7;
use table_6_3::G3;
use terminal::Terminal;
use timing::counts::Periods;
use timing::timers::clear;

// What is known of the terminals looked at so far.
#[derive(Clone, Copy)]
pub struct Search {
    // The one that sends, with the C of those in F7.
    pub lone: LoneSender,
    // The periods that can be run before T3 is due at one of them.
    pub over: u32,
    // Whether one is in F7, and whether one sends.
    pub counts: bool,
    pub sends: bool,
    // Whether all of them rest, those in F7 have one C, and no second one sends.
    pub fits: bool,
}

// Gives the sender after terminal i: where that one sends, it, with its C; else the one found
// before.
#[tactic(auto, unfolding(crate::specs::Search::sender_after))]
fn sender_after(before: LoneSender, i: usize, t: Terminal) -> LoneSender
    ensures { result ≡ sender_after i before t }
{
    let access = t.access;
    let count = if t.state == F7 {
        access.count
    } else {
        before.count
    };
    if (t.state == F7) & (0 < access.sent) {
        LoneSender {
            at: i,
            length: access.length,
            sent: access.sent,
            count,
            last: access.last,
        }
    } else {
        LoneSender { count, ..before }
    }
}

// Starts a search over at most `most` periods: nothing is known yet.
fn no_search(most: u32) -> Search
    ensures { result ≡ no_search most }
{
    Search {
        lone: LoneSender {
            at: 0,
            length: 0,
            sent: 0,
            count: 0,
            last: true,
        },
        over: most,
        counts: false,
        sends: false,
        fits: true,
    }
}

impl Search {
    // Adds one terminal.
    #[tactic(auto, unfolding(crate::specs::Search::searched_one, crate::specs::Search::fits_in, bus_rules::specs::Quick::shown_by, notes_and_cells::specs::Cells::info_in))]
    fn also(self, i: usize, t: Terminal, period: Periods) -> Self
        ensures { result ≡ searched_one period i self t }
    {
        let line = Downward {
            pulse: true,
            framed: true,
            a: true,
        };
        let before = self.lone;
        let counts = t.state == F7;
        let sends = counts & (0 < t.access.sent);
        let same = !counts | !self.counts | (t.access.count == before.count);
        let fits = rests(t, line) & same & !(self.sends & sends);
        Search {
            lone: sender_after(before, i, t),
            over: clear(period, self.over, t.t3),
            counts: self.counts | counts,
            sends: self.sends | sends,
            fits: self.fits & fits,
        }
    }

    // Gives how many periods can be run alone, as far as is known: 0 where no terminal sends alone.
    #[tactic(auto, unfolding(crate::specs::Search::alone_for))]
    pub fn alone_for(self) -> u32
        ensures { result ≡ alone_for self }
    {
        if self.fits & self.sends { self.over } else { 0 }
    }
}

// Tests whether a search is in vain: the network end is not in G3, a hit is pending, or seven 1s
// have been read.
#[tactic(auto, unfolding(crate::specs::Search::in_vain))]
pub fn in_vain(bus: BusRecord) -> bool
    ensures { result ≡ in_vain bus }
{
    (bus.network.state != G3) | bus.hit | (bus.reader.ones == 7)
}

// Looks at all terminals, for at most `most` periods from `period` on.
#[tactic(auto, using(slice_lemmas::proofs::Over::read_next, slice_lemmas::proofs::Over::gather_all), unfolding(crate::specs::Search::searched))]
pub fn find(terminals: &[Terminal], period: Periods, most: u32) -> Search
    ensures { result ≡ searched period most terminals.now }
{
    let mut search = no_search(most);
    for (i, terminal) in terminals.iter().enumerate() {
        search = search.also(i, *terminal, period);
    }
    search
}
