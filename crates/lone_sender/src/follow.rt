// The terminals after a run alone.
ghost use Rattle.std.specs.Prelude.{◌≡◌};
ghost use Rattle.slice_lemmas.specs.Over.{map_from};
ghost use Rattle.lone_sender.specs.Lone.{followed};

use super::lone::LoneSender;
use table_6_2::F7;
use terminal::Terminal;

// Brings terminal i to the run's end: in F7 it has counted the same E as all, and the sender's bits
// have left.
#[tactic(auto, unfolding(crate::specs::Lone::followed, crate::specs::Lone::followed_access))]
fn follow_one(lone: LoneSender, i: usize, t: Terminal) -> Terminal
    ensures { result ≡ followed lone i t }
{
    if t.state != F7 {
        return t;
    }
    let mut access = t.access;
    access.count = lone.count;
    if i == lone.at {
        access.sent = lone.sent;
        access.last = lone.last;
    }
    t.with_access(access)
}

// Brings all terminals from the run's start to its end.
pub fn follow(terminals: &mut [Terminal], lone: LoneSender)
    ensures { terminals.new ≡ map_from (followed lone) 0 terminals.old }
{
    for (i, terminal) in terminals.iter_mut().enumerate() {
        *terminal = follow_one(lone, i, *terminal);
    }
}
