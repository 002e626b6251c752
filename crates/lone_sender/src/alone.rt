// A run of periods in which one terminal sends alone: the terminals are not looked at on the way.
ghost use Rattle.std.specs.Prelude.{◌≡◌};
ghost use Rattle.lone_sender.specs.Alone.{stays_alone, alone_run, alone_run_octets};

use super::lone::{LoneSender, tally_of};
use bus_record::record::BusRecord;
use bus_record::side::{RunAnswer, network_side, refused_run};
use table_6_3::G3;

// What the last period gave, the sender after it, and how many periods were run.
#[derive(Clone, Copy)]
pub struct Alone {
    pub answer: RunAnswer,
    pub lone: LoneSender,
    pub over: u32,
}

// Tests whether a period more is run: the last one has no note, INFO 4 is sent without a hit, the E
// that comes is the sender's last bit, and the sender goes on alone (`goes`).
#[tactic(auto, using(dchannel::proofs::AccessLaws::same_beq), unfolding(crate::specs::Alone::stays_alone))]
fn stays_alone(answer: RunAnswer, lone: LoneSender, goes: bool) -> bool
    ensures { result ≡ stays_alone answer lone goes }
{
    let bus = answer.bus;
    let still = (answer.reply == 0) & !answer.told & (bus.network.state == G3) & !bus.hit;
    still & (bus.echo == lone.last) & goes & !bus.periods.all_run()
}

// Runs at most `most` periods, as long as one terminal sends alone and there is no note.
pub fn run_alone(
    bus: BusRecord,
    images: &[u8],
    octets: &mut [u8],
    lone: LoneSender,
    most: u32,
) -> Alone
    ensures value { result ≡ alone_run images.now most bus lone octets.old }
    ensures octets_after { octets.new ≡ alone_run_octets images.now most bus lone octets.old }
{
    let mut answer = refused_run(bus, 0);
    let mut sender = lone;
    for over in 0..most {
        let next = sender.after_four(images);
        if !stays_alone(answer, sender, next.goes) {
            return Alone {
                answer,
                lone: sender,
                over,
            };
        }
        let tally = tally_of(answer.bus.network.state, next.ds);
        answer = network_side(answer.bus, tally, octets, false);
        sender = next.lone;
    }
    Alone {
        answer,
        lone: sender,
        over: most,
    }
}
