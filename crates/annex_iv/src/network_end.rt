// Table IV-2: the network end.
use super::print::{outcome, shown, timer};
use super::table::{Rows, Table, run};
use super::{NOW, ONES, due};
use alignment::Alignment;
use heard_line::heard::Upward;
use heard_line::sensing::sense_up;
use info::info::{info1, info3};
use network::{Network, NetworkStep};
use notes_and_cells::cell::NO_NOTES;
use refusals::Refusal;
use std::io;
use symbols::LINE_LENGTH;
use table_6_3::{
    AR_ROW, DR_ROW, G1, G2, G3, G4, INFO_0_ROW, INFO_1_ROW, INFO_3_ROW, LOSS_ROW, T1_ROW, T2_ROW,
    info_sent,
};
use timing::counts::Periods;

// What a line shows that is none.
const NOTHING: Upward = Upward {
    pulse: false,
    framed: false,
    info1: false,
};

struct NetworkEnd;

const ROWS: [Rows; 4] = [
    Rows {
        state: G1,
        first: 1,
        stimuli: &[AR_ROW, T1_ROW, T2_ROW, INFO_0_ROW, INFO_1_ROW],
    },
    Rows {
        state: G2,
        first: 6,
        stimuli: &[DR_ROW, T1_ROW, T2_ROW, INFO_0_ROW, INFO_1_ROW, INFO_3_ROW],
    },
    Rows {
        state: G3,
        first: 12,
        stimuli: &[DR_ROW, T2_ROW, INFO_0_ROW, INFO_3_ROW, LOSS_ROW],
    },
    Rows {
        state: G4,
        first: 17,
        stimuli: &[
            AR_ROW, T1_ROW, T2_ROW, INFO_0_ROW, INFO_1_ROW, INFO_3_ROW, LOSS_ROW,
        ],
    },
];

// Runs the rows of the table.
pub(crate) fn rows(rt: &impl Print) -> io::Result<()> {
    run::<NetworkEnd>(rt, &ROWS)
}

impl Table for NetworkEnd {
    const NAME: &'static str = "IV-2";

    const LETTER: &'static str = "G";

    const STIMULI: [&'static str; 9] = [
        "PH-AR", "MPH-DR", "T1", "T2", "INFO 0", "INFO 1", "INFO 3", "loss", "",
    ];

    fn test(rt: &impl Print, state: u8, stimulus: u8) -> io::Result<()> {
        let before = unit(state, stimulus);
        let answer = meets(rt, before, stimulus)?;
        let reply = answer.map_or_else(|refusal| refusal.number(), |_| 0);
        let step = answer.unwrap_or(NetworkStep {
            network: before,
            notes: NO_NOTES,
        });
        let next = step.network.state;
        outcome(rt, Self::LETTER, next, info_sent(next), reply, step.notes)?;
        timer(rt, "T1 ", step.network.t1)?;
        timer(rt, " T2 ", step.network.t2)
    }
}

// Gives the stimulus to a unit.
fn meets(rt: &impl Print, unit: Network, event: u8) -> io::Result<Result<NetworkStep, Refusal>> {
    let step = match event {
        AR_ROW | DR_ROW => unit.request(event, Periods(NOW)),
        T1_ROW | T2_ROW => unit.timer_due(Periods(NOW)),
        _ => unit.hear(upward(rt, event)?, Periods(NOW)),
    };
    Ok(step)
}

// Gives the unit as it is before the stimulus: both timers run; to hear INFO 0, INFO 3 or a loss,
// the unit is in alignment and one unframed period short of losing it.
fn unit(state: u8, event: u8) -> Network {
    let aligned = (event == INFO_0_ROW) | (event == INFO_3_ROW) | (event == LOSS_ROW);
    Network {
        t1: due(event == T1_ROW, true, 50_000),
        t2: due(event == T2_ROW, true, 60_000),
        state,
        alignment: Alignment {
            aligned,
            run: aligned as u8,
        },
    }
}

// Gives what the stimulus's line shows: for a loss, a single pulse.
fn upward(rt: &impl Print, event: u8) -> io::Result<Upward> {
    let mut line = [0u8; LINE_LENGTH];
    match event {
        INFO_1_ROW => {
            let _ = info1(&mut line);
        }
        INFO_3_ROW => {
            let _ = info3(ONES, &mut line);
        }
        LOSS_ROW => {
            line[4] = 1;
        }
        _ => {}
    }
    shown(rt, sense_up(&line), NOTHING)
}
