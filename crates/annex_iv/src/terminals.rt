// Table IV-3: a terminal. Row 40 is empty.
use super::print::{outcome, shown, timer};
use super::table::{Rows, Table, run};
use super::{NOW, ONES, due};
use alignment::Alignment;
use dchannel::access::Access;
use heard_line::heard::Downward;
use heard_line::sensing::sense_down;
use info::info::{info2, info4};
use notes_and_cells::cell::NO_NOTES;
use refusals::Refusal;
use std::io;
use symbols::LINE_LENGTH;
use table_6_2::{
    AR_ROW, F1, F2, F3, F4, F5, F6, F7, F8, INFO_0_ROW, INFO_2_ROW, INFO_4_ROW, LOSS_ROW, OFF_ROW,
    ON_ROW, SIGNAL_ROW, T3_ROW, info_sent,
};
use terminal::{Terminal, TerminalStep};
use timing::counts::Periods;

// What a line shows that is none.
const NOTHING: Downward = Downward {
    pulse: false,
    framed: false,
    a: false,
};

struct AnyTerminal;

const ROWS: [Rows; 8] = [
    Rows {
        state: F1,
        first: 1,
        stimuli: &[ON_ROW, T3_ROW],
    },
    Rows {
        state: F2,
        first: 3,
        stimuli: &[
            OFF_ROW, INFO_0_ROW, INFO_2_ROW, INFO_4_ROW, SIGNAL_ROW, T3_ROW,
        ],
    },
    Rows {
        state: F3,
        first: 9,
        stimuli: &[
            OFF_ROW, AR_ROW, INFO_0_ROW, INFO_2_ROW, INFO_4_ROW, SIGNAL_ROW, T3_ROW,
        ],
    },
    Rows {
        state: F4,
        first: 16,
        stimuli: &[
            OFF_ROW, INFO_0_ROW, INFO_2_ROW, INFO_4_ROW, SIGNAL_ROW, T3_ROW,
        ],
    },
    Rows {
        state: F5,
        first: 22,
        stimuli: &[
            OFF_ROW, INFO_0_ROW, INFO_2_ROW, INFO_4_ROW, SIGNAL_ROW, T3_ROW,
        ],
    },
    Rows {
        state: F6,
        first: 28,
        stimuli: &[
            OFF_ROW, LOSS_ROW, AR_ROW, INFO_0_ROW, INFO_2_ROW, INFO_4_ROW, T3_ROW,
        ],
    },
    Rows {
        state: F7,
        first: 35,
        stimuli: &[OFF_ROW, LOSS_ROW, INFO_0_ROW, INFO_2_ROW, INFO_4_ROW],
    },
    Rows {
        state: F8,
        first: 41,
        stimuli: &[
            OFF_ROW, AR_ROW, INFO_0_ROW, INFO_2_ROW, INFO_4_ROW, SIGNAL_ROW, T3_ROW,
        ],
    },
];

// Runs the rows of the table.
pub(crate) fn rows(rt: &impl Print) -> io::Result<()> {
    run::<AnyTerminal>(rt, &ROWS)
}

impl Table for AnyTerminal {
    const NAME: &'static str = "IV-3";

    const LETTER: &'static str = "F";

    const STIMULI: [&'static str; 9] = [
        "on", "off", "PH-AR", "T3", "INFO 0", "signal", "INFO 2", "INFO 4", "loss",
    ];

    fn test(rt: &impl Print, state: u8, stimulus: u8) -> io::Result<()> {
        let before = unit(state, stimulus);
        let answer = meets(rt, before, stimulus)?;
        let reply = answer.map_or_else(|refusal| refusal.number(), |_| 0);
        let step = answer.unwrap_or(TerminalStep {
            terminal: before,
            notes: NO_NOTES,
        });
        let next = step.terminal.state;
        outcome(rt, Self::LETTER, next, info_sent(next), reply, step.notes)?;
        timer(rt, "T3 ", step.terminal.t3)
    }
}

// Gives the stimulus to a unit.
fn meets(rt: &impl Print, unit: Terminal, event: u8) -> io::Result<Result<TerminalStep, Refusal>> {
    let step = match event {
        ON_ROW => unit.switch_on(Periods(NOW)),
        OFF_ROW => unit.switch_off(Periods(NOW)),
        AR_ROW => unit.request(Periods(NOW)),
        T3_ROW => unit.timer_due(Periods(NOW)),
        _ => unit.hear(downward(rt, event)?, Periods(NOW)),
    };
    Ok(step)
}

// Gives the unit as it is before the stimulus: T3 runs in every state in which it may run; to hear
// an INFO or a loss, the unit is in alignment and one unframed period short of losing it.
fn unit(state: u8, event: u8) -> Terminal {
    let aligned = (event == INFO_0_ROW) | (INFO_2_ROW <= event);
    let runs = (2 < state) & (state != 7);
    Terminal::fresh().with_fields(
        due(event == T3_ROW, runs, 50_000),
        Access::fresh(),
        state,
        Alignment {
            aligned,
            run: aligned as u8,
        },
    )
}

// Gives what the stimulus's line shows: for a signal or a loss, a single pulse.
fn downward(rt: &impl Print, event: u8) -> io::Result<Downward> {
    let mut line = [0u8; LINE_LENGTH];
    match event {
        INFO_0_ROW => {}
        INFO_2_ROW => {
            let _ = info2(&mut line);
        }
        INFO_4_ROW => {
            let _ = info4(ONES, &mut line);
        }
        _ => {
            line[4] = 1;
        }
    }
    shown(rt, sense_down(&line), NOTHING)
}
