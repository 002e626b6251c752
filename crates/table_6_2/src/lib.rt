// Table 6-2 of JT-I430: what a terminal in a state, F1 to F8, does at an event. The cells stand row
// by row in specs/Table62.antt.
#![tactic(auto)]

ghost use Rattle.std.specs.Prelude.{◌≡◌};
ghost use Rattle.notes_and_cells.specs.Cells.{cell_in, cell_of, info_in};
ghost use Rattle.table_6_2.specs.Table62 as table;

use notes_and_cells::cell::{Cell, KEEP, NO_NOTES, START, STAY, STOP};
use notes_and_cells::notes::{
    MPH_ACT, MPH_DEACT, MPH_EI1, MPH_EI2, MPH_II_CONNECTED, MPH_II_DISCONNECTED, Notes, PH_ACT,
    PH_DEACT,
};

// The numbers of the states.
// Kept: what may not change: `cell` takes any number as a state, and a record may hold any.
pub const F1: u8 = 1;

pub const F2: u8 = 2;

pub const F3: u8 = 3;

pub const F4: u8 = 4;

pub const F5: u8 = 5;

pub const F6: u8 = 6;

pub const F7: u8 = 7;

pub const F8: u8 = 8;

// The numbers of the events, in the order of the table's rows.
// Kept: what may not change: `cell` takes any number as an event and gives it an impossible cell.
pub const ON_ROW: u8 = 1;

pub const OFF_ROW: u8 = 2;

pub const AR_ROW: u8 = 3;

pub const T3_ROW: u8 = 4;

pub const INFO_0_ROW: u8 = 5;

pub const SIGNAL_ROW: u8 = 6;

pub const INFO_2_ROW: u8 = 7;

pub const INFO_4_ROW: u8 = 8;

pub const LOSS_ROW: u8 = 9;

// Gives the cell at an event and a state, for every number: what is no event or no state has an
// impossible cell.
pub fn cell(event: u8, state: u8) -> Cell
    ensures { result ≡ cell_of table.table62 event state }
{
    match event {
        ON_ROW => power_on(state),
        OFF_ROW => power_off(state),
        AR_ROW => activation_request(state),
        T3_ROW => t3_expiry(state),
        INFO_0_ROW => info_0_received(state),
        SIGNAL_ROW => signal_received(state),
        INFO_2_ROW => info_2_received(state),
        INFO_4_ROW => info_4_received(state),
        LOSS_ROW => alignment_lost(state),
        _ => Cell::Impossible,
    }
}

// Gives the cell where power comes on and a source is detected.
fn power_on(state: u8) -> Cell
    ensures { result ≡ cell_in table.power_on state }
{
    match state {
        F1 => Cell::To(F2, KEEP, NO_NOTES),
        F2..=F8 => STAY,
        _ => Cell::Impossible,
    }
}

// Gives the cell where the source goes off.
fn power_off(state: u8) -> Cell
    ensures { result ≡ cell_in table.power_off state }
{
    match state {
        F1 => STAY,
        F2 => Cell::To(F1, KEEP, NO_NOTES),
        F3 => Cell::To(F1, KEEP, Notes(1, MPH_II_DISCONNECTED, 0, 0, 0)),
        F4..=F8 => Cell::To(
            F1,
            KEEP,
            Notes(3, MPH_II_DISCONNECTED, MPH_DEACT, PH_DEACT, 0),
        ),
        _ => Cell::Impossible,
    }
}

// Gives the cell at PH-AR, the request for activation.
fn activation_request(state: u8) -> Cell
    ensures { result ≡ cell_in table.activation_request state }
{
    match state {
        F2 => Cell::Absent,
        F3 => Cell::To(F4, START, NO_NOTES),
        F4..=F5 => Cell::Absent,
        F6 => STAY,
        F7 => Cell::Absent,
        F8 => STAY,
        _ => Cell::Impossible,
    }
}

// Gives the cell where T3 expires.
fn t3_expiry(state: u8) -> Cell
    ensures { result ≡ cell_in table.t3_expiry state }
{
    match state {
        F3 => STAY,
        F4..=F5 => Cell::To(F3, KEEP, Notes(2, MPH_DEACT, PH_DEACT, 0, 0)),
        F6 => Cell::Stay(Notes(2, MPH_DEACT, PH_DEACT, 0, 0)),
        F8 => Cell::To(F3, KEEP, Notes(2, MPH_DEACT, PH_DEACT, 0, 0)),
        _ => Cell::Impossible,
    }
}

// Gives the cell where INFO 0 is received.
fn info_0_received(state: u8) -> Cell
    ensures { result ≡ cell_in table.info0_received state }
{
    match state {
        F2 => Cell::To(F3, KEEP, Notes(1, MPH_II_CONNECTED, 0, 0, 0)),
        F3..=F5 => STAY,
        F6..=F7 => Cell::To(F3, KEEP, Notes(2, MPH_DEACT, PH_DEACT, 0, 0)),
        F8 => Cell::To(F3, KEEP, Notes(3, MPH_DEACT, PH_DEACT, MPH_EI2, 0)),
        _ => Cell::Impossible,
    }
}

// Gives the cell where any signal is received.
fn signal_received(state: u8) -> Cell
    ensures { result ≡ cell_in table.signal_received state }
{
    match state {
        F2..=F3 => STAY,
        F4 => Cell::To(F5, KEEP, NO_NOTES),
        F5 => STAY,
        F8 => STAY,
        _ => Cell::Impossible,
    }
}

// Gives the cell where INFO 2 is received.
fn info_2_received(state: u8) -> Cell
    ensures { result ≡ cell_in table.info2_received state }
{
    match state {
        F2 => Cell::To(F6, KEEP, Notes(1, MPH_II_CONNECTED, 0, 0, 0)),
        F3..=F5 => Cell::To(F6, KEEP, NO_NOTES),
        F6 => STAY,
        F7 => Cell::To(F6, KEEP, Notes(1, MPH_EI1, 0, 0, 0)),
        F8 => Cell::To(F6, KEEP, Notes(1, MPH_EI2, 0, 0, 0)),
        _ => Cell::Impossible,
    }
}

// Gives the cell where INFO 4 is received.
fn info_4_received(state: u8) -> Cell
    ensures { result ≡ cell_in table.info4_received state }
{
    match state {
        F2 => Cell::To(F7, KEEP, Notes(3, MPH_II_CONNECTED, PH_ACT, MPH_ACT, 0)),
        F3..=F5 => Cell::To(F7, STOP, Notes(2, PH_ACT, MPH_ACT, 0, 0)),
        F6 => Cell::To(F7, STOP, Notes(3, PH_ACT, MPH_ACT, MPH_EI2, 0)),
        F7 => STAY,
        F8 => Cell::To(F7, STOP, Notes(3, PH_ACT, MPH_ACT, MPH_EI2, 0)),
        _ => Cell::Impossible,
    }
}

// Gives the cell where frame alignment is lost.
fn alignment_lost(state: u8) -> Cell
    ensures { result ≡ cell_in table.alignment_lost state }
{
    match state {
        F6..=F7 => Cell::To(F8, KEEP, Notes(1, MPH_EI1, 0, 0, 0)),
        F8 => STAY,
        _ => Cell::Impossible,
    }
}

// Gives the number of the INFO that is sent in a state, 0 for a number that is no state.
// Kept: the new form is no plainer: INFO 0 is a number of its own, and is what no state sends too.
pub fn info_sent(state: u8) -> u8
    ensures { result ≡ info_in table.info_sent state }
{
    match state {
        F4 => 1,
        F6..=F7 => 3,
        _ => 0,
    }
}
