// Table 6-3 of JT-I430: what the network end in a state, G1 to G4, does at an event. The cells
// stand row by row in specs/Table63.antt.
#![tactic(auto)]

ghost use Rattle.std.specs.Prelude.{◌≡◌};
ghost use Rattle.notes_and_cells.specs.Cells.{cell_in, cell_of, info_in};
ghost use Rattle.table_6_3.specs.Table63 as table;

use notes_and_cells::cell::{Cell, KEEP, NO_NOTES, START, START_T2, STAY, STOP};
use notes_and_cells::notes::{MPH_ACT, MPH_DEACT, MPH_EI, Notes, PH_ACT, PH_DEACT};

// The numbers of the states.
// Kept: what may not change: `cell` takes any number as a state, and a record may hold any.
pub const G1: u8 = 1;

pub const G2: u8 = 2;

pub const G3: u8 = 3;

pub const G4: u8 = 4;

// The numbers of the events, in the order of the table's rows.
// Kept: what may not change: `cell` takes any number as an event and gives it an impossible cell.
pub const AR_ROW: u8 = 1;

pub const DR_ROW: u8 = 2;

pub const T1_ROW: u8 = 3;

pub const T2_ROW: u8 = 4;

pub const INFO_0_ROW: u8 = 5;

pub const INFO_1_ROW: u8 = 6;

pub const INFO_3_ROW: u8 = 7;

pub const LOSS_ROW: u8 = 8;

// Gives the cell at an event and a state, for every number: what is no event or no state has an
// impossible cell.
pub fn cell(event: u8, state: u8) -> Cell
    ensures { result ≡ cell_of table.table63 event state }
{
    match event {
        AR_ROW => activation_request(state),
        DR_ROW => deactivation_request(state),
        T1_ROW => t1_expiry(state),
        T2_ROW => t2_expiry(state),
        INFO_0_ROW => info_0_received(state),
        INFO_1_ROW => info_1_received(state),
        INFO_3_ROW => info_3_received(state),
        LOSS_ROW => alignment_lost(state),
        _ => Cell::Impossible,
    }
}

// Gives the cell at PH-AR, the request for activation.
fn activation_request(state: u8) -> Cell
    ensures { result ≡ cell_in table.activation_request state }
{
    match state {
        G1 => Cell::To(G2, START, NO_NOTES),
        G2..=G3 => Cell::Absent,
        G4 => Cell::To(G2, START, NO_NOTES),
        _ => Cell::Impossible,
    }
}

// Gives the cell at MPH-DR, the request for deactivation.
fn deactivation_request(state: u8) -> Cell
    ensures { result ≡ cell_in table.deactivation_request state }
{
    match state {
        G1 => Cell::Absent,
        G2..=G3 => Cell::To(G4, START_T2, Notes(1, PH_DEACT, 0, 0, 0)),
        G4 => Cell::Absent,
        _ => Cell::Impossible,
    }
}

// Gives the cell where T1 expires.
fn t1_expiry(state: u8) -> Cell
    ensures { result ≡ cell_in table.t1_expiry state }
{
    match state {
        G1 => STAY,
        G2 => Cell::To(G4, START_T2, Notes(1, PH_DEACT, 0, 0, 0)),
        G4 => STAY,
        _ => Cell::Impossible,
    }
}

// Gives the cell where T2 expires.
fn t2_expiry(state: u8) -> Cell
    ensures { result ≡ cell_in table.t2_expiry state }
{
    match state {
        G1..=G3 => STAY,
        G4 => Cell::To(G1, KEEP, NO_NOTES),
        _ => Cell::Impossible,
    }
}

// Gives the cell where INFO 0 is received.
fn info_0_received(state: u8) -> Cell
    ensures { result ≡ cell_in table.info0_received state }
{
    match state {
        G1..=G2 => STAY,
        G3 => Cell::To(G2, KEEP, Notes(2, MPH_DEACT, MPH_EI, 0, 0)),
        G4 => Cell::To(G1, KEEP, NO_NOTES),
        _ => Cell::Impossible,
    }
}

// Gives the cell where INFO 1 is received.
fn info_1_received(state: u8) -> Cell
    ensures { result ≡ cell_in table.info1_received state }
{
    match state {
        G1 => Cell::To(G2, START, NO_NOTES),
        G2 => STAY,
        G4 => STAY,
        _ => Cell::Impossible,
    }
}

// Gives the cell where INFO 3 is received.
fn info_3_received(state: u8) -> Cell
    ensures { result ≡ cell_in table.info3_received state }
{
    match state {
        G2 => Cell::To(G3, STOP, Notes(2, PH_ACT, MPH_ACT, 0, 0)),
        G3..=G4 => STAY,
        _ => Cell::Impossible,
    }
}

// Gives the cell where frame alignment is lost.
fn alignment_lost(state: u8) -> Cell
    ensures { result ≡ cell_in table.alignment_lost state }
{
    match state {
        G3 => Cell::To(G2, KEEP, Notes(2, MPH_DEACT, MPH_EI, 0, 0)),
        G4 => STAY,
        _ => Cell::Impossible,
    }
}

// Gives the number of the INFO that is sent in a state, 0 for a number that is no state.
// Kept: the new form is no plainer: INFO 0 is a number of its own, and is what no state sends too.
pub fn info_sent(state: u8) -> u8
    ensures { result ≡ info_in table.info_sent state }
{
    match state {
        G2 => 2,
        G3 => 4,
        _ => 0,
    }
}
