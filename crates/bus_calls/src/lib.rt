// The calls on a bus: its record by value, the eight terminal records lent as one slice.
#![tactic(auto)]

pub mod event;
mod network_end;
pub mod ready;
pub mod run;
pub mod step;
pub mod turn;
