// A book of which text is lent part by part, with lent room for its report: how far it has come
// (progress), periods run up to a line's (run_to), an event (give), a line (line), one step (step),
// the steps for what a reader reads one after the other (reading, fields), and the call that goes
// on until it needs text or room, or is finished (go_on).
#![tactic(auto)]

mod fields;
mod give;
pub mod go_on;
mod line;
pub mod progress;
mod reading;
mod run_to;
mod step;
