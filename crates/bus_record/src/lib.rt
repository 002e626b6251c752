// The bus record, and what a period does beside what it does to each terminal.
#![tactic(auto)]

pub mod echo;
pub mod reading;
pub mod record;
pub mod side;
