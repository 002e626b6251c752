// Standard input, output and error: a book read (read), its report written (write), and what fails
// said in a line (failure). A call that a signal interrupts, or that can move nothing yet, is tried
// again (again), in the second case after a wait (pause).
#![tactic(auto)]

mod again;
mod failure;
mod pause;
pub mod read;
pub mod write;
