// A driver of the call `go_on` of crate `book_go_on`: what it keeps and its turn (turn), a read
// (fill), and its turns to the end (run).
#![tactic(auto)]

mod fill;
pub mod run;
mod turn;
