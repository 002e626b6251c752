// An event of the book: the reasons for which it is turned down, and what it does to one terminal.
#![tactic(auto)]

pub mod event;
