// The library for C, libsbus.a, whose header is host/sbus.h. It does no work of its own: each export
// calls the function of its name in host_frames, host_bus, host_steps or host_book, and has its
// clauses.
// Kept: the C interface: what a call replies is a number, 0 or that of a refusal.
#![tactic(auto)]

pub mod book;
pub mod bus;
pub mod frames;
pub mod steps;
