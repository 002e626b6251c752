// A C host's calls on a book that it lends as octets: how far the book has come (octets), making
// one (fresh), and going on with it (going).
#![tactic(auto)]

pub mod fresh;
pub mod going;
mod octets;
