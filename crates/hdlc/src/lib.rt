// Frames on the D channel as lists of bits: definitions and laws, and the one number of them that
// code needs.
#![tactic(auto)]

// The most octets of a body. It stands here and, for definitions and proofs, as `longest_body` in
// specs/Image.antt, and nowhere else: a definition cannot name a constant. What dchannel, packing
// and d_reader prove of their code holds the two to each other.
pub const LONGEST_BODY: usize = 266;
