// The text not yet taken goes to the buffer's front, so that more of the book can be read in behind
// it.
ghost use Rattle.std.specs.Prelude.{◌≡◌, length};
ghost use Rattle.book_reader.specs.Rest.{rest_of, kept};

// Moves the octets from `from` to `end` to the front, as far as they are there, and gives how many
// they are.
#[tactic(auto, using(crate::proofs::Moving::moved_count, crate::proofs::Moving::moved_all))]
pub fn keep(buf: &mut [u8], from: usize, end: usize) -> usize
    ensures value { result ≡ length (rest_of from end buf.old) }
    ensures buf_after { buf.new ≡ kept from end buf.old }
{
    let to = end.min(buf.len());
    let start = from.min(to);
    buf.copy_within(start..to, 0);
    to - start
}
