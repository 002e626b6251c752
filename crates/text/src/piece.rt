// Pieces of a text: they stand between separators.
ghost use Rattle.std.specs.Prelude.{true, ◌≡◌, ◌+◌, ◌≤◌, length, drop};
ghost use Rattle.text.specs.Text.{upto, all, is_other};

// What ends a line.
pub const LF: u8 = b'\n';

// Gives where the piece that starts at `from` ends: at the next separator, or at the text's end.
// Past the text's end every piece is empty.
pub fn piece_end(text: &[u8], from: usize, sep: u8) -> usize
    ensures { result ≡ from + upto sep (drop from text.now) }
{
    for i in from..text.len() {
        if text[i] == sep {
            return i;
        }
    }
    from.max(text.len())
}

// How many octets are looked at together.
const BLOCK: usize = 16;

// Tests whether no octet of a text is the separator.
fn is_one_piece(text: &[u8], sep: u8) -> bool
    ensures { result ≡ all (is_other sep) text.now }
{
    let mut ok = true;
    for c in text {
        ok &= *c != sep;
    }
    ok
}

// Tests whether a whole block stands at `at`, with no separator in it.
fn passes(text: &[u8], at: usize, sep: u8) -> bool
    ensures at_in_bounds { result ≡ true → at + 16 ≤ length text.now }
    ensures bound { result ≡ true → 16 ≤ upto sep (drop at text.now) }
{
    if text.len() < BLOCK {
        return false;
    }
    if text.len() - BLOCK < at {
        return false;
    }
    is_one_piece(&text[at..at + BLOCK], sep)
}

// Gives where a piece ends, as `piece_end` does, but block by block: for pieces that are often
// long.
pub fn long_piece_end(text: &[u8], from: usize, sep: u8) -> usize
    ensures { result ≡ from + upto sep (drop from text.now) }
{
    let mut i = from;
    while passes(text, i, sep) {
        i += BLOCK;
    }
    piece_end(text, i, sep)
}
