// The fields of a line: single spaces stand between them.
ghost use Rattle.std.specs.Prelude.{◌≡◌};
ghost use Rattle.text.specs.Fields as spec;
ghost use Rattle.text.specs.Part.{IsPart};

use crate::part::part;
use crate::piece::{long_piece_end, piece_end};

// What stands between two fields.
const SPACE: u8 = b' ';

// Where the first four fields of a line end; behind each but the last stands its space.
#[derive(Clone, Copy)]
pub struct Ends {
    pub first: usize,
    pub second: usize,
    pub third: usize,
    pub fourth: usize,
}

// Splits a line into its fields, in one pass. The fourth is often long; the others are not.
pub fn split(line: &[u8]) -> Ends
    ensures { result ≡ spec.ends_of line.now }
{
    let first = piece_end(line, 0, SPACE);
    let second = piece_end(line, first + 1, SPACE);
    let third = piece_end(line, second + 1, SPACE);
    let fourth = long_piece_end(line, third + 1, SPACE);
    Ends {
        first,
        second,
        third,
        fourth,
    }
}

// Gives field `which`, 0 to 3, of a line whose fields have these ends, as the part of the line that
// it is. For any other number it is an empty part of the line: a line that is split has no such
// field.
pub fn field(line: &[u8], ends: Ends, which: usize) -> &[u8]
    ensures { IsPart line.entry (spec.field_from which ends) (spec.field_to which ends) result }
{
    let most = line.len();
    match which {
        0 => part(line, 0, ends.first),
        1 => part(line, ends.first.min(most) + 1, ends.second),
        2 => part(line, ends.second.min(most) + 1, ends.third),
        3 => part(line, ends.third.min(most) + 1, ends.fourth),
        _ => part(line, 0, 0),
    }
}
