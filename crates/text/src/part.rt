// Parts of a text.
ghost use Rattle.text.specs.Part.{IsPart};

// Gives the part of a text from `from` to `to`, as far as the text goes: those octets of the
// caller's slice themselves.
pub fn part(text: &[u8], from: usize, to: usize) -> &[u8]
    ensures { IsPart text.entry from to result }
{
    let end = to.min(text.len());
    let begin = from.min(end);
    let rest = &text[begin..];
    &rest[..end - begin]
}
