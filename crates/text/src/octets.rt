// Tests of an octet, and of every octet of a text.
ghost use Rattle.std.specs.Prelude.{◌≡◌};
ghost use Rattle.text.specs.Text as spec;

// Tests whether an octet is a decimal digit.
pub fn is_digit(c: u8) -> bool
    ensures { result ≡ spec.is_digit c }
{
    (b'0' <= c) & (c <= b'9')
}

// Tests whether an octet is a lower-case hexadecimal digit.
pub fn is_hex(c: u8) -> bool
    ensures { result ≡ spec.is_hex c }
{
    ((b'0' <= c) & (c <= b'9')) | ((b'a' <= c) & (c <= b'f'))
}

// Tests whether an octet is a letter of a hit.
pub fn is_letter(c: u8) -> bool
    ensures { result ≡ spec.is_letter c }
{
    (c == b'k') | (c == b'p') | (c == b'm') | (c == b'n')
}

// Tests whether a text is hexadecimal digits alone. This and the next test go to the text's end
// whatever its octets are: they nearly always are such, and without a way out at each octet the loop
// takes sixteen at a time.
pub fn all_hex(text: &[u8]) -> bool
    ensures { result ≡ spec.all spec.is_hex text.now }
{
    let mut ok = true;
    for c in text {
        ok &= is_hex(*c);
    }
    ok
}

// Tests whether a text is letters of a hit alone.
pub fn all_letters(text: &[u8]) -> bool
    ensures { result ≡ spec.all spec.is_letter text.now }
{
    let mut ok = true;
    for c in text {
        ok &= is_letter(*c);
    }
    ok
}
