// Numbers among octets, the low-order octet first. Past the end every octet counts as 0.
ghost use Rattle.std.specs.Prelude.{◌≡◌, eqb, get_or};
ghost use Rattle.bus_octets.specs.Numbers.{half_at, word_at};

// Gives the octet at index `at`.
pub fn octet_at(s: &[u8], at: usize) -> u8
    ensures { result ≡ get_or s.now at 0 }
{
    s.get(at).copied().unwrap_or(0)
}

// Tests whether the octet at index `at` is 1.
pub fn flag_at(s: &[u8], at: usize) -> bool
    ensures { result ≡ eqb (get_or s.now at 0) 1 }
{
    octet_at(s, at) == 1
}

// Gives the number of two octets.
pub fn half_at(s: &[u8], at: u32) -> u16
    ensures { result ≡ half_at s.now at }
{
    let i = at as usize;
    u16::from_le_bytes([octet_at(s, i), octet_at(s, i + 1)])
}

// Gives the number of four octets.
pub fn word_at(s: &[u8], at: u32) -> u32
    ensures { result ≡ word_at s.now at }
{
    let i = at as usize;
    u32::from_le_bytes([
        octet_at(s, i),
        octet_at(s, i + 1),
        octet_at(s, i + 2),
        octet_at(s, i + 3),
    ])
}
