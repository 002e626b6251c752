// The fields of the two frames, by value: every bit but those that follow from others (L and N) and
// F, which is always 0.
ghost use Rattle.std.specs.Prelude.{◌≡◌};
ghost use Rattle.frame.specs.Four.{all_four};

// The four D bits of a frame, or its four echo bits, in the order of the line.
#[derive(Clone, Copy, PartialEq, Eq, Debug)]
pub struct Four {
    pub first: bool,
    pub second: bool,
    pub third: bool,
    pub fourth: bool,
}

impl Four {
    // Gives four bits that are all b.
    pub fn all(b: bool) -> Four
        ensures { result ≡ all_four b }
    {
        Four {
            first: b,
            second: b,
            third: b,
            fourth: b,
        }
    }
}

// The fields of a frame from the network to the terminals.
#[derive(Clone, Copy, PartialEq, Eq, Debug)]
pub struct DownFields {
    pub b1first: u8,
    pub b2first: u8,
    pub b1second: u8,
    pub b2second: u8,
    pub e: Four,
    pub d: Four,
    pub a: bool,
    pub fa: bool,
    pub m: bool,
    pub s: bool,
}

// The downward bits that the 20-period cycle sets.
#[derive(Clone, Copy, PartialEq, Eq, Debug)]
pub struct CycleBits {
    pub fa: bool,
    pub m: bool,
    pub s: bool,
}

// The fields of a frame from a terminal to the network.
#[derive(Clone, Copy, PartialEq, Eq, Debug)]
pub struct UpFields {
    pub b1first: u8,
    pub b2first: u8,
    pub b1second: u8,
    pub b2second: u8,
    pub d: Four,
    pub fa: bool,
}
