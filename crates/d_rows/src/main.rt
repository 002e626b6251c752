// Prints some images, and what the reader says to bit strings; the last and longest of these is
// read from standard input.
#![tactic(auto)]

ghost use Rattle.std.specs.Prelude.{◌≤◌, length, IfOk};

use d_reader::{Reader, ReaderAnswer};
use hdlc::LONGEST_BODY;
use packing::image::{IMAGE_ROOM, packed_bit};
use refusals::Refusal;
use std::io::Read;
use std::{fmt, io};

// Octets, printed in hexadecimal.
#[derive(Clone, Copy, Drop)]
struct Hex<'a>(&'a [u8]);

impl fmt::Display for Hex<'_> {
    fn fmt<W: fmt::Write>(&self, f: &mut fmt::Formatter<W>) -> fmt::Result {
        for octet in self.0 {
            write!(f, "{octet:02x}")?;
        }
        Ok(())
    }
}

// The first `count` bits of packed octets, printed as digits.
#[derive(Clone, Copy, Drop)]
struct Bits<'a> {
    octets: &'a [u8],
    count: u16,
}

impl fmt::Display for Bits<'_> {
    fn fmt<W: fmt::Write>(&self, f: &mut fmt::Formatter<W>) -> fmt::Result {
        for i in 0..self.count {
            let bit = packed_bit(self.octets, i) as u8;
            write!(f, "{bit}")?;
        }
        Ok(())
    }
}

// Prints a line for an image: its length in bits and, if `shown`, the bits; or the number of the
// refusal.
fn image(rt: &impl Print, body: &[u8], out: &mut [u8], shown: bool) -> io::Result<()> {
    match packing::image::image(body, out) {
        Ok(count) => {
            if shown {
                let bits = Bits { octets: out, count };
                return println!(rt; "{count} {bits}");
            }
            println!(rt; "{count}")
        }
        Err(refusal) => println!(rt; "refused {refusal}"),
    }
}

// Prints a line for what the reader answers to the bit at a place, unless it is nothing.
fn answer(
    rt: &impl Print,
    place: usize,
    answer: Result<ReaderAnswer, Refusal>,
    octets: &[u8],
) -> io::Result<()> {
    match answer {
        Ok(ReaderAnswer::Nothing) => Ok(()),
        Ok(ReaderAnswer::Heard(n)) => {
            let body = Hex(octets.get(..n as usize).unwrap_or(&[]));
            println!(rt; "{place} heard {body}")
        }
        Ok(ReaderAnswer::Torn) => println!(rt; "{place} torn"),
        Err(refusal) => println!(rt; "{place} refused {refusal}"),
    }
}

// Prints what a fresh reader answers to the digits of a bit string, each answer with the digit's
// place, and then whether the reader is in range.
fn read(rt: &impl Print, digits: &[u8], octets: &mut [u8]) -> io::Result<()> {
    let mut reader = Reader::fresh();
    for (place, digit) in digits.iter().enumerate() {
        let said = reader.read(*digit == b'1', octets);
        answer(rt, place, said, octets)?;
    }
    if reader.in_range() {
        println!(rt; "in range")
    } else {
        println!(rt; "out of range")
    }
}

// Prints the images of some bodies.
fn images(rt: &impl Print) -> io::Result<()> {
    let mut out = [0u8; IMAGE_ROOM];
    let longest = [255u8; LONGEST_BODY + 1];
    image(rt, b"\x00", &mut out, true)?;
    image(rt, b"\xff", &mut out, true)?;
    image(rt, b"\x01", &mut out, true)?;
    image(rt, b"\x80\x0f", &mut out, true)?;
    image(rt, &longest[..LONGEST_BODY], &mut out, false)?;
    image(rt, &longest, &mut out, false)?;
    image(rt, &longest[..0], &mut out, false)?;
    let mut short = [0u8; IMAGE_ROOM - 1];
    image(rt, &longest[..LONGEST_BODY], &mut short, false)
}

// Prints what the reader says to some bit strings.
fn readings(rt: &impl Print) -> io::Result<()> {
    let mut heard = [0u8; LONGEST_BODY];
    println!(rt; "an image of 00")?;
    read(rt, b"011111100000000001111110", &mut heard)?;
    println!(rt; "two images of ff with a shared 0 between the flags")?;
    read(
        rt,
        b"0111111011111011101111110111111011111011101111110",
        &mut heard,
    )?;
    println!(rt; "seven 1s after seven bits and after eight")?;
    read(rt, b"0111111000000001111111", &mut heard)?;
    read(rt, b"01111110000000001111111", &mut heard)?;
    println!(rt; "nine bits between flags")?;
    read(rt, b"0111111000000000001111110", &mut heard)?;
    println!(rt; "six 1s and a 0 first")?;
    read(rt, b"11111100000000001111110", &mut heard)?;
    println!(rt; "a short buffer")?;
    let mut short = [0u8; LONGEST_BODY - 1];
    read(rt, b"0", &mut short)
}

// Reads standard input to its end, or until the room is full, and gives how many octets have come.
fn read_full(input: &mut impl Read, room: &mut [u8]) -> io::Result<usize>
    ensures { IfOk result (λ n. n ≤ length room.new) }
{
    let mut have: usize = 0;
    while have < room.len() {
        let n = input.read(&mut room[have..])?;
        if n == 0 {
            break;
        }
        have += n;
    }
    Ok(have)
}

fn main(rt: HostRuntime) -> io::Result<()> {
    images(&rt)?;
    readings(&rt)?;
    let mut digits = [0u8; 65_536];
    let mut heard = [0u8; LONGEST_BODY];
    let n = read_full(&mut rt.stdin(), &mut digits)?;
    println!(rt; "standard input")?;
    read(&rt, &digits[..n], &mut heard)
}
