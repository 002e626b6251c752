// The edges of document 01 that are checked by running: a body of 266 octets is taken, one of 267
// refused. The others stand in specs/Edges.antt.
#![tactic(auto)]

use dchannel::access::{Access, Class};
use hdlc::LONGEST_BODY;
use packing::image::{IMAGE_ROOM, image};
use refusals::Refusal;
use std::io;

// Prints the answer of the image call, and then that of handing the frame over.
fn show(rt: &impl Print, answer: Result<u16, Refusal>) -> io::Result<()> {
    match answer {
        Ok(bits) => {
            print!(rt; "image of {bits} bits, reply ")?;
            match Access::fresh().hand(Class::One, bits) {
                Ok(_) => println!(rt; "0"),
                Err(refusal) => println!(rt; "{refusal}"),
            }
        }
        Err(refusal) => println!(rt; "refused {refusal}"),
    }
}

fn main(rt: HostRuntime) -> io::Result<()> {
    let body = [255u8; LONGEST_BODY + 1];
    let mut out = [0u8; IMAGE_ROOM];
    print!(rt; "266 octets: ")?;
    show(&rt, image(&body[..LONGEST_BODY], &mut out))?;
    print!(rt; "267 octets: ")?;
    show(&rt, image(&body, &mut out))
}
