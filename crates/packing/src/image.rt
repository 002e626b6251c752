// The image of a body (document 01, "D access (6.1)"), packed into octets.
ghost use Rattle.std.specs.Prelude.{◌≡◌, ◌+◌, ◌*◌, ◌≤◌, ◌<◌, length, take};
ghost use Rattle.hdlc.specs.Bits.{body_bits};
ghost use Rattle.hdlc.specs.Image.{stuff, image, longest_body};
ghost use Rattle.packing.specs.Packing.{filled_octets, onto, packed_bit, image_room, imaged, imaged_octets, image_meaning, image_or};
ghost use Rattle.packing.specs.Packer.{put_bit, put_bit_octets, put_bits, put_bits_octets};

use crate::bits;
use hdlc::LONGEST_BODY;
use refusals::Refusal;

// The bits of the longest body.
const BODY_BITS: usize = 8 * LONGEST_BODY;
// How many octets the longest image takes: two flags, the body's bits, and a 0 for every five of
// them.
pub const IMAGE_ROOM: usize = (16 + BODY_BITS + BODY_BITS / 5 + 7) / 8;
// A flag's bits as an octet.
const FLAG: u8 = 126;

// Where the packing of bits stands.
#[derive(Clone, Copy)]
struct Packer {
    // The bits put.
    at: u16,
    // The 1s put last.
    ones: u8,
    // The last eight bits, the newest as high-order bit.
    octet: u8,
}

// Packs a body's image into `out` and gives its length in bits. A buffer that has no room for the
// longest image is refused as a wrong slice, a body that is empty or too long for its length; `out`
// then stays as it was.
#[tactic(auto, using(crate::proofs::PackerLaws::taken_bits), unfolding(crate::specs::Packing::imaged, crate::specs::Packing::imaged_octets, crate::specs::Packing::image_meaning, crate::specs::Packing::image_or, crate::specs::Packing::is_body_length))]
pub fn image(body: &[u8], out: &mut [u8]) -> Result<u16, Refusal>
    ensures value { result ≡ imaged body.now out.old }
    ensures out_after { out.new ≡ imaged_octets body.now out.old }
    ensures out_after_2 { image_meaning result out.new ≡ image_or body.now out.old }
{
    if out.len() < IMAGE_ROOM {
        return Err(Refusal::WrongSlice);
    }
    if body.len() == 0 || LONGEST_BODY < body.len() {
        return Err(Refusal::BodyLength);
    }
    Ok(pack_image(body, out))
}

// Gives bit i of packed octets, 0 past their end.
#[tactic(auto, unfolding(crate::specs::Packing::packed_bit, hdlc::specs::Bits::bit_of))]
pub fn packed_bit(octets: &[u8], i: u16) -> bool
    ensures { result ≡ packed_bit octets.now i }
{
    let at = (i / 8) as usize;
    let k = (i % 8) as u8;
    at < octets.len() && (octets[at] >> k) % 2 == 1
}

impl Packer {
    // Puts one bit; with its eighth bit an octet goes to its place in `out`.
    #[tactic(auto, unfolding(crate::specs::Packer::put_bit, crate::specs::Packer::put_bit_octets, crate::specs::Packer::store_octet))]
    fn put_bit(self, bit: bool, out: &mut [u8]) -> Self
        requires at_bound { self.at < 8 * image_room }
        requires ones_bound { self.ones < 255 }
        requires image_room_in_bounds { image_room ≤ length out.old }
        ensures value { result ≡ put_bit bit self }
        ensures out_after { out.new ≡ put_bit_octets bit self out.old }
    {
        let octet = bits::shifted(self.octet, bit);
        if self.at % 8 == 7 {
            let at = (self.at / 8) as usize;
            out[at] = octet;
        }
        let ones: u8 = if bit { self.ones + 1 } else { 0 };
        Packer {
            at: self.at + 1,
            ones,
            octet,
        }
    }

    // Puts the first `count` bits of `octets` as they are.
    // Kept: the new form is no plainer: a loop for both needs a flag, and other bounds for each.
    fn put_plain(self, octets: &[u8], count: u16, out: &mut [u8]) -> Self
        requires count_bound { self.at + count ≤ 8 * image_room }
        requires count_bound_2 { self.ones + count ≤ 255 }
        requires image_room_in_bounds { image_room ≤ length out.old }
        requires count_bound_3 { count ≤ 8 * length octets.now }
        ensures value { result ≡ put_bits (take count (body_bits octets.now)) self }
        ensures out_after { out.new ≡ put_bits_octets (take count (body_bits octets.now)) self out.old }
    {
        let mut packer = self;
        for i in 0..count {
            packer = packer.put_bit(packed_bit(octets, i), out);
        }
        packer
    }

    // Puts the bits of a body, or of a part of it, with a 0 after every five 1s.
    fn put_body(self, body: &[u8], out: &mut [u8]) -> Self
        requires body_bound { self.at + length (stuff self.ones (body_bits body.now)) ≤ 8 * image_room }
        requires ones_bound { self.ones < 5 }
        requires image_room_in_bounds { image_room ≤ length out.old }
        ensures value { result ≡ put_bits (stuff self.ones (body_bits body.now)) self }
        ensures out_after { out.new ≡ put_bits_octets (stuff self.ones (body_bits body.now)) self out.old }
    {
        let count = 8 * (body.len() as u16);
        let mut packer = self;
        for i in 0..count {
            packer = packer.put_bit(packed_bit(body, i), out);
            if packer.ones == 5 {
                packer = packer.put_bit(false, out);
            }
        }
        packer
    }
}

// Packs the image of a body, with 0s up to a whole octet, and gives its length in bits.
fn pack_image(body: &[u8], out: &mut [u8]) -> u16
    requires image_room_in_bounds { image_room ≤ length out.old }
    requires body_len_bound { length body.now ≤ longest_body }
    ensures value { result ≡ length (image body.now) }
    ensures out_after { out.new ≡ onto (filled_octets (image body.now)) out.old }
{
    out[0] = FLAG;
    let opened = Packer {
        at: 8,
        ones: 0,
        octet: FLAG,
    };
    let put = opened.put_body(body, out);
    let end = put.at + 8;
    let closing = [FLAG, 0];
    put.put_plain(&closing, 8 + (8 - end % 8) % 8, out);
    end
}
