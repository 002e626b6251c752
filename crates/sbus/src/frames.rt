// Frames on the line.
ghost use Rattle.std.specs.Prelude.{◌≡◌};
ghost use Rattle.host_frames.specs.Calls.{reply_of, left_of, frame_read, frame_written};

// Reads 48 symbols, downward where `up` is 0, puts the fields' octets into `fields` and replies 0;
// or replies 2 for a wrong length or code, 10 for a line that no fields are written as.
#[unsafe(no_mangle)]
pub extern "C" fn sbus_read_frame(up: u32, symbols: &[u8], fields: &mut [u8]) -> u32
    ensures reply { result ≡ reply_of (frame_read up symbols.now fields.old) }
    ensures octets { fields.new
        ≡ left_of (frame_read up symbols.now fields.old) fields.old }
{
    host_frames::read::sbus_read_frame(up, symbols, fields)
}

// Writes the frame of 16 octets of fields, downward where `up` is 0, as 48 symbols and replies 0;
// or replies 2 for a wrong length or octet.
#[unsafe(no_mangle)]
pub extern "C" fn sbus_write_frame(up: u32, fields: &[u8], symbols: &mut [u8]) -> u32
    ensures reply { result ≡ reply_of (frame_written up fields.now symbols.old) }
    ensures octets { symbols.new
        ≡ left_of (frame_written up fields.now symbols.old) symbols.old }
{
    host_frames::write::sbus_write_frame(up, fields, symbols)
}
