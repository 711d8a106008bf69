// What the 8 bytes of a record say.
ghost use Rattle.std.specs.Prelude.{◌≡◌, false, [], ◌∷◌, if◌then◌else◌, nat_lt};
ghost use Rattle.math.specs.Bytes.{from_low};
ghost use Rattle.math.specs.Rounded.{zero_f};
ghost use Rattle.event_log.specs.Writing.{number_at};
ghost use Rattle.reader.specs.Records.{bits_in, step_in, is_wrong, event_in};

use event_log::Event;

pub fn number_in(bytes: [u8; 8]) -> u16
    ensures { result ≡ number_at bytes 0 }
{
    u16::from_le_bytes([bytes[0], bytes[1]])
}

fn bits_in(bytes: [u8; 8]) -> u32
    ensures { result ≡ bits_in bytes }
{
    u32::from_le_bytes([bytes[4], bytes[5], bytes[6], bytes[7]])
}

// In seconds; 0 for a pattern that no step has.
pub fn step_in(bytes: [u8; 8]) -> f32
    ensures { result ≡ (if nat_lt (bits_in bytes) 0x7f80_0000 then step_in bytes else zero_f) }
{
    let bits = bits_in(bytes);
    if bits < 0x7f80_0000 {
        return f32::from_bits(bits);
    }
    0.0
}

// By the format's numbers of kinds: an enum of them would be one more list, for these two functions alone.
// The patterns below infinity's are those of the finite steps from +0 up.
pub fn is_wrong(bytes: [u8; 8]) -> bool
    ensures { result ≡ is_wrong bytes }
{
    let kind = bytes[2];
    if (kind < 1) | (kind > 4) | (bytes[3] != 0) {
        return true;
    }
    if kind == 1 {
        return bits_in(bytes) >= 0x7f80_0000;
    }
    bits_in(bytes) != 0
}

pub fn event_in(bytes: [u8; 8]) -> Event
    requires { is_wrong bytes ≡ false }
    ensures { result ≡ event_in bytes }
{
    let kind = bytes[2];
    match kind {
        1 => Event::Step(f32::from_bits(bits_in(bytes))),
        2 => Event::Pause,
        3 => Event::Resume,
        _ => Event::Reset,
    }
}
