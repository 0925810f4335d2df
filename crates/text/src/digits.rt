ghost use Rattle.std.specs.Prelude.{◌≡◌, ◌<◌};
ghost use Rattle.text.specs.Hex.{digit, digit_value, byte_value};

// By hand, since std's are no plainer: `to_digit` and the crate `hex` read upper case too, which is no digit here; to write,
// `from_digit` gives an option of a `char`, `hex` fills a slice of twice the length, where here a buffer grows, and `{:02x}` may want memory, where here it
// is reserved.

// The digit of a number below 16.
pub(crate) fn digit(value: u8) -> u8
    requires { value < 16 }
    ensures { result ≡ digit value }
{
    if value < 10 {
        b'0' + value
    } else {
        b'a' + (value - 10)
    }
}

// The number of a digit.
fn digit_value(c: u8) -> Option<u8>
    ensures { result ≡ digit_value c }
{
    match c {
        b'0'..=b'9' => Some(c - b'0'),
        b'a'..=b'f' => Some(c - b'a' + 10),
        _ => None,
    }
}

// The byte of two digits, the high one first. (Always inlined: `codec` says why, where it decodes a frame's fields.)
#[inline(always)]
pub fn byte_value(high: u8, low: u8) -> Option<u8>
    ensures { result ≡ byte_value high low }
{
    Some(16 * digit_value(high)? + digit_value(low)?)
}
