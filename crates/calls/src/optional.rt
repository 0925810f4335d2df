ghost use Rattle.std.specs.Prelude.{◌≡◌};
ghost use Rattle.calls.specs.Refusals.{byte_or_255};

// The byte that tells "none" where a page, an object or a bench could stand.
pub const NO_NUMBER: u8 = 255;

// A page, an object or a bench as a byte.
pub fn byte_or_255(number: Option<u8>) -> u8
    ensures { result ≡ byte_or_255 number }
{
    number.unwrap_or(NO_NUMBER)
}
