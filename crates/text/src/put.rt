ghost use Rattle.std.specs.Prelude.{◌≡◌, ◌+◌, ◌*◌, [], ◌∷◌, length, vec_len};
ghost use Rattle.text.specs.Hex.{hex};
ghost use Rattle.text.specs.Room.{HasRoom, Gains};

use crate::digits::digit;

// The room is said by two words: a struct that lends the buffer would need a clause for what each call leaves of it, and one
// that it still holds the same buffer.

// Writes two characters behind what the buffer holds, which has the room.
pub fn put_pair(out: &mut Vec<u8>, first: u8, second: u8)
    requires { HasRoom out.old 2 }
    ensures { Gains out.old out.new (first ∷ second ∷ []) }
{
    out.push_reserved(first);
    out.push_reserved(second);
}

// Writes a byte as two digits behind what the buffer holds, which has the room.
fn put_byte(out: &mut Vec<u8>, byte: u8)
    requires { HasRoom out.old 2 }
    ensures { Gains out.old out.new (hex (byte ∷ [])) }
{
    put_pair(out, digit(byte / 16), digit(byte % 16));
}

// Writes bytes as pairs of digits behind what the buffer holds, which has the room.
pub fn put_hex(out: &mut Vec<u8>, bytes: &[u8])
    requires { HasRoom out.old (2 * length bytes.now) }
    ensures text { Gains out.old out.new (hex bytes.now) }
    ensures len { vec_len out.new ≡ vec_len out.old + 2 * length bytes.now }
{
    for byte in bytes {
        put_byte(out, *byte);
    }
}
