// How bytes are written as digits.
ghost use Rattle.std.specs.Prelude.{◌≡◌, ◌+◌, ◌*◌, ◌≤◌, ◌++◌, length};
ghost use Rattle.frames.specs.Digits.{hex};

use arrayvec::ArrayVec;

// Room for the longest line: the digits of a letter, a number, a year and two figures, and a newline.
pub type Line = ArrayVec<u8, 39>;

static DIGITS: [u8; 16] = *b"0123456789ABCDEF";

// Appends two digits for each byte. (The kit's `hex` writes lower case into a slice.)
pub fn spell(bytes: &[u8], line: &mut Line)
    requires { length line.old.items + 2 * length bytes.now ≤ 39 }
    ensures { line.new.items ≡ line.old.items ++ hex bytes.now }
{
    for byte in bytes {
        line.push(DIGITS[(byte / 16) as usize]);
        line.push(DIGITS[(byte % 16) as usize]);
    }
}
