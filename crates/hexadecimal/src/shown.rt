// How bytes are displayed.
ghost use Rattle.std.specs.Prelude.{◌≡◌, ◌<◌, Some};
ghost use Rattle.hexadecimal.specs.Hex.{capital, hexed};

use std::fmt;

// Bytes that are displayed as digits in capitals.
#[derive(Clone, Copy)]
pub struct Hex<'a>(pub &'a [u8]);

// The digit of a value, in capitals.
fn capital(value: u8) -> char
    requires { value < 16 }
    ensures value { result ≡ capital value }
    ensures bound { result < 128 }
{
    if value < 10 {
        (b'0' + value) as char
    } else {
        (b'A' + (value - 10)) as char
    }
}

impl fmt::Display for Hex<'_> {
    ghost output = { λ h. Some (hexed h.0.now) };

    // By the `write_char` of `Write`, which takes 39 instructions to a byte: `{byte:02X}`, which lays each byte out by a width, takes
    // 155, and the formatter's own `write_char`, which tests each character, 128.
    fn fmt<W: fmt::Write>(&self, f: &mut fmt::Formatter<W>) -> fmt::Result {
        for &byte in self.0 {
            fmt::Write::write_char(f, capital(byte / 16))?;
            fmt::Write::write_char(f, capital(byte % 16))?;
        }
        Ok(())
    }
}
