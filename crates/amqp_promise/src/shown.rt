//! Octets as a text that can be printed.

ghost use Rattle.std.specs.Prelude.{◌≡◌, ◌<◌, Some};
ghost use Rattle.amqp_promise.specs.Shown.{shown, shown_octet, is_plain, hexadecimal_digit};

use std::fmt;
use std::marker::Model;

/// Shows printable ASCII but the backslash as it is, and each other octet as `\x` with two
/// hexadecimal digits.
#[derive(Clone, Copy, Debug)]
pub struct Shown<'a> {
    pub octets: &'a [u8],
}

impl fmt::Display for Shown<'_> {
    ghost use Rattle.std.specs.Prelude.{Some};
    ghost use Rattle.amqp_promise.specs.Shown.{shown};

    ghost output = { λ s. Some (shown s.octets.now) };

    fn fmt<W: fmt::Write>(&self, f: &mut fmt::Formatter<W>) -> fmt::Result {
        for octet in self.octets {
            write!(f, "{}", ShownOctet { octet: *octet })?;
        }
        Ok(())
    }
}

#[derive(Clone, Copy)]
struct ShownOctet {
    octet: u8,
}

impl fmt::Display for ShownOctet {
    ghost use Rattle.std.specs.Prelude.{Some};
    ghost use Rattle.amqp_promise.specs.Shown.{shown_octet};

    ghost output = { λ s. Some (shown_octet s.octet) };

    fn fmt<W: fmt::Write>(&self, f: &mut fmt::Formatter<W>) -> fmt::Result {
        let octet = self.octet;
        if is_plain(octet) {
            return f.write_char(octet as char);
        }
        f.write_str("\\x")?;
        f.write_char(hexadecimal_digit(octet / 16))?;
        f.write_char(hexadecimal_digit(octet % 16))
    }
}

fn is_plain(octet: u8) -> bool
    ensures { result ≡ is_plain octet }
{
    0x20 <= octet && octet <= 0x7e && octet != b'\\'
}

fn hexadecimal_digit(n: u8) -> char
    requires { n < 16 }
    ensures { result ≡ hexadecimal_digit n }
{
    if n < 10 {
        (b'0' + n) as char
    } else {
        (b'a' + (n - 10)) as char
    }
}
