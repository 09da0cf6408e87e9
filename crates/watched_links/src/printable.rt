//! Bytes as an operator reads them.
use std::fmt::{self, Display, Formatter, Write};

/// The bytes of a name: those from 0x21 to 0x7E but the backslash as they are, any other as `\x` and two hexadecimal digits.
#[derive(Clone, Copy)]
pub struct Printable<'a>(pub &'a [u8]);

impl Display for Printable<'_> {
    fn fmt<W: Write>(&self, f: &mut Formatter<W>) -> fmt::Result {
        for byte in self.0 {
            match *byte {
                b'\\' => f.write_str("\\x5c")?,
                b'!'..=b'~' => f.write_char(char::from(*byte))?,
                _ => write!(f, "\\x{:02x}", *byte)?,
            }
        }
        Ok(())
    }
}
