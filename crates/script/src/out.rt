// How what has no words of its own is printed.
use std::fmt;

// A value in words, with a space in front.
#[derive(Clone, Copy)]
pub struct Told<T>(pub T);

// Octets as hexadecimal digits.
#[derive(Clone, Copy)]
pub struct Octets<'a>(pub &'a [u8]);

impl fmt::Display for Octets<'_> {
    fn fmt<W: fmt::Write>(&self, f: &mut fmt::Formatter<W>) -> fmt::Result {
        for octet in self.0 {
            write!(f, "{octet:02x}")?;
        }
        Ok(())
    }
}
