// Standard input, as much of it as a program reads.
ghost use Rattle.std.specs.Prelude.{◌≡◌, ◌≤◌, length, IfOk};

use crate::words::Pieces;
use std::io;
use std::io::Read;

// Octets.
pub const MOST: usize = 65_536;

// Reads until the memory is full or the input ends; how many octets stand at its start then.
pub fn read_full(reader: &mut impl Read, space: &mut [u8]) -> io::Result<usize>
    ensures { IfOk result (λ n. n ≤ length space.new) }
{
    let mut done = 0;
    while done < space.len() {
        let n = reader.read(&mut space[done..])?;
        if n == 0 {
            return Ok(done);
        }
        done += n;
    }
    Ok(done)
}

// In memory that is lent for it.
#[derive(Clone, Copy)]
pub struct Input<'a> {
    pub text: &'a [u8],
    pub ghost within: { length text.now ≤ 65536 },
}

impl<'a> Input<'a> {
    pub fn read(reader: &mut impl Read, space: &'a mut [u8; MOST]) -> io::Result<Input<'a>> {
        let done = read_full(reader, space)?;
        Ok(Input {
            text: &space[..done],
        })
    }

    pub fn lines(&self) -> Pieces<'a>
        ensures rest { result.rest.now ≡ self.now.text.now }
        ensures end { result.end ≡ 10 }
    {
        Pieces::new(self.text, b'\n')
    }

    // Says so where there may be more than was read.
    pub fn tell_cut(&self, rt: &impl Eprint, program: &str) -> io::Result<()> {
        if self.text.len() == MOST {
            return eprintln!(rt; "{program}: nothing is read past 65,536 octets");
        }
        Ok(())
    }
}

#[cfg(test)]
mod tests {
    use super::*;
    use std::test::Fail;

    #[test]
    fn reads(rt: HostRuntime) -> Result<(), Fail> {
        let mut space = [0; MOST];
        let input = Input::read(&mut b"fresh 2\n\n# tick".as_slice(), &mut space)?;
        let mut lines = input.lines();
        for line in ["fresh 2", "", "# tick"] {
            assert_eq!(rt; lines.next().unwrap_or_default(), line.as_bytes());
        }
        assert!(rt; lines.next().is_none());
        Ok(())
    }

    #[test]
    fn ends_at_the_most(rt: HostRuntime) -> Result<(), Fail> {
        let octets = [b'-'; MOST + 1];
        for (length, read) in [(0, 0), (MOST - 1, MOST - 1), (MOST, MOST), (MOST + 1, MOST)] {
            let mut space = [0; MOST];
            let input = Input::read(&mut &octets[..length], &mut space)?;
            assert_eq!(rt; input.text.len(), read, "of {length}");
        }
        Ok(())
    }
}
