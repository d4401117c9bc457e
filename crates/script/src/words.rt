// The words of a line, and the numbers that they spell.
ghost use Rattle.std.specs.Prelude.{◌≡◌, ◌≢◌, ◌≤◌, ◌<◌, ℕ, length, slice_index, get_or, IfSome};
ghost use Rattle.std.specs.Iterator.{at_most};
ghost use Rattle.script.specs.Words.{passed_on, digit_of, spelled, number_of};

// The most that a call takes: a GATE's addresses, timestamp and four grants.
pub const MOST: usize = 15;

// With a digit more a larger number might not fit.
const LARGEST: u64 = 0xFFFFFFFFFFFFFFF;

// Comments and empty lines are passed on, so that an input can explain itself.
pub fn passed_on(line: &[u8]) -> bool
    ensures { result ≡ passed_on line.now }
{
    match line {
        [] => true,
        [first, ..] => *first == b'#',
    }
}

// Where the octet stands first, from a place on; the length where it does not; the place itself where the line ends before it.
pub fn find(line: &[u8], from: usize, octet: u8) -> usize
    ensures behind { from ≤ result }
    ensures beyond { length line.now ≤ from → result ≡ from }
    ensures within { from ≤ length line.now → result ≤ length line.now }
    ensures before { (k : ℕ) → from ≤ k → k < result → slice_index line.now k ≢ octet }
    ensures found { result < length line.now → slice_index line.now result ≡ octet }
{
    for at in from..line.len() {
        if line[at] == octet {
            return at;
        }
    }
    from.max(line.len())
}

// What an octet ends, piece by piece; the last may do without it.
#[derive(Clone, Copy)]
pub struct Pieces<'a> {
    pub rest: &'a [u8],
    pub end: u8,
}

impl<'a> Pieces<'a> {
    pub fn new(text: &'a [u8], end: u8) -> Pieces<'a>
        ensures rest { result.rest.now ≡ text.now }
        ensures end { result.end ≡ end }
    {
        Pieces { rest: text, end }
    }
}

impl<'a> Iterator for Pieces<'a> {
    type Item = &'a [u8];

    ghost remaining = { λ s. at_most (length s.rest.now) };

    fn next(&mut self) -> Option<&'a [u8]> {
        let rest = self.rest;
        if rest.is_empty() {
            return None;
        }
        let end = find(rest, 0, self.end);
        self.rest = rest.get(end + 1..).unwrap_or_default();
        Some(&rest[..end])
    }
}

pub fn of(line: &[u8]) -> Pieces<'_>
    ensures rest { result.rest.now ≡ line.now }
    ensures end { result.end ≡ 32 }
{
    Pieces::new(line, b' ')
}

// Hexadecimal digits are in lower case.
fn digit(c: u8, radix: u32) -> Option<u32>
    requires { (2 ≤ radix) × (radix ≤ 16) }
    ensures value { result ≡ digit_of radix c }
    ensures below { IfSome result (λ d. d < radix) }
{
    char::from(c)
        .to_digit(radix)
        .filter(|_| !c.is_ascii_uppercase())
}

fn digits(spelling: &[u8], radix: u32) -> Option<u64>
    requires { (2 ≤ radix) × (radix ≤ 16) }
    ensures { result ≡ spelled radix 0 spelling.now }
{
    let mut n = 0;
    for c in spelling {
        let more = digit(*c, radix)?;
        if n > LARGEST {
            return None;
        }
        n = n * u64::from(radix) + u64::from(more);
    }
    Some(n)
}

// Decimal digits, or hexadecimal ones after 0x.
pub fn number(word: &[u8]) -> Option<u64>
    ensures { result ≡ number_of word.now }
{
    match word {
        [] | b"0x" => None,
        [b'0', b'x', spelling @ ..] => digits(spelling, 16),
        _ => digits(word, 10),
    }
}

// The numbers that words spell, in memory that is lent for them; none where a word spells none, or there are more than any call takes.
pub fn numbers<'a>(words: Pieces<'_>, space: &'a mut [u64; MOST]) -> Option<&'a [u64]>
    ensures { IfSome result (λ of. length of.now ≤ 15) }
{
    let mut n = 0;
    for word in words {
        *space.get_mut(n)? = number(word)?;
        n += 1;
    }
    space.get(..n)
}

// Of a line's numbers one by its place; one that is left out is 0.
pub fn at(of: &[u64], place: usize) -> u64
    ensures { result ≡ get_or of.now place 0 }
{
    of.get(place).copied().unwrap_or(0)
}

#[cfg(test)]
mod tests {
    use super::*;
    use std::test::Fail;

    #[test]
    fn spells(rt: HostRuntime) -> Result<(), Fail> {
        let mut space = [0; MOST];
        let some = numbers(of(b"1 0x10 3"), &mut space).ok_or("none")?;
        assert_eq!(rt; some, [1, 16, 3].as_slice());
        let most = of(b"1 2 3 4 5 6 7 8 9 10 11 12 13 14 15");
        let some = numbers(most, &mut space).ok_or("none")?;
        assert_eq!(rt;
            some,
            [1, 2, 3, 4, 5, 6, 7, 8, 9, 10, 11, 12, 13, 14, 15].as_slice()
        );
        let some = numbers(of(b""), &mut space).ok_or("none")?;
        assert!(rt; some.is_empty());
        Ok(())
    }

    #[test]
    fn spells_none(rt: HostRuntime) -> Result<(), Fail> {
        let lines = [
            "1 x 3",
            "1 0x 3",
            "0xA",
            "1  3",
            "1 2 3 4 5 6 7 8 9 10 11 12 13 14 15 16",
            "99999999999999999999",
        ];
        for line in lines {
            let mut space = [0; MOST];
            let none = numbers(of(line.as_bytes()), &mut space);
            assert!(rt; none.is_none(), "{line}");
        }
        Ok(())
    }
}
