// The queue sets of a REPORT, in words: how many there are, and for each its bitmap and the lengths of its queues.
use crate::out::Told;
use frame_queues::Sets;
use std::fmt;

// Nothing where there are none.
impl fmt::Display for Told<Sets> {
    fn fmt<W: fmt::Write>(&self, f: &mut fmt::Formatter<W>) -> fmt::Result {
        let octets = self.0.octets();
        let end = frame_queues::used(&octets).min(octets.len());
        match &octets[..end] {
            [] | [0, ..] => Ok(()),
            [number, sets @ ..] => {
                write!(f, " {number}")?;
                tell_each(f, sets)
            }
        }
    }
}

// A bitmap has a length of two octets for each of its bits. Of sets that run past the body a length that is cut is left out.
fn tell_each<W: fmt::Write>(f: &mut fmt::Formatter<W>, sets: &[u8]) -> fmt::Result {
    let mut rest = sets;
    while let Some((bitmap, behind)) = rest.split_first() {
        write!(f, " {bitmap}")?;
        let taken = behind.len().min(2 * bitmap.count_ones() as usize);
        tell_lengths(f, &behind[..taken])?;
        rest = &behind[taken..];
    }
    Ok(())
}

fn tell_lengths<W: fmt::Write>(f: &mut fmt::Formatter<W>, lengths: &[u8]) -> fmt::Result {
    for length in lengths.chunks_exact(2) {
        write!(f, " {}", octets::number(length))?;
    }
    Ok(())
}
