// Words of a head or a link that are handed in again: what no call of its own leads to soon, or at all.
use crate::state::Desk;
use script::words::at;

#[derive(Clone, Copy)]
pub enum Part {
    // Address and count.
    Head([u64; 2]),
    // Phase, ticks left and length.
    Window([u64; 3]),
    // Where a link's words begin, and these.
    Link(usize, [u64; 5]),
}

impl Part {
    // A link from 1 to 3, in a state from 0 to 2.
    pub fn link(of: &[u64]) -> Option<Part> {
        let place = match (at(of, 0), at(of, 1)) {
            (1, 0..=2) => 0,
            (2, 0..=2) => 5,
            (3, 0..=2) => 10,
            _ => return None,
        };
        let words = [at(of, 2), at(of, 1), at(of, 3), at(of, 4), at(of, 5)];
        Some(Part::Link(place, words))
    }
}

pub fn with(desk: Desk, part: Part) -> Desk {
    let mut next = desk;
    match part {
        Part::Head(words) => face_words::lay(&words, &mut next.head),
        Part::Window(words) => face_words::lay(&words, &mut next.head[2..]),
        Part::Link(place, words) => {
            if let Some(links) = next.links.get_mut(place..) {
                face_words::lay(&words, links);
            }
        }
    }
    next
}
