// What a line asks for.
use crate::asking;
use crate::hand::Part;
use crate::state::Desk;
use frame::Address;
use head_judging::Call;
use script::words::{Pieces, at};
use script::{messages, words};

#[derive(Clone, Copy)]
pub enum Asked {
    Fresh(Address),
    Call(Call),
    Ticks(u64),
    Advance(u64),
    Output(usize),
    Octets,
    Timers,
    Hand(Part),
}

impl Asked {
    // A line is a name, and numbers behind it; behind `hear` it is a link and a message.
    pub fn by(line: &[u8]) -> Option<Asked> {
        let mut words = words::of(line);
        match words.next().unwrap_or_default() {
            b"hear" => Asked::heard(words),
            name => Asked::named(name, words::numbers(words, &mut [0; words::MOST])?),
        }
    }

    // A link, and a message's line behind it.
    fn heard(behind: Pieces<'_>) -> Option<Asked> {
        let mut words = behind;
        let link = words::number(words.next()?)? as usize;
        let name = words.next().unwrap_or_default();
        let message = messages::message(name, words::numbers(words, &mut [0; words::MOST])?)?;
        Some(Asked::Call(Call::Hear { link, message }))
    }

    // A client's request, or a call of this program's own.
    fn named(name: &[u8], of: &[u64]) -> Option<Asked> {
        let number = at(of, 0);
        match name {
            b"fresh" => Some(Asked::Fresh(Address(number))),
            b"tick" => Some(Asked::Ticks(number)),
            b"advance" => Some(Asked::Advance(number)),
            b"output" if number <= Desk::OUTPUT as u64 => Some(Asked::Output(number as usize)),
            b"octets" => Some(Asked::Octets),
            b"timers" => Some(Asked::Timers),
            b"hand_head" => Some(Asked::Hand(Part::Head([number, at(of, 1)]))),
            b"hand_before" => Some(Asked::Hand(Part::Window([1, number, at(of, 1)]))),
            b"hand_inside" => Some(Asked::Hand(Part::Window([2, number, 0]))),
            b"hand_link" => Part::link(of).map(Asked::Hand),
            _ => asking::request(name, of).map(Asked::Call),
        }
    }
}
