// What a line asks for.
use frame::{Address, Message};
use frame_queues::Sets;
use script::words::at;
use script::{messages, words};

#[derive(Clone, Copy)]
pub enum Call {
    Fresh(Address),
    Register,
    Deregister,
    Report(Sets),
    // With a random number.
    Hear(Message, u32),
    Tick(u64),
    Advance(u64),
    Hand(Part),
    Look(Look),
}

// A part of the box that is handed in with another number.
#[derive(Clone, Copy)]
pub enum Part {
    Wait(u32),
    Watchdog(u32),
    Report(u32),
    Laser(u32),
    Held(u64),
}

// What leaves the box as it is.
#[derive(Clone, Copy)]
pub enum Look {
    Send(u64, u64),
    Octets,
    Timers,
}

impl Call {
    // A line is a name, and numbers behind it.
    pub fn by(line: &[u8]) -> Option<Call> {
        let mut words = words::of(line);
        let name = words.next().unwrap_or_default();
        Call::named(name, words::numbers(words, &mut [0; words::MOST])?)
    }

    // A message's name has capitals, and the others are this program's own.
    fn named(name: &[u8], of: &[u64]) -> Option<Call> {
        let number = at(of, 0);
        let left = messages::modulo_32(number);
        match name {
            b"fresh" => Some(Call::Fresh(Address(number))),
            b"register" => Some(Call::Register),
            b"deregister" => Some(Call::Deregister),
            b"report" => Some(Call::Report(messages::sets(of))),
            b"tick" => Some(Call::Tick(number)),
            b"advance" => Some(Call::Advance(number)),
            b"hand_wait" => Some(Call::Hand(Part::Wait(left))),
            b"hand_watchdog" => Some(Call::Hand(Part::Watchdog(left))),
            b"hand_report" => Some(Call::Hand(Part::Report(left))),
            b"hand_laser" => Some(Call::Hand(Part::Laser(left))),
            b"hand_held" => Some(Call::Hand(Part::Held(number))),
            b"send" => Some(Call::Look(Look::Send(number, at(of, 1)))),
            b"octets" => Some(Call::Look(Look::Octets)),
            b"timers" => Some(Call::Look(Look::Timers)),
            _ => {
                let message = messages::message(name, of)?;
                Some(Call::Hear(message, messages::random(of)))
            }
        }
    }
}
