// What a message says, in numbers, and messages that have no frame.
use clock::{Count, Quanta};
use frame::{Address, Body, Grant, Grants, Message, RegisterAckFlag};
use frame_queues::Sets;
use script::frames;
use script::out::Told;
use std::fmt;

// A value in numbers, with a space in front.
#[derive(Clone, Copy)]
pub struct Shown<T>(pub T);

impl fmt::Display for Shown<Grant> {
    fn fmt<W: fmt::Write>(&self, f: &mut fmt::Formatter<W>) -> fmt::Result {
        let Grant {
            start,
            length,
            force,
        } = self.0;
        write!(f, " {} {} {}", start.0, length.0, u8::from(force))
    }
}

impl fmt::Display for Shown<Grants> {
    fn fmt<W: fmt::Write>(&self, f: &mut fmt::Formatter<W>) -> fmt::Result {
        let grants = frames::each(self.0);
        write!(f, " {}", grants.iter().flatten().count())?;
        for grant in grants.iter().flatten() {
            write!(f, "{}", Shown(*grant))?;
        }
        Ok(())
    }
}

impl fmt::Display for Shown<Body> {
    fn fmt<W: fmt::Write>(&self, f: &mut fmt::Formatter<W>) -> fmt::Result {
        match self.0 {
            Body::Gate(grants) => write!(f, " gate{}", Shown(grants)),
            Body::Discovery { grant, sync } => write!(f, " discovery{} {}", Shown(grant), sync.0),
            Body::Report(sets) => write!(f, " report{}", Told(sets)),
            Body::RegisterReq { flag, pending } => {
                write!(f, " register_req {} {pending}", flag.number())
            }
            Body::Register {
                port,
                flag,
                sync,
                pending,
            } => {
                let flag = flag.number();
                write!(f, " register {port} {flag} {} {pending}", sync.0)
            }
            Body::RegisterAck { flag, port, sync } => {
                write!(f, " register_ack {} {port} {}", flag.number(), sync.0)
            }
        }
    }
}

impl fmt::Display for Shown<Message> {
    fn fmt<W: fmt::Write>(&self, f: &mut fmt::Formatter<W>) -> fmt::Result {
        let Message {
            destination,
            source,
            timestamp,
            body,
        } = self.0;
        write!(f, " to {:012x} from {:012x}", destination.0, source.0)?;
        write!(f, " stamp {}{}", timestamp.0, Shown(body))
    }
}

const ADDRESS: Address = Address(2);

const TOO_LARGE: Address = Address(0x1000000000000);

const GROUP: Address = Address(0x031346578A9B);

const TOO_LONG: Quanta = Quanta(0x10000);

// Destination, source and body of messages that are out of range.
pub const WITHOUT_FRAME: [(Address, Address, Body); 6] = [
    (TOO_LARGE, ADDRESS, Body::Report(Sets::NONE)),
    (ADDRESS, TOO_LARGE, Body::Report(Sets::NONE)),
    (ADDRESS, Address(0), Body::Report(Sets::NONE)),
    (ADDRESS, GROUP, Body::Report(Sets::NONE)),
    (
        ADDRESS,
        ADDRESS,
        Body::Gate(Grants::One(Grant {
            start: Count(3),
            length: TOO_LONG,
            force: false,
        })),
    ),
    (
        ADDRESS,
        ADDRESS,
        Body::RegisterAck {
            flag: RegisterAckFlag::Ack,
            port: 4,
            sync: TOO_LONG,
        },
    ),
];
