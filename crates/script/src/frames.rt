// What a frame says, in words.
ghost use Rattle.std.specs.Prelude.{◌≡◌};
ghost use Rattle.script.specs.Words.{each_of};
ghost use Rattle.frame.specs.Layout.{listed};

use crate::out::Told;
use frame::{Body, Grant, Grants, Message};
use std::fmt;

// In their order, and none behind the last.
pub fn each(grants: Grants) -> [Option<Grant>; 4]
    ensures { result ≡ each_of (listed grants) }
{
    match grants {
        Grants::None => [None; 4],
        Grants::One(a) => [Some(a), None, None, None],
        Grants::Two(a, b) => [Some(a), Some(b), None, None],
        Grants::Three(a, b, c) => [Some(a), Some(b), Some(c), None],
        Grants::Four(a, b, c, d) => [Some(a), Some(b), Some(c), Some(d)],
    }
}

impl fmt::Display for Told<Grant> {
    fn fmt<W: fmt::Write>(&self, f: &mut fmt::Formatter<W>) -> fmt::Result {
        let Grant {
            start,
            length,
            force,
        } = self.0;
        let forced = if force { " force" } else { "" };
        write!(f, " {} {}{forced}", start.0, length.0)
    }
}

impl fmt::Display for Told<Grants> {
    fn fmt<W: fmt::Write>(&self, f: &mut fmt::Formatter<W>) -> fmt::Result {
        for (place, grant) in each(self.0).iter().flatten().enumerate() {
            let comma = if place > 0 { "," } else { "" };
            write!(f, "{comma}{}", Told(*grant))?;
        }
        Ok(())
    }
}

impl fmt::Display for Told<Body> {
    fn fmt<W: fmt::Write>(&self, f: &mut fmt::Formatter<W>) -> fmt::Result {
        match self.0 {
            Body::Gate(grants) => write!(f, " gate{}", Told(grants)),
            Body::Discovery { grant, sync } => {
                write!(f, " discovery{} sync {}", Told(grant), sync.0)
            }
            Body::Report(sets) => write!(f, " report{}", Told(sets)),
            Body::RegisterReq { flag, pending } => {
                write!(f, " register_req {} pending {pending}", flag.number())
            }
            Body::Register {
                port,
                flag,
                sync,
                pending,
            } => {
                let flag = flag.number();
                let sync = sync.0;
                write!(
                    f,
                    " register {flag} port {port} sync {sync} pending {pending}"
                )
            }
            Body::RegisterAck { flag, port, sync } => {
                let flag = flag.number();
                write!(f, " register_ack {flag} port {port} sync {}", sync.0)
            }
        }
    }
}

// Its kind, its fields and its timestamp.
impl fmt::Display for Told<Message> {
    fn fmt<W: fmt::Write>(&self, f: &mut fmt::Formatter<W>) -> fmt::Result {
        let message = self.0;
        write!(f, "{} stamp {}", Told(message.body), message.timestamp.0)
    }
}
