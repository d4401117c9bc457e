// The message that a line's numbers make: destination, source, timestamp and the fields of its body.
ghost use Rattle.std.specs.Prelude.{◌≡◌, IfSome, get_or, length};
ghost use Rattle.script.specs.Words.{modulo, quanta_of};
ghost use Rattle.frame_queues.specs.Queues.{no_sets};

use crate::words;
use crate::words::at;
use clock::{Count, Quanta};
use frame::{
    Address, Body, Grant, Grants, Message, RegisterAckFlag, RegisterFlag, RegisterReqFlag,
};
use frame_queues::Sets;
use std::array;

// Numbers are taken modulo the width of what holds them.
pub fn modulo_32(n: u64) -> u32
    ensures { result ≡ modulo 32 n }
{
    (n % 0x100000000) as u32
}

fn modulo_16(n: u64) -> u16 {
    (n % 0x10000) as u16
}

pub fn modulo_8(n: u64) -> u8
    ensures { result ≡ modulo 8 n }
{
    (n % 0x100) as u8
}

pub fn quanta(n: u64) -> Quanta
    ensures { result ≡ quanta_of n }
{
    Quanta(modulo_32(n))
}

fn grant(start: u64, length: u64, force: u64) -> Grant {
    Grant {
        start: Count(modulo_32(start)),
        length: quanta(length),
        force: force != 0,
    }
}

// A grant is three numbers.
fn grant_at(of: &[u64], place: usize) -> Option<Grant> {
    let [start, length, force] = *of.get(place..)?.first_chunk::<3>()?;
    Some(grant(start, length, force))
}

// As many as the numbers behind the timestamp make.
fn grants(of: &[u64]) -> Grants {
    match (
        grant_at(of, 3),
        grant_at(of, 6),
        grant_at(of, 9),
        grant_at(of, 12),
    ) {
        (Some(a), Some(b), Some(c), Some(d)) => Grants::Four(a, b, c, d),
        (Some(a), Some(b), Some(c), None) => Grants::Three(a, b, c),
        (Some(a), Some(b), None, _) => Grants::Two(a, b),
        (Some(a), None, ..) => Grants::One(a),
        (None, ..) => Grants::None,
    }
}

fn discovery(of: &[u64]) -> Body {
    Body::Discovery {
        grant: grant(at(of, 3), at(of, 4), 0),
        sync: quanta(at(of, 5)),
    }
}

// A flag that the frame does not have is taken as the last one that it has.
fn register_req(of: &[u64]) -> Body {
    Body::RegisterReq {
        flag: RegisterReqFlag::try_from(at(of, 3)).unwrap_or(RegisterReqFlag::Deregister),
        pending: modulo_8(at(of, 4)),
    }
}

fn register(of: &[u64]) -> Body {
    Body::Register {
        port: modulo_16(at(of, 3)),
        flag: RegisterFlag::try_from(at(of, 4)).unwrap_or(RegisterFlag::Nack),
        sync: quanta(at(of, 5)),
        pending: modulo_8(at(of, 6)),
    }
}

fn register_ack(of: &[u64]) -> Body {
    Body::RegisterAck {
        flag: RegisterAckFlag::try_from(at(of, 3)).unwrap_or(RegisterAckFlag::Ack),
        port: modulo_16(at(of, 4)),
        sync: quanta(at(of, 5)),
    }
}

// Queue sets of these numbers: how many, and their octets; none where there is no number.
pub fn sets(of: &[u64]) -> Sets
    ensures none { length of.now ≡ 0 → result ≡ no_sets }
{
    let octets: [u8; words::MOST] = array::from_fn(|place| modulo_8(at(of, place)));
    match &octets[..of.len().min(words::MOST)] {
        [] => Sets::NONE,
        [number, behind @ ..] => Sets::asked(*number, behind),
    }
}

// The names are in capitals, as the rules write them, so that a REGISTER is not the client's register.
fn body(name: &[u8], of: &[u64]) -> Option<Body> {
    let body = match name {
        b"GATE" => Body::Gate(grants(of)),
        b"DISCOVERY" => discovery(of),
        b"REGISTER" => register(of),
        b"REGISTER_REQ" => register_req(of),
        b"REGISTER_ACK" => register_ack(of),
        b"REPORT" => Body::Report(sets(of.get(3..).unwrap_or_default())),
        _ => return None,
    };
    Some(body)
}

// None where no message has the name. Numbers that are left out are 0.
pub fn message(name: &[u8], of: &[u64]) -> Option<Message>
    ensures destination { IfSome result (λ m. m.destination.0 ≡ get_or of.now 0 0) }
    ensures source { IfSome result (λ m. m.source.0 ≡ get_or of.now 1 0) }
    ensures timestamp { IfSome result (λ m. m.timestamp.0 ≡ modulo 32 (get_or of.now 2 0)) }
{
    Some(Message {
        destination: Address(at(of, 0)),
        source: Address(at(of, 1)),
        timestamp: Count(modulo_32(at(of, 2))),
        body: body(name, of)?,
    })
}

// It stands behind a discovery GATE's fields, and means nothing to another message.
pub fn random(of: &[u64]) -> u32
    ensures { result ≡ modulo 32 (get_or of.now 6 0) }
{
    modulo_32(at(of, 6))
}
