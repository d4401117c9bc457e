// The reader of control frames: it answers every slice.
#![tactic(auto)]

ghost use Rattle.std.specs.Prelude.{◌≡◌, ◌+◌, ◌≤◌, [], ◌∷◌, leb, take, drop};
ghost use Rattle.frame.specs.Reading.{one_of, gate_in_range, refusal};
ghost use Rattle.frame_queues.specs.Queues.{used_of};
ghost use Rattle.octets.specs.Octets.{field_of};
ghost use Rattle.frame_reader.specs.Decode.{quanta_at, grant_at, gate_at, report_at, register_req_at, register_at, register_ack_at, read_of};
ghost use Rattle.frame_reader.specs.Flags.{few};
ghost use Rattle.frame_reader.specs.Results.{ranged, body_read, control_read, reading_of};

use clock::{Count, Quanta};
use frame::{
    Address, Body, Grant, Grants, Message, Reading, RegisterAckFlag, RegisterFlag, RegisterReqFlag,
    Reply,
};
use frame_queues::Sets;

fn quanta_at(s: &[u8; Message::OCTETS], at: usize) -> Quanta
    ensures { result ≡ quanta_at s.now at }
{
    Quanta(octets::field(s, at, 2) as u32)
}

fn grant_at(s: &[u8; Message::OCTETS], at: usize, force: bool) -> Grant
    requires { at + 6 ≤ 60 }
    ensures { result ≡ grant_at s.now at force }
{
    Grant {
        start: Count(octets::field(s, at, 4) as u32),
        length: quanta_at(s, at + 4),
        force,
    }
}

// The first n of the four.
fn grants_of(n: u64, a: Grant, b: Grant, c: Grant, d: Grant) -> Result<Grants, Reply>
    ensures { result ≡ ranged (leb n 4) (few (take n (a ∷ b ∷ c ∷ d ∷ []))) }
{
    match n {
        0 => Ok(Grants::None),
        1 => Ok(Grants::One(a)),
        2 => Ok(Grants::Two(a, b)),
        3 => Ok(Grants::Three(a, b, c)),
        4 => Ok(Grants::Four(a, b, c, d)),
        _ => Err(Reply::Range),
    }
}

// A GATE, normal or for newcomers. A force bit of a grant that it hasn't is out of range.
fn gate_at(s: &[u8; Message::OCTETS]) -> Result<Body, Reply>
    ensures { result ≡ ranged (gate_in_range (field_of s.now 20 1)) (gate_at s.now) }
{
    let f = octets::field(s, 20, 1);
    let n = f % 8;
    if f >> (n + 4) != 0 {
        return Err(Reply::Range);
    }
    let a = grant_at(s, 21, f / 16 % 2 == 1);
    if f / 8 % 2 == 1 {
        if n != 1 {
            return Err(Reply::Range);
        }
        return Ok(Body::Discovery {
            grant: a,
            sync: quanta_at(s, 27),
        });
    }
    let b = grant_at(s, 27, f / 32 % 2 == 1);
    let c = grant_at(s, 33, f / 64 % 2 == 1);
    let d = grant_at(s, 39, f / 128 % 2 == 1);
    Ok(Body::Gate(grants_of(n, a, b, c, d)?))
}

fn report_at(s: &[u8; Message::OCTETS]) -> Result<Body, Reply>
    ensures { result ≡ ranged (leb (used_of (drop 20 s.now)) 40) (report_at s.now) }
{
    let body = &s[20..];
    let used = frame_queues::used(body);
    if used > body.len() {
        return Err(Reply::Range);
    }
    Ok(Body::Report(Sets::of(body).cut(used)))
}

fn register_req_at(s: &[u8; Message::OCTETS]) -> Result<Body, Reply>
    ensures { result ≡ ranged (one_of (field_of s.now 20 1) (1 ∷ 3 ∷ [])) (register_req_at s.now) }
{
    Ok(Body::RegisterReq {
        flag: RegisterReqFlag::try_from(octets::field(s, 20, 1))?,
        pending: octets::field(s, 21, 1) as u8,
    })
}

fn register_at(s: &[u8; Message::OCTETS]) -> Result<Body, Reply>
    ensures { result ≡ ranged (one_of (field_of s.now 22 1) (1 ∷ 2 ∷ 3 ∷ 4 ∷ [])) (register_at s.now) }
{
    Ok(Body::Register {
        port: octets::field(s, 20, 2) as u16,
        flag: RegisterFlag::try_from(octets::field(s, 22, 1))?,
        sync: quanta_at(s, 23),
        pending: octets::field(s, 25, 1) as u8,
    })
}

fn register_ack_at(s: &[u8; Message::OCTETS]) -> Result<Body, Reply>
    ensures { result ≡ ranged (one_of (field_of s.now 20 1) (0 ∷ 1 ∷ [])) (register_ack_at s.now) }
{
    Ok(Body::RegisterAck {
        flag: RegisterAckFlag::try_from(octets::field(s, 20, 1))?,
        port: octets::field(s, 21, 2) as u16,
        sync: quanta_at(s, 23),
    })
}

// What the frame says, by its opcode.
fn body_at(s: &[u8; Message::OCTETS]) -> Result<Body, Reply>
    ensures { result ≡ body_read (field_of s.now 14 2) s.now }
{
    match octets::field(s, 14, 2) {
        Body::GATE => gate_at(s),
        Body::REPORT => report_at(s),
        Body::REGISTER_REQ => register_req_at(s),
        Body::REGISTER => register_at(s),
        Body::REGISTER_ACK => register_ack_at(s),
        _ => Err(Reply::Opcode),
    }
}

// A source is individual and not zero; a destination may be any.
fn message_at(s: &[u8; Message::OCTETS]) -> Result<Message, Reply>
    ensures { reading_of result ≡ control_read s.now }
{
    if octets::field(s, 12, 2) != Message::KIND {
        return Err(Reply::Kind);
    }
    let body = body_at(s)?;
    let source = Address(octets::field(s, 6, 6));
    if !frame_range::individual(source) {
        return Err(Reply::Range);
    }
    Ok(Message {
        destination: Address(octets::field(s, 0, 6)),
        source,
        timestamp: Count(octets::field(s, 16, 4) as u32),
        body,
    })
}

fn message(octets: &[u8]) -> Result<Message, Reply>
    ensures { reading_of result ≡ read_of octets.now }
{
    match octets.as_array() {
        Some(s) => message_at(s),
        None => Err(Reply::Size),
    }
}

fn refused(reply: Reply) -> Reading
    ensures { result ≡ refusal reply }
{
    let message = Message {
        destination: Address(0),
        source: Address(0),
        timestamp: Count(0),
        body: Body::Report(Sets::NONE),
    };
    Reading { reply, message }
}

// The message that the octets carry; else 1, 2, 3 or 4, the first in this order that applies.
pub fn read(octets: &[u8]) -> Reading
    ensures { result ≡ read_of octets.now }
{
    match message(octets) {
        Ok(message) => Reading {
            reply: Reply::Done,
            message,
        },
        Err(reply) => refused(reply),
    }
}
