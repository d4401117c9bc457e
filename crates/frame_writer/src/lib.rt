// The writer of control frames: it answers every message.
#![tactic(auto)]

ghost use Rattle.std.specs.Prelude.{◌≡◌, [], ◌∷◌, true, false, cond, ◌+◌, ◌≤◌, ◌<◌, length};
ghost use Rattle.octets.specs.Octets.{bytes};
ghost use Rattle.octets.specs.Over.{over};
ghost use Rattle.frame.specs.Layout.{listed, force_bits, first_octet, gate_octets, opcode_of, body_octets};
ghost use Rattle.frame_writer.specs.Steps.{headed, grant_over};
ghost use Rattle.frame_writer.specs.Write.{write_of};

use clock::{Count, Quanta};
use frame::{
    Address, Body, Grant, Grants, Message, RegisterAckFlag, RegisterFlag, RegisterReqFlag, Reply,
    Writing,
};
use frame_queues::Sets;

// What a frame has before its body, but for type and opcode.
#[derive(Clone, Copy)]
pub struct Header {
    pub destination: Address,
    pub source: Address,
    pub timestamp: Count,
}

// The n octets of x, written over `o` from `at`.
fn lay(o: &mut [u8; Message::OCTETS], at: usize, n: usize, x: u64)
    requires { at + n ≤ 60 }
    ensures { o.new ≡ over at o.old (bytes n x) }
{
    octets::put(&mut o[at..at + n], x);
}

// A frame with an empty body.
fn begin(h: Header, opcode: u64) -> [u8; Message::OCTETS]
    ensures { result ≡ headed h opcode [] }
{
    let mut o = [0; Message::OCTETS];
    lay(&mut o, 0, 6, h.destination.0);
    lay(&mut o, 6, 6, h.source.0);
    lay(&mut o, 12, 2, Message::KIND);
    lay(&mut o, 14, 2, opcode);
    lay(&mut o, 16, 4, u64::from(h.timestamp.0));
    o
}

fn lay_grant(o: &mut [u8; Message::OCTETS], at: usize, g: Grant)
    requires { at + 6 ≤ 60 }
    ensures { o.new ≡ grant_over at o.old g }
{
    lay(o, at, 4, u64::from(g.start.0));
    lay(o, at + 4, 2, u64::from(g.length.0));
}

fn force_bit(g: Grant) -> u8
    ensures value { result ≡ cond g.force 1 0 }
    ensures upper_bound { result ≤ 1 }
{
    u8::from(g.force)
}

fn force_bits(g: Grants) -> u8
    ensures value { result ≡ force_bits (listed g) }
    ensures upper_bound { result < 16 }
{
    match g {
        Grants::None => 0,
        Grants::One(a) => force_bit(a),
        Grants::Two(a, b) => force_bit(a) + 2 * force_bit(b),
        Grants::Three(a, b, c) => force_bit(a) + 2 * (force_bit(b) + 2 * force_bit(c)),
        Grants::Four(a, b, c, d) => {
            force_bit(a) + 2 * (force_bit(b) + 2 * (force_bit(c) + 2 * force_bit(d)))
        }
    }
}

fn number(g: Grants) -> u8
    ensures value { result ≡ length (listed g) }
    ensures upper_bound { result ≤ 4 }
{
    match g {
        Grants::None => 0,
        Grants::One(..) => 1,
        Grants::Two(..) => 2,
        Grants::Three(..) => 3,
        Grants::Four(..) => 4,
    }
}

// The first octet of a normal GATE.
fn normal_octet(g: Grants) -> u8
    ensures { result ≡ first_octet false (listed g) }
{
    number(g) + 16 * force_bits(g)
}

// The first octet of a discovery GATE: one grant, and bit 3.
fn discovery_octet(g: Grant) -> u8
    ensures { result ≡ first_octet true (g ∷ []) }
{
    9 + 16 * force_bit(g)
}

fn write_gate(h: Header, g: Grants) -> [u8; Message::OCTETS]
    ensures { result ≡ headed h 2 (gate_octets false (listed g)) }
{
    let mut o = begin(h, Body::GATE);
    lay(&mut o, 20, 1, u64::from(normal_octet(g)));
    match g {
        Grants::None => {}
        Grants::One(a) => lay_grant(&mut o, 21, a),
        Grants::Two(a, b) => {
            lay_grant(&mut o, 21, a);
            lay_grant(&mut o, 27, b);
        }
        Grants::Three(a, b, c) => {
            lay_grant(&mut o, 21, a);
            lay_grant(&mut o, 27, b);
            lay_grant(&mut o, 33, c);
        }
        Grants::Four(a, b, c, d) => {
            lay_grant(&mut o, 21, a);
            lay_grant(&mut o, 27, b);
            lay_grant(&mut o, 33, c);
            lay_grant(&mut o, 39, d);
        }
    }
    o
}

fn write_discovery(h: Header, grant: Grant, sync: Quanta) -> [u8; Message::OCTETS]
    ensures { result ≡ headed h 2 (body_octets (Body.Discovery grant sync)) }
{
    let mut o = begin(h, Body::GATE);
    lay(&mut o, 20, 1, u64::from(discovery_octet(grant)));
    lay_grant(&mut o, 21, grant);
    lay(&mut o, 27, 2, u64::from(sync.0));
    o
}

fn write_report(h: Header, s: Sets) -> [u8; Message::OCTETS]
    ensures { result ≡ headed h 3 (body_octets (Body.Report s)) }
{
    let used = frame_queues::used(&s.octets());
    let mut o = begin(h, Body::REPORT);
    o[20..].copy_from_slice(&s.cut(used).octets());
    o
}

fn write_register_req(h: Header, flag: RegisterReqFlag, pending: u8) -> [u8; Message::OCTETS]
    ensures { result ≡ headed h 4 (body_octets (Body.RegisterReq flag pending)) }
{
    let mut o = begin(h, Body::REGISTER_REQ);
    lay(&mut o, 20, 1, u64::from(flag.number()));
    lay(&mut o, 21, 1, u64::from(pending));
    o
}

fn write_register(
    h: Header,
    port: u16,
    flag: RegisterFlag,
    sync: Quanta,
    pending: u8,
) -> [u8; Message::OCTETS]
    ensures { result ≡ headed h 5 (body_octets (Body.Register port flag sync pending)) }
{
    let mut o = begin(h, Body::REGISTER);
    lay(&mut o, 20, 2, u64::from(port));
    lay(&mut o, 22, 1, u64::from(flag.number()));
    lay(&mut o, 23, 2, u64::from(sync.0));
    lay(&mut o, 25, 1, u64::from(pending));
    o
}

fn write_register_ack(
    h: Header,
    flag: RegisterAckFlag,
    port: u16,
    sync: Quanta,
) -> [u8; Message::OCTETS]
    ensures { result ≡ headed h 6 (body_octets (Body.RegisterAck flag port sync)) }
{
    let mut o = begin(h, Body::REGISTER_ACK);
    lay(&mut o, 20, 1, u64::from(flag.number()));
    lay(&mut o, 21, 2, u64::from(port));
    lay(&mut o, 23, 2, u64::from(sync.0));
    o
}

fn write_body(h: Header, body: Body) -> [u8; Message::OCTETS]
    ensures { result ≡ headed h (opcode_of body) (body_octets body) }
{
    match body {
        Body::Gate(g) => write_gate(h, g),
        Body::Discovery { grant, sync } => write_discovery(h, grant, sync),
        Body::Report(s) => write_report(h, s),
        Body::RegisterReq { flag, pending } => write_register_req(h, flag, pending),
        Body::Register {
            port,
            flag,
            sync,
            pending,
        } => write_register(h, port, flag, sync, pending),
        Body::RegisterAck { flag, port, sync } => write_register_ack(h, flag, port, sync),
    }
}

// The frame that carries the message; else 4, and zeros.
pub fn write(m: Message) -> Writing
    ensures { result ≡ write_of m }
{
    if !frame_range::message(m) {
        return Writing {
            reply: Reply::Range,
            octets: [0; Message::OCTETS],
        };
    }
    let h = Header {
        destination: m.destination,
        source: m.source,
        timestamp: m.timestamp,
    };
    Writing {
        reply: Reply::Done,
        octets: write_body(h, m.body),
    }
}
