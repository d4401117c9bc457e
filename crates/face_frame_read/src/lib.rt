// Reading a frame: octets straight into the words of its message.
#![tactic(auto)]

ghost use Rattle.std.specs.Prelude.{◌≡◌, [], ◌∷◌, ◌<◌, leb, drop};
ghost use Rattle.octets.specs.Octets.{field_of};
ghost use Rattle.frame.specs.Reading.{one_of, gate_in_range, source_in_range};
ghost use Rattle.frame_queues.specs.Queues.{used_of};
ghost use Rattle.frame_reader.specs.Decode.{gate_at, report_at, register_req_at, register_at, register_ack_at};
ghost use Rattle.face_frame_read.specs.Read.{read_left, read_call};
ghost use Rattle.face_frame_read.specs.Steps.{answered, headed, in_range, ranged, word_at, discovery_read, grants_read, control_read, frame_read};

use face_words::SHORT;
use frame::{Address, Body, Message, Reply};
use frame_queues::Sets;
use octets::field;

// Octets of a body.
const BODY: usize = 40;

type Frame = [u8; Message::OCTETS];

// Destination, source, timestamp, kind, and six words of the body.
type Words = [u64; 10];

// A grant in a word, start above length; 0 where there is none.
fn grant(s: &Frame, at: usize, there: bool) -> u64
    requires { at < 60 }
    ensures { result ≡ word_at s.now at there }
{
    if there {
        return face_words::join(field(s, at, 4) as u32, field(s, at + 4, 2) as u32);
    }
    0
}

// The message of a frame, of such a kind and with such a body, if its source is in range.
fn take(s: &Frame, m: &mut Words, kind: u64, body: [u64; 6]) -> Result<(), Reply>
    ensures { answered result m.new ≡ in_range (source_in_range s.now) (headed s.now (kind ∷ body)) }
{
    let source = field(s, 6, 6);
    if !frame_range::individual(Address(source)) {
        return Err(Reply::Range);
    }
    let destination = field(s, 0, 6);
    let timestamp = field(s, 16, 4);
    let [a, b, c, d, e, f] = body;
    *m = [destination, source, timestamp, kind, a, b, c, d, e, f];
    Ok(())
}

fn read_discovery(s: &Frame, m: &mut Words) -> Result<(), Reply>
    ensures { answered result m.new ≡ discovery_read s.now }
{
    let f = field(s, 20, 1);
    let n = f % 8;
    if (n == 1) & (f >> (n + 4) == 0) {
        let sync = field(s, 27, 2);
        return take(s, m, 1, [sync, f / 16, grant(s, 21, true), 0, 0, 0]);
    }
    Err(Reply::Range)
}

fn read_grants(s: &Frame, m: &mut Words) -> Result<(), Reply>
    ensures { answered result m.new ≡ grants_read s.now }
{
    let f = field(s, 20, 1);
    let n = f % 8;
    if (n <= 4) & (f >> (n + 4) == 0) {
        let a = grant(s, 21, 0 < n);
        let b = grant(s, 27, 1 < n);
        let c = grant(s, 33, 2 < n);
        let d = grant(s, 39, 3 < n);
        return take(s, m, 0, [n, f / 16, a, b, c, d]);
    }
    Err(Reply::Range)
}

fn read_gate(s: &Frame, m: &mut Words) -> Result<(), Reply>
    ensures { answered result m.new ≡ ranged (gate_in_range (field_of s.now 20 1)) s.now (gate_at s.now) }
{
    if field(s, 20, 1) / 8 % 2 == 1 {
        return read_discovery(s, m);
    }
    read_grants(s, m)
}

fn read_report(s: &Frame, m: &mut Words) -> Result<(), Reply>
    ensures { answered result m.new ≡ ranged (leb (used_of (drop 20 s.now)) 40) s.now (report_at s.now) }
{
    let body = &s[20..];
    let used = frame_queues::used(body);
    if used <= BODY {
        let t = Sets::of(body).cut(used);
        return take(s, m, 2, [t.first, t.second, t.third, t.fourth, t.fifth, 0]);
    }
    Err(Reply::Range)
}

fn read_register_req(s: &Frame, m: &mut Words) -> Result<(), Reply>
    ensures { answered result m.new ≡ ranged (one_of (field_of s.now 20 1) (1 ∷ 3 ∷ [])) s.now (register_req_at s.now) }
{
    let flag = field(s, 20, 1);
    let pending = field(s, 21, 1);
    match flag {
        1 | 3 => take(s, m, 3, [flag, pending, 0, 0, 0, 0]),
        _ => Err(Reply::Range),
    }
}

fn read_register(s: &Frame, m: &mut Words) -> Result<(), Reply>
    ensures { answered result m.new ≡ ranged (one_of (field_of s.now 22 1) (1 ∷ 2 ∷ 3 ∷ 4 ∷ [])) s.now (register_at s.now) }
{
    let port = field(s, 20, 2);
    let flag = field(s, 22, 1);
    let sync = field(s, 23, 2);
    let pending = field(s, 25, 1);
    match flag {
        1..=4 => take(s, m, 4, [flag, port, sync, pending, 0, 0]),
        _ => Err(Reply::Range),
    }
}

fn read_register_ack(s: &Frame, m: &mut Words) -> Result<(), Reply>
    ensures { answered result m.new ≡ ranged (one_of (field_of s.now 20 1) (0 ∷ 1 ∷ [])) s.now (register_ack_at s.now) }
{
    let flag = field(s, 20, 1);
    let port = field(s, 21, 2);
    let sync = field(s, 23, 2);
    match flag {
        0..=1 => take(s, m, 5, [flag, port, sync, 0, 0, 0]),
        _ => Err(Reply::Range),
    }
}

// Of a frame of the right type.
fn read_control(s: &Frame, m: &mut Words) -> Result<(), Reply>
    ensures { answered result m.new ≡ control_read s.now }
{
    match field(s, 14, 2) {
        Body::GATE => read_gate(s, m),
        Body::REPORT => read_report(s, m),
        Body::REGISTER_REQ => read_register_req(s, m),
        Body::REGISTER => read_register(s, m),
        Body::REGISTER_ACK => read_register_ack(s, m),
        _ => Err(Reply::Opcode),
    }
}

fn read_frame(octets: &[u8], m: &mut Words) -> Result<(), Reply>
    ensures { answered result m.new ≡ frame_read octets.now }
{
    let Some(s) = octets.as_array() else {
        return Err(Reply::Size);
    };
    if field(s, 12, 2) != Message::KIND {
        return Err(Reply::Kind);
    }
    read_control(s, m)
}

// The words of the message that the octets carry; on a refusal those of the blank one, a REPORT of nobody to nobody.
pub fn read(octets: &[u8], message: &mut [u64]) -> u8
    ensures { read_left result message.new ≡ read_call octets.now message.old }
{
    let Some(m) = message.first_chunk_mut() else {
        return SHORT;
    };
    match read_frame(octets, m) {
        Ok(()) => Reply::Done.number(),
        Err(reply) => {
            *m = [0, 0, 0, 2, 0, 0, 0, 0, 0, 0];
            reply.number()
        }
    }
}
