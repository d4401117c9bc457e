// Writing a frame: the words of a message straight into octets.
#![tactic(auto)]

ghost use Rattle.std.specs.Prelude.{◌≡◌, cond, eqb, [], ◌+◌, ◌≤◌};
ghost use Rattle.octets.specs.Octets.{bytes};
ghost use Rattle.octets.specs.Over.{over};
ghost use Rattle.face_frame_write.specs.Write.{write_left, write_call};
ghost use Rattle.face_frame_write.specs.Steps.{answered, header_in, grant_in, force_in, gate_in, grant_over, sets_over, framed, gate_laid, discovery_laid, report_laid, register_req_laid, register_laid, register_ack_laid, body_laid, message_laid};

use face_words::SHORT;
use frame::{Address, Body, Message, Reply};
use frame_queues::Sets;

type Frame = [u8; Message::OCTETS];

// What a frame has before its body, but for type and opcode, in words that are still to be judged.
#[derive(Clone, Copy)]
struct Header {
    destination: u64,
    source: u64,
    timestamp: u64,
}

impl Header {
    fn is_in_range(self) -> bool
        ensures { result ≡ header_in self }
    {
        (self.destination <= Address::LARGEST.0)
            & frame_range::individual(Address(self.source))
            & (self.timestamp <= 0xFFFFFFFF)
    }

    // A frame with an empty body.
    fn begin(self, o: &mut Frame, opcode: u64)
        ensures { o.new ≡ framed self opcode [] }
    {
        *o = [0; Message::OCTETS];
        lay(o, 0, 6, self.destination);
        lay(o, 6, 6, self.source);
        lay(o, 12, 2, Message::KIND);
        lay(o, 14, 2, opcode);
        lay(o, 16, 4, self.timestamp);
    }
}

// The n octets of x, written over `o` from `at`.
fn lay(o: &mut Frame, at: usize, n: usize, x: u64)
    requires { at + n ≤ 60 }
    ensures { o.new ≡ over at o.old (bytes n x) }
{
    octets::put(&mut o[at..at + n], x);
}

// A grant from a word, start above length; zeros where there is none.
fn lay_grant(o: &mut Frame, at: usize, grant: u64)
    requires { at + 6 ≤ 60 }
    ensures { o.new ≡ grant_over at o.old grant }
{
    lay(o, at, 4, u64::from(face_words::upper(grant)));
    lay(o, at + 4, 2, u64::from(face_words::lower(grant)));
}

fn grant_in(grant: u64, there: bool) -> bool
    ensures { result ≡ grant_in grant there }
{
    if there {
        return face_words::lower(grant) <= 0xFFFF;
    }
    grant == 0
}

fn force_in(force: u64, n: u64) -> bool
    ensures { result ≡ force_in force n }
{
    if n <= 4 {
        return force >> n == 0;
    }
    false
}

fn gate_in(body: [u64; 6]) -> bool
    ensures { result ≡ gate_in body }
{
    let [n, force, a, b, c, d] = body;
    force_in(force, n)
        & grant_in(a, 0 < n)
        & grant_in(b, 1 < n)
        & grant_in(c, 2 < n)
        & grant_in(d, 3 < n)
}

// Grants that aren't there are pad.
fn write_gate(o: &mut Frame, h: Header, body: [u64; 6]) -> Result<(), Reply>
    ensures { answered result o.new ≡ gate_laid h body }
{
    if !gate_in(body) {
        return Err(Reply::Range);
    }
    let [n, force, a, b, c, d] = body;
    h.begin(o, Body::GATE);
    lay(o, 20, 1, n % 8 + 16 * (force % 16));
    lay_grant(o, 21, a);
    lay_grant(o, 27, b);
    lay_grant(o, 33, c);
    lay_grant(o, 39, d);
    Ok(())
}

// One grant, the discovery bit, and whether the grant's force bit.
fn first_octet(force: u64) -> u64
    ensures { result ≡ cond (eqb force 1) 25 9 }
{
    if force == 1 { 25 } else { 9 }
}

fn write_discovery(o: &mut Frame, h: Header, body: [u64; 6]) -> Result<(), Reply>
    ensures { answered result o.new ≡ discovery_laid h body }
{
    match body {
        [sync @ ..=0xFFFF, force @ ..=1, grant, 0, 0, 0] if grant_in(grant, true) => {
            h.begin(o, Body::GATE);
            lay(o, 20, 1, first_octet(force));
            lay_grant(o, 21, grant);
            lay(o, 27, 2, sync);
            Ok(())
        }
        _ => Err(Reply::Range),
    }
}

// Eight octets. With 0 apart the compiler has a block for each word, and in a block of its own a word is one store.
fn lay_word(o: &mut Frame, at: usize, x: u64)
    requires { at + 8 ≤ 60 }
    ensures { o.new ≡ over at o.old (bytes 8 x) }
{
    if x == 0 {
        lay(o, at, 8, 0);
    } else {
        lay(o, at, 8, x);
    }
}

// The forty octets of a REPORT's body.
fn lay_sets(o: &mut Frame, s: Sets)
    ensures { o.new ≡ sets_over o.old s }
{
    lay_word(o, 20, s.first);
    lay_word(o, 28, s.second);
    lay_word(o, 36, s.third);
    lay_word(o, 44, s.fourth);
    lay_word(o, 52, s.fifth);
}

// Most REPORTs are empty. Where sets end is told from the octets once they are laid.
fn write_report(o: &mut Frame, h: Header, body: [u64; 6]) -> Result<(), Reply>
    ensures { answered result o.new ≡ report_laid h body }
{
    let [first, second, third, fourth, fifth, 0] = body else {
        return Err(Reply::Range);
    };
    let sets = Sets {
        first,
        second,
        third,
        fourth,
        fifth,
    };
    h.begin(o, Body::REPORT);
    if sets == Sets::NONE {
        return Ok(());
    }
    lay_sets(o, sets);
    let used = frame_queues::used(&o[20..]);
    if !sets.ends(used) {
        return Err(Reply::Range);
    }
    Ok(())
}

fn write_register_req(o: &mut Frame, h: Header, body: [u64; 6]) -> Result<(), Reply>
    ensures { answered result o.new ≡ register_req_laid h body }
{
    match body {
        [flag @ (1 | 3), pending @ ..=0xFF, 0, 0, 0, 0] => {
            h.begin(o, Body::REGISTER_REQ);
            lay(o, 20, 1, flag);
            lay(o, 21, 1, pending);
            Ok(())
        }
        _ => Err(Reply::Range),
    }
}

fn write_register(o: &mut Frame, h: Header, body: [u64; 6]) -> Result<(), Reply>
    ensures { answered result o.new ≡ register_laid h body }
{
    match body {
        [
            flag @ 1..=4,
            port @ ..=0xFFFF,
            sync @ ..=0xFFFF,
            pending @ ..=0xFF,
            0,
            0,
        ] => {
            h.begin(o, Body::REGISTER);
            lay(o, 20, 2, port);
            lay(o, 22, 1, flag);
            lay(o, 23, 2, sync);
            lay(o, 25, 1, pending);
            Ok(())
        }
        _ => Err(Reply::Range),
    }
}

fn write_register_ack(o: &mut Frame, h: Header, body: [u64; 6]) -> Result<(), Reply>
    ensures { answered result o.new ≡ register_ack_laid h body }
{
    match body {
        [flag @ ..=1, port @ ..=0xFFFF, sync @ ..=0xFFFF, 0, 0, 0] => {
            h.begin(o, Body::REGISTER_ACK);
            lay(o, 20, 1, flag);
            lay(o, 21, 2, port);
            lay(o, 23, 2, sync);
            Ok(())
        }
        _ => Err(Reply::Range),
    }
}

// By the kind of message.
fn write_body(o: &mut Frame, h: Header, kind: u64, body: [u64; 6]) -> Result<(), Reply>
    ensures { answered result o.new ≡ body_laid h kind body }
{
    match kind {
        0 => write_gate(o, h, body),
        1 => write_discovery(o, h, body),
        2 => write_report(o, h, body),
        3 => write_register_req(o, h, body),
        4 => write_register(o, h, body),
        5 => write_register_ack(o, h, body),
        _ => Err(Reply::Range),
    }
}

fn write_message(w: &[u64; 10], o: &mut Frame) -> Result<(), Reply>
    ensures { answered result o.new ≡ message_laid w.now }
{
    let [destination, source, timestamp, kind, a, b, c, d, e, f] = *w;
    let h = Header {
        destination,
        source,
        timestamp,
    };
    if !h.is_in_range() {
        return Err(Reply::Range);
    }
    write_body(o, h, kind, [a, b, c, d, e, f])
}

// The frame of the message that the words are the words of; else 4, and zeros.
pub fn write(message: &[u64], octets: &mut [u8]) -> u8
    ensures { write_left result octets.new ≡ write_call message.now octets.old }
{
    let Some(w) = message.first_chunk() else {
        return SHORT;
    };
    let Some(o) = octets.first_chunk_mut() else {
        return SHORT;
    };
    match write_message(w, o) {
        Ok(()) => Reply::Done.number(),
        Err(reply) => {
            *o = [0; Message::OCTETS];
            reply.number()
        }
    }
}
