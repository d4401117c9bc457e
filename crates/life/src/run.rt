// The box's calls, each with what is shown of it; the last answer holds the box.
ghost use Rattle.std.specs.Prelude.{◌≤◌};

use crate::calls::{Call, Look};
use crate::{hand, tell};
use box_calls::{Answer, FloorBox};
use box_telling::{Frames, Notices};
use frame::{Address, Reply};
use std::io;
use std::io::Write;

const LONGEST_FRAME: usize = 2048;

fn fresh(writer: &mut impl Write, address: Address) -> io::Result<Answer> {
    let a = FloorBox::fresh(address);
    tell::tell(writer, a)?;
    writeln!(writer, "; address {:012x}", a.next.address.0)?;
    Ok(a)
}

fn told(writer: &mut impl Write, a: Answer) -> io::Result<Answer> {
    tell::tell(writer, a)?;
    writeln!(writer)?;
    Ok(a)
}

fn handed(writer: &mut impl Write, next: FloorBox) -> io::Result<Answer> {
    write!(writer, " ->")?;
    tell::tell_box(writer, next)?;
    writeln!(writer)?;
    Ok(Answer {
        reply: Reply::Done,
        drift: 0,
        next,
        frames: Frames::none(),
        notices: Notices::none(),
    })
}

// Whether an answer to a tick tells, sends or refuses, or the light's phase is another one.
fn matters(b: FloorBox, a: Answer) -> bool {
    a.reply != Reply::Done
        || a.frames.number > 0
        || !a.notices.first.is_nothing()
        || tell::phase(b.processes.light) != tell::phase(a.next.processes.light)
}

// The k-th tick of a line.
fn tick(writer: &mut impl Write, b: FloorBox, k: u64) -> io::Result<Answer> {
    let a = b.tick();
    if matters(b, a) {
        write!(writer, "  {k}")?;
        return told(writer, a);
    }
    Ok(a)
}

fn ticks(writer: &mut impl Write, last: Answer, number: u64) -> io::Result<Answer> {
    writeln!(writer)?;
    let mut a = last;
    for k in 1..=number {
        a = tick(writer, a.next, k)?;
    }
    Ok(a)
}

fn advance(writer: &mut impl Write, b: FloorBox, number: u64) -> io::Result<Answer> {
    let advanced = b.advance(number);
    let a = told(writer, advanced.answer)?;
    writeln!(writer, "  made {}", advanced.made)?;
    Ok(a)
}

fn tell_sent(writer: &mut impl Write, frame: &[u8]) -> io::Result<()> {
    match frame {
        [] => write!(writer, " nothing"),
        [b'c', ..] => write!(writer, " control {}", frame.len()),
        _ => write!(writer, " data {}", frame.len()),
    }
}

fn at_most(n: u64) -> usize
    ensures { result ≤ 2048 }
{
    n.min(LONGEST_FRAME as u64) as usize
}

// Frames that their first octet tells apart.
fn send(writer: &mut impl Write, b: FloorBox, control: u64, data: u64) -> io::Result<()> {
    let c = [b'c'; LONGEST_FRAME];
    let d = [b'd'; LONGEST_FRAME];
    tell_sent(
        writer,
        b.next_to_send(&c[..at_most(control)], &d[..at_most(data)]),
    )
}

fn look(writer: &mut impl Write, last: Answer, at: Look) -> io::Result<Answer> {
    write!(writer, " ->")?;
    match at {
        Look::Send(control, data) => send(writer, last.next, control, data)?,
        Look::Octets => tell::tell_octets(writer, last.frames)?,
        Look::Timers => tell::tell_timers(writer, last.next)?,
    }
    writeln!(writer)?;
    Ok(last)
}

pub fn answer(writer: &mut impl Write, last: Answer, call: Call) -> io::Result<Answer> {
    let b = last.next;
    match call {
        Call::Fresh(address) => fresh(writer, address),
        Call::Register => told(writer, b.register()),
        Call::Deregister => told(writer, b.deregister()),
        Call::Report(sets) => told(writer, b.report(sets)),
        Call::Hear(message, random) => told(writer, b.hear(message, random)),
        Call::Tick(number) => ticks(writer, last, number),
        Call::Advance(number) => advance(writer, b, number),
        Call::Hand(part) => handed(writer, hand::with(b, part)),
        Call::Look(at) => look(writer, last, at),
    }
}
