// The head's calls, each with what is shown of it.
use crate::asked::Asked;
use crate::state::Desk;
use crate::{hand, tell};
use frame::Address;
use head_judging::Call;
use std::io;
use std::io::Write;

fn begun(desk: Desk, address: Address) -> Desk {
    let mut next = desk;
    let Desk {
        head,
        links,
        told,
        ..
    } = &mut next;
    next.number = face_head_calls::begun(address, head, links, told);
    next
}

// Over as much of the output as is lent.
fn served(desk: Desk, call: Call) -> Desk {
    let Desk {
        mut head,
        mut links,
        mut out,
        lent,
        ..
    } = desk;
    let mut told = [0; 10];
    let mut made = [0];
    let room = &mut out[..lent.min(Desk::OUTPUT)];
    let number = match call {
        Call::Tick => face_head_calls::tick(&mut head, &mut links, room, &mut told),
        Call::Advance(n) => {
            face_head_calls::advance(n, &mut head, &mut links, room, &mut told, &mut made)
        }
        _ => face_head_calls::served(call, &mut head, &mut links, room, &mut told),
    };
    Desk {
        head,
        links,
        out,
        lent,
        number,
        told,
        made: made[0],
    }
}

fn fresh(writer: &mut impl Write, desk: &mut Desk, address: Address) -> io::Result<()> {
    let before = *desk;
    *desk = begun(before, address);
    tell::tell_answer(writer, &before, desk)?;
    writeln!(writer, "; address {:012x}", desk.head[0])
}

fn ask(writer: &mut impl Write, desk: &mut Desk, call: Call) -> io::Result<()> {
    let before = *desk;
    *desk = served(before, call);
    tell::tell_served(writer, &before, desk)
}

// Whether an answer to a tick refuses or sends, or the window's phase or a link is another one.
fn matters(before: &Desk, after: &Desk) -> bool {
    after.number != 0
        || after.told[0] > 0
        || before.head[2] != after.head[2]
        || tell::changed(before, after)
}

// The k-th tick of a line.
fn tick(writer: &mut impl Write, desk: &mut Desk, k: u64) -> io::Result<()> {
    let before = *desk;
    *desk = served(before, Call::Tick);
    if matters(&before, desk) {
        write!(writer, "  {k}")?;
        tell::tell_served(writer, &before, desk)?;
    }
    Ok(())
}

fn ticks(writer: &mut impl Write, desk: &mut Desk, number: u64) -> io::Result<()> {
    writeln!(writer)?;
    for k in 1..=number {
        tick(writer, desk, k)?;
    }
    Ok(())
}

fn advance(writer: &mut impl Write, desk: &mut Desk, number: u64) -> io::Result<()> {
    ask(writer, desk, Call::Advance(number))?;
    writeln!(writer, "  made {}", desk.made)
}

// A desk as it was, and as it is handed in again.
fn handed(writer: &mut impl Write, desk: &mut Desk, part: hand::Part) -> io::Result<()> {
    let before = *desk;
    *desk = hand::with(before, part);
    write!(writer, " ->")?;
    tell::tell_state(writer, &before, desk)?;
    writeln!(writer)
}

fn output(writer: &mut impl Write, desk: &mut Desk, lent: usize) -> io::Result<()> {
    desk.lent = lent;
    writeln!(writer, " -> output {lent}")
}

pub fn answer(writer: &mut impl Write, desk: &mut Desk, asked: Asked) -> io::Result<()> {
    match asked {
        Asked::Fresh(address) => fresh(writer, desk, address),
        Asked::Call(call) => ask(writer, desk, call),
        Asked::Ticks(number) => ticks(writer, desk, number),
        Asked::Advance(number) => advance(writer, desk, number),
        Asked::Output(lent) => output(writer, desk, lent),
        Asked::Octets => tell::tell_octets(writer, desk),
        Asked::Timers => tell::tell_timers(writer, desk),
        Asked::Hand(part) => handed(writer, desk, part),
    }
}
