// What a head answers, in words.
use crate::state::Desk;
use frame::Reply;
use frame_queues::Sets;
use script::out::{Octets, Told};
use std::io;
use std::io::Write;

// Words of a link: address, state, and the ticks that are left of its timers.
const LINK: usize = 5;

// Octets of a frame.
const FRAME: usize = 60;

fn links(desk: &Desk) -> &[[u64; LINK]] {
    desk.links.as_chunks().0
}

// Count and window.
fn tell_head(writer: &mut impl Write, head: [u64; 5]) -> io::Result<()> {
    let [_, count, phase, left, _] = head;
    match phase {
        0 => write!(writer, " count {count} idle"),
        1 => write!(writer, " count {count} before {left}"),
        _ => write!(writer, " count {count} inside {left}"),
    }
}

fn state(number: u64) -> &'static str {
    match number {
        0 => "idle",
        1 => "waiting",
        _ => "registered",
    }
}

// Whether address or state is another one.
fn differs(before: &[u64; LINK], after: &[u64; LINK]) -> bool {
    before[0] != after[0] || before[1] != after[1]
}

pub fn changed(before: &Desk, after: &Desk) -> bool {
    links(before)
        .iter()
        .zip(links(after))
        .any(|(before, after)| differs(before, after))
}

// The head, and the links that are others.
pub fn tell_state(writer: &mut impl Write, before: &Desk, after: &Desk) -> io::Result<()> {
    tell_head(writer, after.head)?;
    for ((before, after), number) in links(before).iter().zip(links(after)).zip(1u64..) {
        if differs(before, after) {
            let [address, at, ..] = *after;
            write!(writer, "; link {number} {} {address:012x}", state(at))?;
        }
    }
    Ok(())
}

// What every answer shows before its notice and frames.
pub fn tell_answer(writer: &mut impl Write, before: &Desk, after: &Desk) -> io::Result<()> {
    write!(writer, " -> {}", after.number)?;
    tell_state(writer, before, after)
}

// The ticks that are left, 0 where a timer is stopped.
pub fn tell_timers(writer: &mut impl Write, desk: &Desk) -> io::Result<()> {
    write!(writer, " ->")?;
    for (link, number) in links(desk).iter().zip(1u64..) {
        let semicolon = if number > 1 { ";" } else { "" };
        let [_, _, wait, watchdog, periodic] = *link;
        write!(writer, "{semicolon} link {number} wait {wait}")?;
        write!(writer, " watchdog {watchdog} periodic {periodic}")?;
    }
    writeln!(writer)
}

fn kind(number: u64) -> &'static str {
    match number {
        1 => "request heard",
        2 => "registered",
        3 => "dropped",
        _ => "report heard",
    }
}

fn tell_notice(writer: &mut impl Write, told: [u64; 10]) -> io::Result<()> {
    let [
        _,
        notices,
        number,
        link,
        trip,
        first,
        second,
        third,
        fourth,
        fifth,
    ] = told;
    if notices > 0 {
        let sets = Sets {
            first,
            second,
            third,
            fourth,
            fifth,
        };
        write!(writer, "; {} link {link}", kind(number))?;
        write!(writer, " round trip {trip}{}", Told(sets))?;
    }
    Ok(())
}

// As the reader of frames reads it.
fn tell_frame(writer: &mut impl Write, octets: &[u8]) -> io::Result<()> {
    let reading = frame_reader::read(octets);
    if reading.reply == Reply::Done {
        let message = reading.message;
        write!(
            writer,
            "; to {:012x}{}",
            message.destination.0,
            Told(message)
        )
    } else {
        write!(writer, "; no frame")
    }
}

pub fn tell_served(writer: &mut impl Write, before: &Desk, after: &Desk) -> io::Result<()> {
    tell_answer(writer, before, after)?;
    tell_notice(writer, after.told)?;
    // The frames stand in the output, one behind the other from its start.
    for (octets, _) in after.out.chunks_exact(FRAME).zip(0..after.told[0]) {
        tell_frame(writer, octets)?;
    }
    writeln!(writer)
}

pub fn tell_octets(writer: &mut impl Write, desk: &Desk) -> io::Result<()> {
    writeln!(writer)?;
    for octets in desk.out.chunks_exact(FRAME) {
        writeln!(writer, "  {}", Octets(octets))?;
    }
    Ok(())
}
