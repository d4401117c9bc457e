// Sums 1 to 4 (R205 to R208), and timers.
#![tactic(auto)]

use clock::{Count, Quanta, Timer};
use std::io;
use std::io::Write;

fn show_numbers(writer: &mut impl Write) -> io::Result<()> {
    writeln!(
        writer,
        "# Numbers: laser-on time, watchdog, periodic GATE and REPORT, wait for REGISTER and REGISTER_ACK, furthest grant start"
    )?;
    write!(writer, "numbers")?;
    for length in [
        Quanta::LASER_ON,
        Timer::WATCHDOG,
        Timer::PERIODIC,
        Timer::WAIT,
        Count::FURTHEST,
    ] {
        write!(writer, " {}", length.0)?;
    }
    writeln!(writer)
}

fn show_distance(writer: &mut impl Write, from: Count, to: Count) -> io::Result<()> {
    let past = if from.is_past(to) { " past" } else { "" };
    writeln!(writer, "distance {}{past}", from.distance(to))
}

fn show_trip(writer: &mut impl Write, count: Count, timestamp: Count) -> io::Result<()> {
    writeln!(writer, "trip {}", count.round_trip(timestamp).0)
}

// A timer after some ticks, and the tick at which it rang.
fn run(setting: Quanta, ticks: u32) -> (Timer, Option<u32>) {
    let mut timer = Timer::stopped().start(setting);
    let mut rang = None;
    for tick in 1..=ticks {
        let ticked = timer.tick();
        timer = ticked.timer;
        if ticked.rang {
            rang = Some(tick);
        }
    }
    (timer, rang)
}

fn show_timer(writer: &mut impl Write, setting: Quanta, ticks: u32) -> io::Result<()> {
    let (timer, rang) = run(setting, ticks);
    write!(writer, "timer {}", timer.left)?;
    if let Some(tick) = rang {
        write!(writer, " rang at {tick}")?;
    }
    writeln!(writer)
}

fn show_sums(writer: &mut impl Write) -> io::Result<()> {
    writeln!(writer, "# Sum 1: from 0xFFFFFFFB to 5; and back")?;
    show_distance(writer, Count(0xFFFFFFFB), Count(5))?;
    show_distance(writer, Count(5), Count(0xFFFFFFFB))?;
    writeln!(
        writer,
        "# Sum 2: from 0 to 0x80000000; and to the count before it"
    )?;
    show_distance(writer, Count(0), Count(0x80000000))?;
    show_distance(writer, Count(0), Count(0x7FFFFFFF))?;
    writeln!(writer, "# Sum 3: equal counts")?;
    show_distance(writer, Count(7), Count(7))?;
    writeln!(
        writer,
        "# Sum 4: the head's count is 3, the timestamp 0xFFFFFFF0"
    )?;
    show_trip(writer, Count(3), Count(0xFFFFFFF0))
}

fn show_timers(writer: &mut impl Write) -> io::Result<()> {
    writeln!(writer, "# A timer of 3 ticks after 2, 3 and 4 of them")?;
    for ticks in 2..=4 {
        show_timer(writer, Quanta(3), ticks)?;
    }
    writeln!(
        writer,
        "# A stopped timer after 5 ticks, and the watchdog after a thousand"
    )?;
    show_timer(writer, Quanta(0), 5)?;
    show_timer(writer, Timer::WATCHDOG, 1000)
}

fn main(rt: HostRuntime) -> io::Result<()> {
    let mut writer = rt.stdout();
    show_numbers(&mut writer)?;
    show_sums(&mut writer)?;
    show_timers(&mut writer)
}
