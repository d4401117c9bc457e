// What a box answers, in words.
use box_calls::{Answer, FloorBox};
use box_light::{Light, Phase};
use box_processes::Processes;
use box_registration::{Registration, State};
use box_telling::{Frames, Notice, Notices};
use frame::Reply;
use script::out::{Octets, Told};
use std::io;
use std::io::Write;

pub fn phase(light: Light) -> &'static str {
    match light.phase {
        Phase::Rest => "rest",
        Phase::Before { .. } => "before",
        Phase::Random { .. } => "random",
        Phase::Warming => "laser",
        Phase::Asking => "asking",
        Phase::Due { .. } => "due",
        Phase::Lit { .. } => "lit",
        Phase::Open => "open",
        Phase::Fading => "fading",
    }
}

fn state(registration: Registration) -> &'static str {
    match registration.state {
        State::Wait => "WAIT",
        State::Registering => "REGISTERING",
        State::RegisterReq => "REGISTER_REQ",
        State::Registered => "REGISTERED",
    }
}

// Count, state, light and the number of grants held.
pub fn tell_box(writer: &mut impl Write, b: FloorBox) -> io::Result<()> {
    let Processes {
        count,
        registration,
        list,
        light,
    } = b.processes;
    write!(writer, " count {} {}", count.0, state(registration))?;
    write!(writer, " {} held {}", phase(light), list.number)
}

// The ticks that are left, 0 where a timer is stopped.
pub fn tell_timers(writer: &mut impl Write, b: FloorBox) -> io::Result<()> {
    let Registration {
        wait,
        watchdog,
        report,
        ..
    } = b.processes.registration;
    write!(writer, " wait {} watchdog {}", wait.left, watchdog.left)?;
    write!(writer, " report {}", report.left)
}

fn tell_notice(writer: &mut impl Write, notice: Notice) -> io::Result<()> {
    match notice {
        Notice::Nothing => Ok(()),
        Notice::Granted(grant) => write!(writer, "; granted{}", Told(grant)),
        Notice::Window => write!(writer, "; window"),
        Notice::Registered => write!(writer, "; registered"),
        Notice::Refused => write!(writer, "; refused"),
        Notice::Retry => write!(writer, "; retry"),
        Notice::Deregistered => write!(writer, "; deregistered"),
        Notice::Open => write!(writer, "; open"),
        Notice::Close => write!(writer, "; close"),
    }
}

fn tell_notices(writer: &mut impl Write, notices: Notices) -> io::Result<()> {
    let Notices {
        first,
        second,
        third,
        fourth,
    } = notices;
    for notice in [first, second, third, fourth] {
        tell_notice(writer, notice)?;
    }
    Ok(())
}

// As the reader of frames reads it.
fn tell_frame(writer: &mut impl Write, octets: &[u8]) -> io::Result<()> {
    let reading = frame_reader::read(octets);
    if reading.reply == Reply::Done {
        write!(writer, ";{}", Told(reading.message))
    } else {
        write!(writer, "; no frame")
    }
}

fn tell_frames(writer: &mut impl Write, frames: Frames) -> io::Result<()> {
    let Frames {
        number,
        first,
        second,
    } = frames;
    for octets in [first, second].iter().take(number) {
        tell_frame(writer, octets)?;
    }
    Ok(())
}

pub fn tell_octets(writer: &mut impl Write, frames: Frames) -> io::Result<()> {
    let Frames {
        number,
        first,
        second,
    } = frames;
    for octets in [first, second].iter().take(number) {
        write!(writer, " {}", Octets(octets))?;
    }
    Ok(())
}

pub fn tell(writer: &mut impl Write, a: Answer) -> io::Result<()> {
    write!(writer, " -> {}", a.reply.number())?;
    if a.drift != 0 {
        write!(writer, " drift {}", a.drift)?;
    }
    tell_box(writer, a.next)?;
    tell_notices(writer, a.notices)?;
    tell_frames(writer, a.frames)
}
