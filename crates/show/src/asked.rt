// What a line asks for, and the answer.
use crate::frames::{Shown, WITHOUT_FRAME};
use crate::hex;
use clock::Count;
use frame::{Message, Reply};
use script::out::Octets;
use std::io;
use std::io::Write;

// The most that a frame's digits spell.
pub const LONGEST: usize = 256;

#[derive(Clone, Copy)]
pub enum Asked<'a> {
    // What a frame says.
    Reading(&'a [u8]),
    // What the writer says to messages that have no frame.
    Writing,
}

fn answer_reading(writer: &mut impl Write, octets: &[u8]) -> io::Result<()> {
    let reading = frame_reader::read(octets);
    write!(writer, "read {}", reading.reply.number())?;
    if reading.reply == Reply::Done {
        let writing = frame_writer::write(reading.message);
        write!(
            writer,
            "{} frame {}",
            Shown(reading.message),
            Octets(&writing.octets)
        )?;
    }
    Ok(())
}

fn answer_writing(writer: &mut impl Write) -> io::Result<()> {
    for (place, (destination, source, body)) in WITHOUT_FRAME.iter().copied().enumerate() {
        if place > 0 {
            writeln!(writer)?;
        }
        let writing = frame_writer::write(Message {
            destination,
            source,
            timestamp: Count(1),
            body,
        });
        let number = writing.reply.number();
        write!(writer, "write {number} frame {}", Octets(&writing.octets))?;
    }
    Ok(())
}

impl<'a> Asked<'a> {
    // Digits of a frame, `-` for one of no octets, or `write`.
    pub fn by(line: &[u8], space: &'a mut [u8; LONGEST]) -> Option<Asked<'a>> {
        match line {
            b"write" => Some(Asked::Writing),
            b"-" => Some(Asked::Reading(&[])),
            _ => Some(Asked::Reading(hex::octets(line, space)?)),
        }
    }

    pub fn answer(self, writer: &mut impl Write) -> io::Result<()> {
        match self {
            Asked::Reading(octets) => answer_reading(writer, octets),
            Asked::Writing => answer_writing(writer),
        }
    }
}
