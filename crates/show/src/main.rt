// Shows what control frames say: a line of answer for each line of standard input.
#![tactic(auto)]

mod asked;
mod frames;
mod hex;

use asked::{Asked, LONGEST};
use script::input::Input;
use script::{input, words};
use std::io;
use std::io::Write;

fn show_line(writer: &mut impl Write, line: &[u8], number: u64) -> io::Result<()> {
    if words::passed_on(line) {
        writer.write_all(line)?;
    } else {
        match Asked::by(line, &mut [0; LONGEST]) {
            Some(asked) => asked.answer(writer)?,
            None => write!(writer, "? {number}")?,
        }
    }
    writeln!(writer)
}

fn main(rt: HostRuntime) -> io::Result<()> {
    let mut space = [0; input::MOST];
    let input = Input::read(&mut rt.stdin(), &mut space)?;
    for (line, number) in input.lines().zip(1u64..) {
        show_line(&mut rt.stdout(), line, number)?;
    }
    input.tell_cut(&rt, "show")
}
