// Runs a head through the calls that standard input asks for, a line each, and shows what it answers.
#![tactic(auto)]

mod asked;
mod asking;
mod hand;
mod run;
mod state;
mod tell;

use asked::Asked;
use script::input::Input;
use script::{input, words};
use state::Desk;
use std::io;
use std::io::Write;

fn run_line(writer: &mut impl Write, desk: &mut Desk, line: &[u8]) -> io::Result<()> {
    writer.write_all(line)?;
    if words::passed_on(line) {
        return writeln!(writer);
    }
    match Asked::by(line) {
        Some(asked) => run::answer(writer, desk, asked),
        None => writeln!(writer, " -> ?"),
    }
}

fn main(rt: HostRuntime) -> io::Result<()> {
    let mut space = [0; input::MOST];
    let input = Input::read(&mut rt.stdin(), &mut space)?;
    let mut desk = Desk::first();
    for line in input.lines() {
        run_line(&mut rt.stdout(), &mut desk, line)?;
    }
    input.tell_cut(&rt, "desk")
}
