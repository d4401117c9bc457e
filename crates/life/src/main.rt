// Runs a floor box through the calls that standard input asks for, a line each, and shows what it answers.
#![tactic(auto)]

mod calls;
mod hand;
mod run;
mod tell;

use box_calls::{Answer, FloorBox};
use calls::Call;
use frame::Address;
use script::input::Input;
use script::{input, words};
use std::io;
use std::io::Write;

fn run_line(writer: &mut impl Write, last: Answer, line: &[u8]) -> io::Result<Answer> {
    writer.write_all(line)?;
    if words::passed_on(line) {
        writeln!(writer)?;
        return Ok(last);
    }
    match Call::by(line) {
        Some(call) => run::answer(writer, last, call),
        None => {
            writeln!(writer, " -> ?")?;
            Ok(last)
        }
    }
}

fn main(rt: HostRuntime) -> io::Result<()> {
    let mut space = [0; input::MOST];
    let input = Input::read(&mut rt.stdin(), &mut space)?;
    // Before the first fresh box there is a refused one.
    let mut last = FloorBox::fresh(Address(0));
    for line in input.lines() {
        last = run_line(&mut rt.stdout(), last, line)?;
    }
    input.tell_cut(&rt, "life")
}
