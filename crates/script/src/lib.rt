// What programs that run a script of calls share: standard input, the words of a line, messages by name, and what a frame says.
#![tactic(auto)]

pub mod frames;
pub mod input;
pub mod messages;
pub mod out;
pub mod sets;
pub mod words;
