// The lent table and the lent output: one event offered to every link in order, and the frames that come of it.
#![tactic(auto)]

ghost use Rattle.std.specs.Prelude.{◌≡◌, ◌+◌, ◌<◌, length, get_or, set};
ghost use Rattle.lent.specs.Folds.{each};
ghost use Rattle.head_links.specs.Link.{idle};
ghost use Rattle.head_table.specs.Events.{port_of, react_of, driven_of, turns_of};
ghost use Rattle.head_table.specs.Output.{output, pasted, note_of, note_link};

use clock::Count;
use frame::{Address, Body, Message};
use head_links::{Change, Link, Stepped};

// What is offered to every link in order.
#[derive(Clone, Copy)]
pub enum Event {
    Nothing,
    Clear,
    Tick,
    // So many ticks at which no link rings, and one more.
    Leap(u32),
    At(usize, Change),
}

// What every frame of the head carries: its own address and its count.
#[derive(Clone, Copy)]
pub struct Sender {
    pub source: Address,
    pub timestamp: Count,
}

// The port equals the link's number, which is at most 64 in a sound table.
fn port(number: usize) -> u16
    ensures { result ≡ port_of number }
{
    (number % 65536) as u16
}

// What an event does to the link of that number.
fn react(l: Link, number: usize, event: Event) -> Stepped
    ensures { result ≡ react_of event l number }
{
    match event {
        Event::Nothing => Stepped::still(l),
        Event::Clear => Stepped::still(Link::idle()),
        Event::Tick => l.tick(port(number)),
        Event::Leap(k) => l.passed(k).tick(port(number)),
        Event::At(k, change) if k == number => l.change(port(number), change),
        Event::At(_, _) => Stepped::still(l),
    }
}

// A frame goes after the n that stand in the output, where there is room.
fn paste(out: &mut [u8], n: usize, frame: [u8; 60]) -> usize
    ensures { (result ≡ (pasted (output out.old n) frame).frames) × (out.new ≡ (pasted (output out.old n) frame).octets) }
{
    if n < out.len() / Message::OCTETS {
        let a = n * Message::OCTETS;
        out[a..a + Message::OCTETS].copy_from_slice(&frame);
        return n + 1;
    }
    n
}

// What is sent, if anything, as the next frame: how many there are then.
pub fn note(out: &mut [u8], n: usize, sender: Sender, sent: Option<(Address, Body)>) -> usize
    ensures { (result ≡ (note_of sender (output out.old n) sent).frames) × (out.new ≡ (note_of sender (output out.old n) sent).octets) }
{
    let Some((destination, body)) = sent else {
        return n;
    };
    let message = Message {
        destination,
        source: sender.source,
        timestamp: sender.timestamp,
        body,
    };
    paste(out, n, frame_writer::write(message).octets)
}

// Nothing is offered to no link.
fn turns(event: Event, n: usize) -> usize
    ensures { result ≡ turns_of event n }
{
    match event {
        Event::Nothing => 0,
        _ => n,
    }
}

// The event is offered to every link; what they send goes after the n frames that are there.
pub fn drive(links: &mut [Link], event: Event, sender: Sender, out: &mut [u8], n: usize) -> usize
    ensures { (links.new ≡ driven_of event links.old) × (output out.new result ≡ each (note_link event sender) 1 links.old (output out.old n)) }
{
    if turns(event, links.len()) == 0 {
        return n;
    }
    let mut frames = n;
    for (i, l) in links.iter_mut().enumerate() {
        let t = react(*l, i + 1, event);
        *l = t.link;
        frames = note(out, frames, sender, t.sent);
    }
    frames
}

// The event is offered to every link, and nothing is sent: how many links it was offered to.
pub fn offer(links: &mut [Link], event: Event) -> usize
    ensures { (links.new ≡ driven_of event links.old) × (result ≡ turns_of event (length links.old)) }
{
    let most = turns(event, links.len());
    if most == 0 {
        return 0;
    }
    for (i, l) in links.iter_mut().enumerate() {
        *l = react(*l, i + 1, event).link;
    }
    most
}
