// The head's judgement of a call: the number, and what is to be done, before anything is changed.
#![tactic(auto)]

ghost use Rattle.std.specs.Prelude.{◌≡◌};
ghost use Rattle.head_judging.specs.Judge.{look_for, look_of, advance_of, decide_of, is_sound, has_room, judge_of};

use clock::{Count, Quanta};
use frame::{Address, Message, Reply};
use head_gating::Asked;
use head_plans::Plan;
use head_state::Head;
use head_survey::{Facts, Look};
use head_table::Event;

// Every call of a head that stands. A link's number is handed in at full width, so that 65,537 isn't link 1.
#[derive(Clone, Copy)]
pub enum Call {
    Open {
        start: Count,
        length: Quanta,
        sync: Quanta,
        window: Quanta,
    },
    Admit {
        address: Address,
        pending: u8,
        sync: Quanta,
    },
    Reject {
        address: Address,
        pending: u8,
        sync: Quanta,
    },
    Reregister {
        link: usize,
        sync: Quanta,
    },
    Deregister {
        link: usize,
    },
    Gate {
        link: usize,
        asked: Asked,
    },
    Hear {
        link: usize,
        message: Message,
    },
    Tick,
    Advance(u64),
}

// A link by its number, and nobody's address.
fn look_at(link: usize) -> Look
    ensures { result ≡ look_for link }
{
    Look {
        link,
        address: Address(0),
    }
}

// What the pass over the table is to look for.
pub fn look(call: Call) -> Look
    ensures { result ≡ look_of call }
{
    match call {
        Call::Admit { address, .. } => Look { link: 0, address },
        Call::Reregister { link, .. }
        | Call::Deregister { link }
        | Call::Gate { link, .. }
        | Call::Hear { link, .. } => look_at(link),
        Call::Open { .. } | Call::Reject { .. } | Call::Tick | Call::Advance(_) => look_at(0),
    }
}

// The ticks at which no link rings are passed, and one more is made.
#[tactic(auto, unfolding(crate::specs::Judge::advance_of))]
fn advance(head: Head, quiet: u32, n: u64) -> Plan
    ensures { result ≡ advance_of head quiet n }
{
    if !clock::in_reach(n) {
        return Plan::refused(head, Reply::Grant);
    }
    let k = clock::passing(quiet, n);
    Plan::leaping(head.after(k).tick(), Event::Leap(k), u64::from(k) + 1)
}

fn decide(head: Head, f: Facts, call: Call) -> Plan
    ensures { result ≡ decide_of call head f }
{
    let l = f.link;
    match call {
        Call::Open {
            start,
            length,
            sync,
            window,
        } => head_requests::open(head, start, length, sync, window),
        Call::Admit {
            address,
            pending,
            sync,
        } => head_requests::admit(head, f, address, pending, sync),
        Call::Reject {
            address,
            pending,
            sync,
        } => head_requests::reject(head, address, pending, sync),
        Call::Reregister { link, sync } => head_requests::reregister(head, l, link, sync),
        Call::Deregister { link } => head_requests::deregister(head, l, link),
        Call::Gate { link, asked } => head_requests::gate(head, l, link, asked),
        Call::Hear { link, message } => head_hearing::hear(head, l, link, message),
        Call::Tick => Plan::accepted(head.tick(), Event::Tick),
        Call::Advance(n) => advance(head, f.quiet, n),
    }
}

// A frame for every link has room in so many octets.
#[tactic(auto, unfolding(crate::specs::Judge::has_room))]
fn has_room(links: usize, octets: usize) -> bool
    ensures { result ≡ has_room links octets }
{
    links <= octets / Message::OCTETS
}

#[tactic(auto, unfolding(crate::specs::Judge::is_sound))]
fn is_sound(head: Head, f: Facts) -> bool
    ensures { result ≡ is_sound head f }
{
    head.sound() && f.sound
}

// So many links are lent, and so many octets.
#[tactic(auto, unfolding(crate::specs::Judge::judge_of))]
pub fn judge(head: Head, f: Facts, links: usize, octets: usize, call: Call) -> Plan
    ensures { result ≡ judge_of head f links octets call }
{
    if !is_sound(head, f) {
        return Plan::refused(head, Reply::Unsound);
    }
    if !has_room(links, octets) {
        return Plan::refused(head, Reply::Output);
    }
    decide(head, f, call)
}
