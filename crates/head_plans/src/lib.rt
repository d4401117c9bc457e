// What a call of the head is going to do, before anything is changed.
#![tactic(auto)]

ghost use Rattle.std.specs.Prelude.{◌≡◌};
ghost use Rattle.head_plans.specs.Plan.{quiet, refused, accepted, leaping, sending, telling};

use clock::Quanta;
use frame::{Address, Body, Reply};
use frame_queues::Sets;
use head_state::Head;
use head_table::Event;

#[derive(Clone, Copy)]
pub enum Kind {
    Nothing,
    Request,
    Registered,
    Dropped,
    Report(Sets),
}

#[derive(Clone, Copy)]
pub struct Notice {
    pub kind: Kind,
    pub link: usize,
    pub trip: Quanta,
}

// What a call is going to do: its number, the head after it, what is offered to the links, the head's own frame, the notice, and how many ticks an advance makes.
#[derive(Clone, Copy)]
pub struct Plan {
    pub reply: Reply,
    pub head: Head,
    pub event: Event,
    pub lead: Option<(Address, Body)>,
    pub notice: Notice,
    pub made: u64,
}

impl Notice {
    pub fn quiet() -> Notice
        ensures { result ≡ quiet }
    {
        Notice {
            kind: Kind::Nothing,
            link: 0,
            trip: Quanta(0),
        }
    }
}

impl Plan {
    pub fn accepted(head: Head, event: Event) -> Plan
        ensures { result ≡ accepted head event }
    {
        Plan {
            reply: Reply::Done,
            head,
            event,
            lead: None,
            notice: Notice::quiet(),
            made: 0,
        }
    }

    // A refusal offers nothing to any link and sends nothing.
    pub fn refused(head: Head, reply: Reply) -> Plan
        ensures { result ≡ refused head reply }
    {
        Plan {
            reply,
            ..Plan::accepted(head, Event::Nothing)
        }
    }

    // So many ticks.
    pub fn leaping(head: Head, event: Event, made: u64) -> Plan
        ensures { result ≡ leaping head event made }
    {
        Plan {
            made,
            ..Plan::accepted(head, event)
        }
    }

    // The head's own frame, which changes no link.
    pub fn sending(head: Head, destination: Address, body: Body) -> Plan
        ensures { result ≡ sending head destination body }
    {
        Plan {
            lead: Some((destination, body)),
            ..Plan::accepted(head, Event::Nothing)
        }
    }

    pub fn telling(head: Head, event: Event, kind: Kind, link: usize, trip: Quanta) -> Plan
        ensures { result ≡ telling head event kind link trip }
    {
        Plan {
            notice: Notice { kind, link, trip },
            ..Plan::accepted(head, event)
        }
    }
}
