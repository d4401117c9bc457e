// What the head makes of a message: the tests, in their order, and what is to be done.
#![tactic(auto)]

ghost use Rattle.std.specs.Prelude.{◌≡◌};
ghost use Rattle.head_plans.specs.Plan.{telling};
ghost use Rattle.head_table.specs.declared.Event.TheVariants.{At};
ghost use Rattle.head_hearing.specs.Hear.{is_newcomer, is_for, on_link, in_state, by_party, no_step, on_registered, confirmed, requested, heard_of, hear_of};

use clock::Quanta;
use frame::{Address, Body, Message, RegisterAckFlag, RegisterReqFlag, Reply};
use head_links::{Change, Link};
use head_plans::{Kind, Plan};
use head_state::Head;
use head_table::Event;

// REGISTER_REQ flag 1, which has no link yet.
fn is_newcomer(body: Body) -> bool
    ensures { result ≡ is_newcomer body }
{
    matches!(
        body,
        Body::RegisterReq {
            flag: RegisterReqFlag::Register,
            ..
        }
    )
}

// A newcomer is heard on link 0, any other message on a held link.
#[tactic(auto, unfolding(crate::specs::Hear::on_link))]
fn on_link(body: Body, l: Link, link: usize) -> bool
    ensures { result ≡ on_link body l link }
{
    if is_newcomer(body) {
        return link == 0;
    }
    l.is_held()
}

// A newcomer is heard inside the window only.
#[tactic(auto, unfolding(crate::specs::Hear::in_state))]
fn in_state(head: Head, body: Body) -> bool
    ensures { result ≡ in_state head body }
{
    !is_newcomer(body) || head.window.is_inside()
}

#[tactic(auto, unfolding(crate::specs::Hear::is_for))]
fn is_for(head: Head, destination: Address) -> bool
    ensures { result ≡ is_for head destination }
{
    destination == head.address || destination == Address::MULTICAST
}

// A message carries the head's address, and on a link it comes from that link's.
#[tactic(auto, unfolding(crate::specs::Hear::by_party))]
fn by_party(head: Head, l: Link, message: Message) -> bool
    ensures { result ≡ by_party head l message }
{
    is_for(head, message.destination) && (is_newcomer(message.body) || message.source == l.address)
}

// On which link the head hears a message, and the round trip to it.
#[derive(Clone, Copy)]
struct Heard {
    head: Head,
    l: Link,
    link: usize,
    trip: Quanta,
}

impl Heard {
    fn no_step(self) -> Plan
        ensures { result ≡ no_step self.head }
    {
        Plan::accepted(self.head, Event::Nothing)
    }

    // The link is changed, and the notice says so.
    fn changed(self, change: Change, kind: Kind) -> Plan
        ensures { result ≡ telling self.head (At self.link change) kind self.link self.trip }
    {
        let event = Event::At(self.link, change);
        Plan::telling(self.head, event, kind, self.link, self.trip)
    }

    // What only a registered link heeds: REGISTER_REQ flag 3, REPORT.
    #[tactic(auto, unfolding(crate::specs::Hear::on_registered))]
    fn on_registered(self, change: Change, kind: Kind) -> Plan
        ensures { result ≡ on_registered change kind self.head self.l self.link self.trip }
    {
        if self.l.is_registered() {
            return self.changed(change, kind);
        }
        self.no_step()
    }

    // REGISTER_ACK, which only a waiting link awaits.
    #[tactic(auto, unfolding(crate::specs::Hear::confirmed))]
    fn confirmed(self, flag: RegisterAckFlag) -> Plan
        ensures { result ≡ confirmed flag self.head self.l self.link self.trip }
    {
        if self.l.is_registered() {
            return self.no_step();
        }
        match flag {
            RegisterAckFlag::Ack => self.changed(Change::Register, Kind::Registered),
            RegisterAckFlag::Nack => self.changed(Change::Deregister, Kind::Dropped),
        }
    }

    fn requested(self, flag: RegisterReqFlag) -> Plan
        ensures { result ≡ requested flag self.head self.l self.link self.trip }
    {
        match flag {
            RegisterReqFlag::Register => {
                Plan::telling(self.head, Event::Nothing, Kind::Request, 0, self.trip)
            }
            RegisterReqFlag::Deregister => self.on_registered(Change::Deregister, Kind::Dropped),
        }
    }

    fn says(self, body: Body) -> Plan
        ensures { result ≡ heard_of body self.head self.l self.link self.trip }
    {
        match body {
            Body::Report(sets) => self.on_registered(Change::Report, Kind::Report(sets)),
            Body::RegisterReq { flag, .. } => self.requested(flag),
            Body::RegisterAck { flag, .. } => self.confirmed(flag),
            Body::Gate(_) | Body::Discovery { .. } | Body::Register { .. } => self.no_step(),
        }
    }
}

#[tactic(auto, unfolding(crate::specs::Hear::hear_of))]
pub fn hear(head: Head, l: Link, link: usize, message: Message) -> Plan
    ensures { result ≡ hear_of head l link message }
{
    let body = message.body;
    if !body.goes_to_head() {
        return Plan::refused(head, Reply::Direction);
    }
    if !on_link(body, l, link) {
        return Plan::refused(head, Reply::Link);
    }
    if !in_state(head, body) {
        return Plan::refused(head, Reply::State);
    }
    if !by_party(head, l, message) {
        return Plan::refused(head, Reply::Party);
    }
    if !frame_range::message(message) {
        return Plan::refused(head, Reply::Range);
    }
    let trip = head.count.round_trip(message.timestamp);
    let heard = Heard {
        head,
        l,
        link,
        trip,
    };
    heard.says(body)
}
