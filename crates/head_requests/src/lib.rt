// What the head makes of its client's requests: the tests of each, in their order, and what is to be done.
#![tactic(auto)]

ghost use Rattle.std.specs.Prelude.{◌≡◌};
ghost use Rattle.head_requests.specs.Client.{fits_lengths, may_open, open_of, fits_party, admit_of, reject_of, reregister_of, deregister_of, gate_of};

use clock::{Count, Quanta};
use frame::{Address, Body, Grant, RegisterFlag, Reply};
use head_gating::Asked;
use head_links::{Change, Link};
use head_plans::Plan;
use head_state::{Head, Window};
use head_survey::Facts;
use head_table::Event;

#[tactic(auto, unfolding(crate::specs::Client::fits_lengths))]
fn fits_lengths(length: Quanta, sync: Quanta) -> bool
    ensures { result ≡ fits_lengths length sync }
{
    length.fits() && sync.fits()
}

// The grant has a start within reach and room for a REGISTER_REQ, and the window a length that it may have.
#[tactic(auto, unfolding(crate::specs::Client::may_open))]
fn may_open(now: Count, start: Count, length: Quanta, sync: Quanta, window: Quanta) -> bool
    ensures { result ≡ may_open now start length sync window }
{
    now.start_in_range(start) && Quanta::needed(sync) <= u64::from(length.0) && Window::fits(window)
}

#[tactic(auto, unfolding(crate::specs::Client::open_of))]
pub fn open(head: Head, start: Count, length: Quanta, sync: Quanta, window: Quanta) -> Plan
    ensures { result ≡ open_of head start length sync window }
{
    if !head.window.is_idle() {
        return Plan::refused(head, Reply::State);
    }
    if !fits_lengths(length, sync) {
        return Plan::refused(head, Reply::Range);
    }
    if !may_open(head.count, start, length, sync, window) {
        return Plan::refused(head, Reply::Grant);
    }
    let grant = Grant {
        start,
        length,
        force: false,
    };
    let next = head.with_window(Window::opened(head.count, start, window));
    Plan::sending(next, Address::MULTICAST, Body::Discovery { grant, sync })
}

// Admit and reject: the address is individual and nonzero, the sync a length.
#[tactic(auto, unfolding(crate::specs::Client::fits_party))]
fn fits_party(address: Address, sync: Quanta) -> bool
    ensures { result ≡ fits_party address sync }
{
    frame_range::individual(address) && sync.fits()
}

#[tactic(auto, unfolding(crate::specs::Client::admit_of))]
pub fn admit(head: Head, f: Facts, address: Address, pending: u8, sync: Quanta) -> Plan
    ensures { result ≡ admit_of head f address pending sync }
{
    if !fits_party(address, sync) {
        return Plan::refused(head, Reply::Range);
    }
    if f.held {
        return Plan::refused(head, Reply::Held);
    }
    if f.idle == 0 {
        return Plan::refused(head, Reply::Full);
    }
    let change = Change::Admit {
        address,
        pending,
        sync,
    };
    Plan::accepted(head, Event::At(f.idle, change))
}

#[tactic(auto, unfolding(crate::specs::Client::reject_of))]
pub fn reject(head: Head, address: Address, pending: u8, sync: Quanta) -> Plan
    ensures { result ≡ reject_of head address pending sync }
{
    if !fits_party(address, sync) {
        return Plan::refused(head, Reply::Range);
    }
    let body = Body::Register {
        port: 0,
        flag: RegisterFlag::Nack,
        sync,
        pending,
    };
    Plan::sending(head, address, body)
}

#[tactic(auto, unfolding(crate::specs::Client::reregister_of))]
pub fn reregister(head: Head, l: Link, link: usize, sync: Quanta) -> Plan
    ensures { result ≡ reregister_of head l link sync }
{
    if !l.is_held() {
        return Plan::refused(head, Reply::Link);
    }
    if !l.is_registered() {
        return Plan::refused(head, Reply::State);
    }
    if !sync.fits() {
        return Plan::refused(head, Reply::Range);
    }
    Plan::accepted(head, Event::At(link, Change::Reregister(sync)))
}

#[tactic(auto, unfolding(crate::specs::Client::deregister_of))]
pub fn deregister(head: Head, l: Link, link: usize) -> Plan
    ensures { result ≡ deregister_of head l link }
{
    if !l.is_held() {
        return Plan::refused(head, Reply::Link);
    }
    if !l.is_registered() {
        return Plan::refused(head, Reply::State);
    }
    Plan::accepted(head, Event::At(link, Change::Deregister))
}

#[tactic(auto, unfolding(crate::specs::Client::gate_of))]
pub fn gate(head: Head, l: Link, link: usize, asked: Asked) -> Plan
    ensures { result ≡ gate_of head l link asked }
{
    if !l.is_held() {
        return Plan::refused(head, Reply::Link);
    }
    if !asked.fits() {
        return Plan::refused(head, Reply::Range);
    }
    if Asked::MOST < asked.number {
        return Plan::refused(head, Reply::Grant);
    }
    Plan::accepted(head, Event::At(link, Change::Gate(asked.grants())))
}
