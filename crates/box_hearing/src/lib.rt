// What a message does to the box's processes: discovery GATE, REGISTER and normal GATE (R106 to R124).
#![tactic(auto)]

ghost use Rattle.std.specs.Prelude.{◌≡◌};
ghost use mathlib.Core.List.{foldl};
ghost use Rattle.frame.specs.Layout.{listed};
ghost use Rattle.box_hearing.specs.Discovery.{random_for, called, discover};
ghost use Rattle.box_hearing.specs.Gate.{taken, gated};
ghost use Rattle.box_hearing.specs.Hear.{hear_of};
ghost use Rattle.box_hearing.specs.Register.{admitted, rejected, asked, held, register_of};

use box_grants::GrantList;
use box_light::{Light, Phase};
use box_processes::{Processes, Step};
use box_registration::State;
use box_telling::{Notice, Notices};
use clock::{Count, Quanta, Span, Timer};
use frame::{Body, Grant, Grants, RegisterAckFlag, RegisterFlag};
use frame_queues::Sets;

// A list on its way through a GATE, and what is told of it.
#[derive(Clone, Copy)]
struct Taking {
    list: GrantList,
    notices: Notices,
}

impl Taking {
    // A grant is taken if its start is in range and the list has room.
    #[tactic(auto, unfolding(crate::specs::Gate::taken))]
    fn take(self, now: Count, grant: Grant) -> Taking
        ensures { result ≡ taken now.0 self grant }
    {
        if now.start_in_range(grant.start) & (self.list.number < GrantList::ROOM) {
            let entry = Span {
                start: grant.start,
                length: grant.length,
            };
            return Taking {
                list: self.list.push(entry),
                notices: self.notices.and(Notice::Granted(grant)),
            };
        }
        self
    }

    // In frame order.
    fn take_all(self, now: Count, grants: Grants) -> Taking
        ensures { result ≡ foldl (taken now.0) self (listed grants) }
    {
        match grants {
            Grants::None => self,
            Grants::One(a) => self.take(now, a),
            Grants::Two(a, b) => self.take(now, a).take(now, b),
            Grants::Three(a, b, c) => self.take(now, a).take(now, b).take(now, c),
            Grants::Four(a, b, c, d) => self.take(now, a).take(now, b).take(now, c).take(now, d),
        }
    }
}

#[tactic(auto, unfolding(crate::specs::Discovery::random_for))]
fn random_wait(own: bool, random: u32, length: Quanta, sync: Quanta) -> Quanta
    ensures { result ≡ random_for own random length sync }
{
    if own {
        return Quanta(0);
    }
    let spare = u64::from(length.0).saturating_sub(Quanta::needed(sync));
    Quanta((u64::from(random) % (spare + 1)) as u32)
}

// The wait for a discovery window's start begins; a wait of 0 is passed.
fn call(way: Option<Quanta>, random: Quanta, sync: Quanta) -> Light
    ensures { result ≡ called way random sync }
{
    match way {
        None => Light::resting(),
        Some(Quanta(0)) => Light::randomly(random, sync),
        Some(wait) => Light {
            phase: Phase::Before { random, sync },
            timer: Timer::stopped().start(wait),
        },
    }
}

#[tactic(auto, unfolding(crate::specs::Discovery::discover))]
fn discover(p: Processes, grant: Grant, sync: Quanta, own: bool, random: u32) -> Processes
    ensures { result ≡ discover p grant sync own random }
{
    let acts = p.registration.is_registering() & p.light.at_rest();
    let serves = p.count.start_in_range(grant.start)
        & (Quanta::needed(sync) <= u64::from(grant.length.0));
    if acts & serves {
        let wait = random_wait(own, random, grant.length, sync);
        return p.with_light(call(p.count.reach(grant.start), wait, sync));
    }
    p
}

fn admitted(p: Processes, port: u16, sync: Quanta) -> Step
    ensures { result ≡ admitted p port sync }
{
    Step {
        ok: true,
        next: p.with_registration(p.registration.registered(port, sync)),
        notices: Notices::none().and(Notice::Registered),
        first: Some(Body::RegisterAck {
            flag: RegisterAckFlag::Ack,
            port,
            sync,
        }),
        second: Some(Body::Report(Sets::NONE)),
    }
}

fn rejected(p: Processes, port: u16, sync: Quanta) -> Step
    ensures { result ≡ rejected p port sync }
{
    Step {
        notices: Notices::none().and(Notice::Refused),
        first: Some(Body::RegisterAck {
            flag: RegisterAckFlag::Nack,
            port,
            sync,
        }),
        ..Step::still(p.waiting())
    }
}

fn asked(p: Processes, port: u16, flag: RegisterFlag, sync: Quanta) -> Step
    ensures { result ≡ asked flag p port sync }
{
    match flag {
        RegisterFlag::Ack => admitted(p, port, sync),
        RegisterFlag::Nack => rejected(p, port, sync),
        RegisterFlag::Reregister | RegisterFlag::Deregister => Step::still(p),
    }
}

fn held(p: Processes, port: u16, flag: RegisterFlag, sync: Quanta) -> Step
    ensures { result ≡ held flag p port sync }
{
    match flag {
        RegisterFlag::Reregister => admitted(p, port, sync),
        RegisterFlag::Deregister => Step {
            notices: Notices::none().and(Notice::Deregistered),
            ..Step::still(p.waiting())
        },
        RegisterFlag::Ack | RegisterFlag::Nack => Step::still(p),
    }
}

fn register(p: Processes, port: u16, flag: RegisterFlag, sync: Quanta) -> Step
    ensures { result ≡ register_of p.registration.state flag p port sync }
{
    match p.registration.state {
        State::Wait | State::Registering => Step::still(p),
        State::RegisterReq => asked(p, port, flag, sync),
        State::Registered => held(p, port, flag, sync),
    }
}

#[tactic(auto, unfolding(crate::specs::Gate::gated))]
fn gate(p: Processes, grants: Grants) -> Step
    ensures { result ≡ gated p (listed grants) }
{
    if p.registration.is_registered() {
        let t = Taking {
            list: p.list,
            notices: Notices::none(),
        };
        let after = t.take_all(p.count, grants);
        let heard = p.with_registration(p.registration.heard());
        return Step {
            notices: after.notices,
            ..Step::still(heard.with_list(after.list))
        };
    }
    Step::still(p)
}

// `own` is whether the message was sent to the box's own address. Apart, so that what a step takes of the stack is free again before the call ends.
#[inline(never)]
pub fn hear(p: Processes, body: Body, own: bool, random: u32) -> Step
    ensures { result ≡ hear_of body p own random }
{
    match body {
        Body::Gate(grants) => gate(p, grants),
        Body::Discovery { grant, sync } => Step::still(discover(p, grant, sync, own, random)),
        Body::Register {
            port,
            flag,
            sync,
            ..
        } => register(p, port, flag, sync),
        Body::Report(_) | Body::RegisterReq { .. } | Body::RegisterAck { .. } => Step::still(p),
    }
}
