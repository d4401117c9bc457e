// A tick of the box's processes, stage by stage (R136).
#![tactic(auto)]

ghost use Rattle.std.specs.Prelude.{◌≡◌, true};
ghost use Rattle.box_ticking.specs.Tick.{ring, shine, timed, transmitted, tick_of};

use box_grants::GrantList;
use box_light::Beam;
use box_processes::{Processes, Step};
use box_registration::Bell;
use box_telling::{Notice, Notices};
use frame::{Body, RegisterReqFlag};
use frame_queues::Sets;

// The processes on their way through a tick, and what this stage tells and sends.
#[derive(Clone, Copy)]
pub struct Stage {
    pub ok: bool,
    pub next: Processes,
    pub notice: Notice,
    pub sent: Option<Body>,
}

fn told(next: Processes, notice: Notice, sent: Option<Body>) -> Stage
    ensures { result ≡ record { ok = true; next = next; notice = notice; sent = sent } }
{
    Stage {
        ok: true,
        next,
        notice,
        sent,
    }
}

fn ring(p: Processes, bell: Bell) -> Stage
    ensures { result ≡ ring bell p }
{
    match bell {
        Bell::Quiet => told(p, Notice::Nothing, None),
        Bell::Retry => told(p, Notice::Retry, None),
        Bell::Lost => told(p.waiting(), Notice::Deregistered, box_processes::farewell()),
        Bell::Report => told(p, Notice::Nothing, Some(Body::Report(Sets::NONE))),
    }
}

// A discovery window that opens on a box not REGISTERING is not ok.
fn shine(p: Processes, beam: Beam) -> Stage
    ensures { result ≡ shine beam p }
{
    match beam {
        Beam::Quiet => told(p, Notice::Nothing, None),
        Beam::Window => Stage {
            ok: p.registration.is_registering(),
            next: p.with_registration(p.registration.requesting()),
            notice: Notice::Window,
            sent: Some(Body::RegisterReq {
                flag: RegisterReqFlag::Register,
                pending: GrantList::PENDING,
            }),
        },
        Beam::Start(entry, sync) => {
            let lit = box_activation::light_up(p, entry, sync);
            told(lit, Notice::Nothing, None)
        }
        Beam::Opened => told(p, Notice::Open, None),
        Beam::Closed => told(p, Notice::Close, None),
    }
}

// The count, the registration timer and the report timer.
fn timed(p: Processes) -> Stage
    ensures { result ≡ timed p }
{
    let t = p.registration.tick();
    let next = p.with_count(p.count.next());
    ring(next.with_registration(t.registration), t.bell)
}

fn transmitted(p: Processes) -> Stage
    ensures { result ≡ transmitted p }
{
    let t = p.light.tick();
    shine(p.with_light(t.light), t.beam)
}

pub fn tick(p: Processes) -> Step
    ensures { result ≡ tick_of p }
{
    let a = timed(p);
    let b = transmitted(a.next);
    Step {
        ok: b.ok,
        next: b.next,
        notices: Notices::none().and(a.notice).and(b.notice),
        first: a.sent,
        second: b.sent,
    }
}
