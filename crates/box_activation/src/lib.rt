// Activation (R125 to R132): the grant to wait for next, and the laser that goes on for it.
#![tactic(auto)]

ghost use Rattle.std.specs.Prelude.{◌≡◌};
ghost use Rattle.box_activation.specs.Activation.{light_up, begin, head_for, serve, activate};

use box_light::{Light, Phase};
use box_processes::Processes;
use clock::{Quanta, Span, Timer};

// The laser goes on for a grant, which is removed from the list.
pub fn light_up(p: Processes, entry: Span, sync: Quanta) -> Processes
    ensures { result ≡ light_up p entry sync }
{
    let lit = Light {
        phase: Phase::Lit {
            length: entry.length,
            sync,
        },
        timer: Light::laser_on(sync),
    };
    p.with_list(p.list.without(entry)).with_light(lit)
}

// The wait for a grant begins; a wait of 0 is passed.
#[tactic(auto, unfolding(crate::specs::Activation::begin))]
fn begin(p: Processes, entry: Span, sync: Quanta, wait: Quanta) -> Processes
    ensures { result ≡ begin p entry sync wait }
{
    if wait.0 == 0 {
        return light_up(p, entry, sync);
    }
    p.with_light(Light {
        phase: Phase::Due { entry, sync },
        timer: Timer::stopped().start(wait),
    })
}

fn head_for(p: Processes, entry: Span, sync: Quanta, way: Option<Quanta>) -> Processes
    ensures { result ≡ head_for p entry sync way }
{
    match way {
        None => p,
        Some(wait) => begin(p, entry, sync, wait),
    }
}

fn serve(p: Processes, chosen: Option<Span>) -> Processes
    ensures { result ≡ serve chosen p }
{
    match chosen {
        None => p,
        Some(entry) => head_for(p, entry, p.registration.sync, p.count.reach(entry.start)),
    }
}

// The end of every call: at rest and REGISTERED, the next grant is chosen.
#[tactic(auto, unfolding(crate::specs::Activation::activate))]
pub fn activate(p: Processes) -> Processes
    ensures { result ≡ activate p }
{
    if p.light.at_rest() & p.registration.is_registered() {
        let choice = p.list.choose(p.count, Quanta::needed(p.registration.sync));
        return serve(p.with_list(choice.list), choice.chosen);
    }
    p
}
