// The box's transmitter: what it waits for or does, and the timer of that.
#![tactic(auto)]

ghost use Rattle.std.specs.Prelude.{◌≡◌};
ghost use Rattle.box_light.specs.Light.{light_in, resting, fading, laser_on_for, open_for, rests, is_at_rest, randomly, remaining};
ghost use Rattle.box_light.specs.Pass.{passed_of, quiet_of};
ghost use Rattle.box_light.specs.Sound.{wait_fits, served, sound_in, sound_of};
ghost use Rattle.box_light.specs.Tick.{after, tick_of};

use box_grants::GrantList;
use clock::{Count, Quanta, Span, Timer};

// Discovery: before its start, in the random wait, laser on, transmission enabled. A normal grant: waited for, laser on,
// transmission enabled. After both: laser ordered off, which takes its time to go dark.
#[derive(Clone, Copy)]
pub enum Phase {
    Rest,
    Before { random: Quanta, sync: Quanta },
    Random { sync: Quanta },
    Warming,
    Asking,
    Due { entry: Span, sync: Quanta },
    Lit { length: Quanta, sync: Quanta },
    Open,
    Fading,
}

// At rest the timer is stopped; in the other phases it runs.
#[derive(Clone, Copy)]
pub struct Light {
    pub phase: Phase,
    pub timer: Timer,
}

// What a tick of the transmitter brings: discovery transmission is enabled, a grant's start has come, its window opens, closes.
#[derive(Clone, Copy)]
pub enum Beam {
    Quiet,
    Window,
    Start(Span, Quanta),
    Opened,
    Closed,
}

#[derive(Clone, Copy)]
pub struct LightTicked {
    pub light: Light,
    pub beam: Beam,
}

impl Phase {
    fn rests(self) -> bool
        ensures { result ≡ rests self }
    {
        matches!(self, Phase::Rest)
    }

    // What follows when its timer has rung.
    fn after(self) -> LightTicked
        ensures { result ≡ after self }
    {
        match self {
            Phase::Rest => with_beam(Phase::Rest, Timer::stopped(), Beam::Quiet),
            Phase::Before { random, sync } => LightTicked {
                light: Light::randomly(random, sync),
                beam: Beam::Quiet,
            },
            Phase::Random { sync } => with_beam(Phase::Warming, Light::laser_on(sync), Beam::Quiet),
            Phase::Warming => {
                let timer = Timer::stopped().start(Quanta::FRAME);
                with_beam(Phase::Asking, timer, Beam::Window)
            }
            Phase::Asking => order_off(Beam::Quiet),
            Phase::Due { entry, sync } => with_beam(
                Phase::Rest,
                Timer::stopped(),
                Beam::Start(entry, sync),
            ),
            Phase::Lit { length, sync } => with_beam(
                Phase::Open,
                Light::open_for(length, sync),
                Beam::Opened,
            ),
            Phase::Open => order_off(Beam::Closed),
            Phase::Fading => with_beam(Phase::Rest, Timer::stopped(), Beam::Quiet),
        }
    }

    // Its timer is within its longest setting; a grant that is waited for is in the list.
    fn sound(self, timer: Timer, list: GrantList) -> bool
        ensures { result ≡ sound_in self timer list }
    {
        match self {
            Phase::Rest => timer.off(),
            Phase::Before { random, sync } => timer.runs(Count::FURTHEST)
                & Light::wait_fits(random.0, sync),
            Phase::Random { sync } => timer.runs(Quanta::MOST) & Light::wait_fits(timer.left, sync),
            Phase::Warming => timer.runs(Light::LONGEST_WARMING),
            Phase::Asking => timer.runs(Quanta::FRAME),
            Phase::Due { entry, sync } => {
                timer.runs(Light::LONGEST_DUE)
                    & list.holds(entry)
                    & Light::served(entry.length, sync)
            }
            Phase::Lit { length, sync } => {
                timer.runs(Quanta(Light::laser_on(sync).left)) & Light::served(length, sync)
            }
            Phase::Open => timer.runs(Light::LONGEST_OPEN),
            Phase::Fading => timer.runs(Quanta::LASER_OFF),
        }
    }
}

impl Light {
    // The laser of the longest discovery grant that serves: all of it but a frame and the laser-off time.
    const LONGEST_WARMING: Quanta = Quanta(Quanta::MOST.0 - Quanta::FRAME.0 - Quanta::LASER_OFF.0);

    // A normal grant's wait: 2^31 - 1.
    const LONGEST_DUE: Quanta = Quanta(0x7FFFFFFF);

    // The longest grant, less the laser-on and laser-off times.
    const LONGEST_OPEN: Quanta = Quanta(Quanta::MOST.0 - Quanta::LASER_ON.0 - Quanta::LASER_OFF.0);

    pub fn resting() -> Light
        ensures { result ≡ resting }
    {
        Light {
            phase: Phase::Rest,
            timer: Timer::stopped(),
        }
    }

    // The timer of a laser that has just gone on.
    pub fn laser_on(sync: Quanta) -> Timer
        ensures { result ≡ laser_on_for sync }
    {
        Timer::stopped().start(Quanta(Quanta::LASER_ON.0.wrapping_add(sync.0)))
    }

    // What a grant's length leaves to transmission: the laser settles before it and goes dark behind it.
    fn open_for(length: Quanta, sync: Quanta) -> Timer
        ensures { result ≡ open_for length sync }
    {
        let lasers = u64::from(Quanta::LASER_ON.0) + u64::from(Quanta::LASER_OFF.0);
        let left = u64::from(length.0).saturating_sub(lasers + u64::from(sync.0));
        Timer::stopped().start(Quanta(left as u32))
    }

    // The random wait begins; a wait of 0 is passed.
    #[tactic(auto, unfolding(crate::specs::Light::randomly))]
    pub fn randomly(random: Quanta, sync: Quanta) -> Light
        ensures { result ≡ randomly random sync }
    {
        if random.0 == 0 {
            return Light {
                phase: Phase::Warming,
                timer: Light::laser_on(sync),
            };
        }
        Light {
            phase: Phase::Random { sync },
            timer: Timer::stopped().start(random),
        }
    }

    pub fn at_rest(self) -> bool
        ensures { result ≡ is_at_rest self }
    {
        self.phase.rests()
    }

    // The ticks that are left to transmission; none while it is disabled.
    pub fn remaining(self) -> u32
        ensures { result ≡ remaining self }
    {
        match self.phase {
            Phase::Asking | Phase::Open => self.timer.left,
            _ => 0,
        }
    }

    // A random wait, to come or running, that a grant can hold.
    fn wait_fits(n: u32, sync: Quanta) -> bool
        ensures { result ≡ wait_fits n sync }
    {
        Quanta::needed(sync) + u64::from(n) <= u64::from(Quanta::MOST.0)
    }

    // A grant of sixteen bits, long enough for its sync.
    fn served(length: Quanta, sync: Quanta) -> bool
        ensures { result ≡ served length sync }
    {
        (Quanta::needed(sync) <= u64::from(length.0)) & length.fits()
    }

    pub fn sound(self, list: GrantList) -> bool
        ensures { result ≡ sound_of self list }
    {
        self.phase.sound(self.timer, list)
    }

    #[tactic(auto, unfolding(crate::specs::Tick::tick_of))]
    pub fn tick(self) -> LightTicked
        ensures { result ≡ tick_of self }
    {
        let t = self.timer.tick();
        if t.rang {
            return self.phase.after();
        }
        with_beam(self.phase, t.timer, Beam::Quiet)
    }

    // After k ticks, at none of which its timer rings.
    pub fn passed(self, k: u32) -> Light
        ensures { result ≡ passed_of self k }
    {
        Light {
            timer: self.timer.passed(k),
            ..self
        }
    }

    // How many ticks come before the one at which its timer rings.
    pub fn quiet(self) -> u32
        ensures { result ≡ quiet_of self }
    {
        self.timer.quiet()
    }
}

// Transmission ends, and the laser goes dark.
fn order_off(beam: Beam) -> LightTicked
    ensures { result ≡ record { light = fading; beam = beam } }
{
    let timer = Timer::stopped().start(Quanta::LASER_OFF);
    with_beam(Phase::Fading, timer, beam)
}

fn with_beam(phase: Phase, timer: Timer, beam: Beam) -> LightTicked
    ensures { result ≡ record { light = light_in phase timer; beam = beam } }
{
    LightTicked {
        light: Light { phase, timer },
        beam,
    }
}
