// The box's registration: its state, the timers that the state runs, and what a REGISTER gave it.
#![tactic(auto)]

ghost use Rattle.std.specs.Prelude.{◌≡◌};
ghost use Rattle.box_registration.specs.Registration.{fresh, entering, waiting, registering, requesting, registered, heard, reported, is_waiting, is_registered, is_registering};
ghost use Rattle.box_registration.specs.Pass.{passed_of, quiet_of};
ghost use Rattle.box_registration.specs.Tick.{tick_wait, tick_report, tick_watchdog, tick_of};
ghost use Rattle.box_registration.specs.Sound.{sound_in, sound_of};

use clock::{Quanta, Timer};

#[derive(Clone, Copy, PartialEq, Eq)]
pub enum State {
    Wait,
    Registering,
    RegisterReq,
    Registered,
}

#[derive(Clone, Copy)]
pub struct Registration {
    pub state: State,
    pub wait: Timer,
    pub watchdog: Timer,
    pub report: Timer,
    pub port: u16,
    pub sync: Quanta,
}

// What a tick of the registration's timers brings.
#[derive(Clone, Copy)]
pub enum Bell {
    Quiet,
    Retry,
    Lost,
    Report,
}

#[derive(Clone, Copy)]
pub struct Ticked {
    pub registration: Registration,
    pub bell: Bell,
}

impl Registration {
    pub fn fresh() -> Registration
        ensures { result ≡ fresh }
    {
        let stopped = Timer::stopped();
        Registration {
            state: State::Wait,
            wait: stopped,
            watchdog: stopped,
            report: stopped,
            port: 0,
            sync: Quanta(0),
        }
    }

    // A state that runs no timer; port and sync are what they last were.
    fn entering(self, state: State) -> Registration
        ensures { result ≡ entering state self }
    {
        Registration {
            state,
            wait: self.wait.stop(),
            watchdog: self.watchdog.stop(),
            report: self.report.stop(),
            ..self
        }
    }

    pub fn waiting(self) -> Registration
        ensures { result ≡ waiting self }
    {
        self.entering(State::Wait)
    }

    pub fn registering(self) -> Registration
        ensures { result ≡ registering self }
    {
        self.entering(State::Registering)
    }

    pub fn requesting(self) -> Registration
        ensures { result ≡ requesting self }
    {
        Registration {
            wait: self.wait.start(Timer::WAIT),
            ..self.entering(State::RegisterReq)
        }
    }

    pub fn registered(self, port: u16, sync: Quanta) -> Registration
        ensures { result ≡ registered port sync }
    {
        Registration {
            state: State::Registered,
            wait: self.wait.stop(),
            watchdog: self.watchdog.start(Timer::WATCHDOG),
            report: self.report.start(Timer::PERIODIC),
            port,
            sync,
        }
    }

    // A normal GATE restarts the watchdog.
    pub fn heard(self) -> Registration
        ensures { result ≡ heard self }
    {
        let watchdog = self.watchdog.start(Timer::WATCHDOG);
        Registration { watchdog, ..self }
    }

    // A REPORT that is asked for restarts the report timer, and it alone.
    pub fn reported(self) -> Registration
        ensures { result ≡ reported self }
    {
        let report = self.report.start(Timer::PERIODIC);
        Registration { report, ..self }
    }

    pub fn is_registered(self) -> bool
        ensures { result ≡ is_registered self.state }
    {
        self.state == State::Registered
    }

    pub fn is_waiting(self) -> bool
        ensures { result ≡ is_waiting self.state }
    {
        self.state == State::Wait
    }

    pub fn is_registering(self) -> bool
        ensures { result ≡ is_registering self.state }
    {
        self.state == State::Registering
    }

    // Each state runs its own timers and no other.
    fn timed(self) -> bool
        ensures { result ≡ sound_in self.state self }
    {
        let Registration {
            wait,
            watchdog,
            report,
            ..
        } = self;
        match self.state {
            State::Wait | State::Registering => wait.off() & watchdog.off() & report.off(),
            State::RegisterReq => wait.runs(Timer::WAIT) & watchdog.off() & report.off(),
            State::Registered => {
                wait.off() & watchdog.runs(Timer::WATCHDOG) & report.runs(Timer::PERIODIC)
            }
        }
    }

    pub fn sound(self) -> bool
        ensures { result ≡ sound_of self }
    {
        self.timed() & self.sync.fits()
    }

    #[tactic(auto, unfolding(crate::specs::Tick::tick_wait))]
    fn tick_wait(self) -> Ticked
        ensures { result ≡ tick_wait self }
    {
        let t = self.wait.tick();
        if t.rang {
            return Ticked {
                registration: self.registering(),
                bell: Bell::Retry,
            };
        }
        Ticked {
            registration: Registration {
                wait: t.timer,
                ..self
            },
            bell: Bell::Quiet,
        }
    }

    #[tactic(auto, unfolding(crate::specs::Tick::tick_report))]
    fn tick_report(self) -> Ticked
        ensures { result ≡ tick_report self }
    {
        let t = self.report.tick();
        if t.rang {
            let report = t.timer.start(Timer::PERIODIC);
            return Ticked {
                registration: Registration { report, ..self },
                bell: Bell::Report,
            };
        }
        Ticked {
            registration: Registration {
                report: t.timer,
                ..self
            },
            bell: Bell::Quiet,
        }
    }

    #[tactic(auto, unfolding(crate::specs::Tick::tick_watchdog))]
    fn tick_watchdog(self) -> Ticked
        ensures { result ≡ tick_watchdog self }
    {
        let t = self.watchdog.tick();
        if t.rang {
            return Ticked {
                registration: self.waiting(),
                bell: Bell::Lost,
            };
        }
        let left = Registration {
            watchdog: t.timer,
            ..self
        };
        left.tick_report()
    }

    // The registration timer, then the report timer, each judged on the state so far.
    pub fn tick(self) -> Ticked
        ensures { result ≡ tick_of self }
    {
        match self.state {
            State::Wait | State::Registering => Ticked {
                registration: self,
                bell: Bell::Quiet,
            },
            State::RegisterReq => self.tick_wait(),
            State::Registered => self.tick_watchdog(),
        }
    }

    // After k ticks, at none of which a timer rings.
    pub fn passed(self, k: u32) -> Registration
        ensures { result ≡ passed_of self k }
    {
        Registration {
            wait: self.wait.passed(k),
            watchdog: self.watchdog.passed(k),
            report: self.report.passed(k),
            ..self
        }
    }

    // How many ticks come before the one at which a timer rings.
    pub fn quiet(self) -> u32
        ensures { result ≡ quiet_of self }
    {
        let later = self.watchdog.quiet().min(self.report.quiet());
        self.wait.quiet().min(later)
    }
}
