// One link of the head's table, by value: its states, its timers, and what each of its steps sends.
#![tactic(auto)]

ghost use Rattle.std.specs.Prelude.{◌≡◌};
ghost use Rattle.head_links.specs.Link.{idle, waiting_at, registered_at, is_held, is_registered};
ghost use Rattle.head_links.specs.Pass.{passed_of, quiet_of};
ghost use Rattle.head_links.specs.Sound.{sound_of};
ghost use Rattle.head_links.specs.Steps.{still, admitted, reregistered, deregistered, gated, registered, reported, change_of};
ghost use Rattle.head_links.specs.Tick.{tick_wait, tick_periodic, tick_watchdog, tick_of};

use clock::{Quanta, Timer};
use frame::{Address, Body, Grants, RegisterFlag};

#[derive(Clone, Copy, PartialEq, Eq)]
pub enum State {
    Idle,
    Waiting,
    Registered,
}

#[derive(Clone, Copy)]
pub struct Link {
    pub address: Address,
    pub state: State,
    pub wait: Timer,
    pub watchdog: Timer,
    pub periodic: Timer,
}

// What is done to a link, once it is judged that it may be.
#[derive(Clone, Copy)]
pub enum Change {
    Admit {
        address: Address,
        pending: u8,
        sync: Quanta,
    },
    Reregister(Quanta),
    Deregister,
    Gate(Grants),
    Register,
    Report,
}

// A link after a step, and the frame that it sends, if any: to whom, and what it says.
#[derive(Clone, Copy)]
pub struct Stepped {
    pub link: Link,
    pub sent: Option<(Address, Body)>,
}

impl Stepped {
    pub fn still(link: Link) -> Stepped
        ensures { result ≡ still link }
    {
        Stepped { link, sent: None }
    }
}

impl Link {
    // A table has 1 to so many.
    pub const MOST: usize = 64;

    pub fn idle() -> Link
        ensures { result ≡ idle }
    {
        Link {
            address: Address(0),
            state: State::Idle,
            wait: Timer::stopped(),
            watchdog: Timer::stopped(),
            periodic: Timer::stopped(),
        }
    }

    fn waiting_at(address: Address) -> Link
        ensures { result ≡ waiting_at address }
    {
        Link {
            address,
            state: State::Waiting,
            wait: Timer::stopped().start(Timer::WAIT),
            ..Link::idle()
        }
    }

    fn registered_at(address: Address) -> Link
        ensures { result ≡ registered_at address }
    {
        Link {
            address,
            state: State::Registered,
            watchdog: Timer::stopped().start(Timer::WATCHDOG),
            periodic: Timer::stopped().start(Timer::PERIODIC),
            ..Link::idle()
        }
    }

    pub fn is_held(self) -> bool
        ensures { result ≡ is_held self.state }
    {
        self.state != State::Idle
    }

    pub fn is_registered(self) -> bool
        ensures { result ≡ is_registered self.state }
    {
        self.state == State::Registered
    }

    // Each state has its own address and timers; that no other link holds the address is the table's affair.
    #[tactic(auto, unfolding(crate::specs::Sound::sound_of))]
    pub fn sound(self) -> bool
        ensures { result ≡ sound_of self }
    {
        match self.state {
            State::Idle => {
                (self.address == Address(0))
                    & self.wait.off()
                    & self.watchdog.off()
                    & self.periodic.off()
            }
            State::Waiting => {
                frame_range::individual(self.address)
                    & self.wait.runs(Timer::WAIT)
                    & self.watchdog.off()
                    & self.periodic.off()
            }
            State::Registered => {
                frame_range::individual(self.address)
                    & self.wait.off()
                    & self.watchdog.runs(Timer::WATCHDOG)
                    & self.periodic.runs(Timer::PERIODIC)
            }
        }
    }

    fn admitted(address: Address, port: u16, pending: u8, sync: Quanta) -> Stepped
        ensures { result ≡ admitted address port pending sync }
    {
        let body = Body::Register {
            port,
            flag: RegisterFlag::Ack,
            sync,
            pending,
        };
        Stepped {
            link: Link::waiting_at(address),
            sent: Some((address, body)),
        }
    }

    fn reregistered(self, port: u16, sync: Quanta) -> Stepped
        ensures { result ≡ reregistered self port sync }
    {
        let body = Body::Register {
            port,
            flag: RegisterFlag::Reregister,
            sync,
            pending: 0,
        };
        Stepped {
            link: Link::waiting_at(self.address),
            sent: Some((self.address, body)),
        }
    }

    fn deregistered(self, port: u16) -> Stepped
        ensures { result ≡ deregistered self port }
    {
        let body = Body::Register {
            port,
            flag: RegisterFlag::Deregister,
            sync: Quanta(0),
            pending: 0,
        };
        Stepped {
            link: Link::idle(),
            sent: Some((self.address, body)),
        }
    }

    // A GATE restarts the periodic timer of a registered link.
    #[tactic(auto, unfolding(crate::specs::Steps::gated))]
    fn gated(self, grants: Grants) -> Stepped
        ensures { result ≡ gated self grants }
    {
        let mut link = self;
        if self.is_registered() {
            link.periodic = self.periodic.start(Timer::PERIODIC);
        }
        Stepped {
            link,
            sent: Some((self.address, Body::Gate(grants))),
        }
    }

    // REGISTER_ACK with 1, which an empty GATE follows.
    fn registered(self) -> Stepped
        ensures { result ≡ registered self }
    {
        Stepped {
            link: Link::registered_at(self.address),
            sent: Some((self.address, Body::Gate(Grants::None))),
        }
    }

    // A REPORT restarts the watchdog.
    fn reported(self) -> Stepped
        ensures { result ≡ reported self }
    {
        Stepped::still(Link {
            watchdog: self.watchdog.start(Timer::WATCHDOG),
            ..self
        })
    }

    pub fn change(self, port: u16, change: Change) -> Stepped
        ensures { result ≡ change_of change self port }
    {
        match change {
            Change::Admit {
                address,
                pending,
                sync,
            } => Link::admitted(address, port, pending, sync),
            Change::Reregister(sync) => self.reregistered(port, sync),
            Change::Deregister => self.deregistered(port),
            Change::Gate(grants) => self.gated(grants),
            Change::Register => self.registered(),
            Change::Report => self.reported(),
        }
    }

    #[tactic(auto, unfolding(crate::specs::Tick::tick_wait))]
    fn tick_wait(self, port: u16) -> Stepped
        ensures { result ≡ tick_wait self port }
    {
        let t = self.wait.tick();
        if t.rang {
            return self.deregistered(port);
        }
        Stepped::still(Link {
            wait: t.timer,
            ..self
        })
    }

    #[tactic(auto, unfolding(crate::specs::Tick::tick_periodic))]
    fn tick_periodic(self) -> Stepped
        ensures { result ≡ tick_periodic self }
    {
        let t = self.periodic.tick();
        if t.rang {
            return self.gated(Grants::None);
        }
        Stepped::still(Link {
            periodic: t.timer,
            ..self
        })
    }

    #[tactic(auto, unfolding(crate::specs::Tick::tick_watchdog))]
    fn tick_watchdog(self, port: u16) -> Stepped
        ensures { result ≡ tick_watchdog self port }
    {
        let t = self.watchdog.tick();
        if t.rang {
            return self.deregistered(port);
        }
        let watched = Link {
            watchdog: t.timer,
            ..self
        };
        watched.tick_periodic()
    }

    // Wait or watchdog first; a link that it drops sends no periodic GATE.
    pub fn tick(self, port: u16) -> Stepped
        ensures { result ≡ tick_of self port }
    {
        match self.state {
            State::Idle => Stepped::still(self),
            State::Waiting => self.tick_wait(port),
            State::Registered => self.tick_watchdog(port),
        }
    }

    // After k ticks, at none of which a timer rings.
    #[tactic(auto, unfolding(crate::specs::Pass::passed_of))]
    pub fn passed(self, k: u32) -> Link
        ensures { result ≡ passed_of self k }
    {
        Link {
            wait: self.wait.passed(k),
            watchdog: self.watchdog.passed(k),
            periodic: self.periodic.passed(k),
            ..self
        }
    }

    // How many ticks come before the one at which a timer rings.
    #[tactic(auto, unfolding(crate::specs::Pass::quiet_of))]
    pub fn quiet(self) -> u32
        ensures { result ≡ quiet_of self }
    {
        self.wait
            .quiet()
            .min(self.watchdog.quiet().min(self.periodic.quiet()))
    }
}
