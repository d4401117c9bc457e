// The box's processes: its count, its registration, its list of grants and its transmitter.
#![tactic(auto)]

ghost use Rattle.std.specs.Prelude.{◌≡◌};
ghost use Rattle.box_processes.specs.Leaving.{farewell, local_deregister};
ghost use Rattle.box_processes.specs.Parts.{fresh, with_count, with_registration, with_list, with_light, waiting, still};
ghost use Rattle.box_processes.specs.Pass.{activates, passed_of, quiet_of};
ghost use Rattle.box_processes.specs.Reporting.{reporting};
ghost use Rattle.box_processes.specs.Sound.{rests_in, sound_of};

use box_grants::GrantList;
use box_light::Light;
use box_registration::Registration;
use box_telling::{Notice, Notices};
use clock::Count;
use frame::{Body, RegisterReqFlag};
use frame_queues::Sets;

#[derive(Clone, Copy)]
pub struct Processes {
    pub count: Count,
    pub registration: Registration,
    pub list: GrantList,
    pub light: Light,
}

// What a message or a tick does: the processes after it, what is told, and what is sent, in order. Only a discovery window that opens
// on a box not REGISTERING is not ok.
#[derive(Clone, Copy)]
pub struct Step {
    pub ok: bool,
    pub next: Processes,
    pub notices: Notices,
    pub first: Option<Body>,
    pub second: Option<Body>,
}

// What a box that leaves by itself sends.
pub fn farewell() -> Option<Body>
    ensures { result ≡ farewell }
{
    Some(Body::RegisterReq {
        flag: RegisterReqFlag::Deregister,
        pending: 0,
    })
}

impl Processes {
    pub fn fresh() -> Processes
        ensures { result ≡ fresh }
    {
        Processes {
            count: Count(0),
            registration: Registration::fresh(),
            list: GrantList::empty(),
            light: Light::resting(),
        }
    }

    pub fn with_count(self, count: Count) -> Processes
        ensures { result ≡ with_count self count }
    {
        Processes { count, ..self }
    }

    pub fn with_registration(self, registration: Registration) -> Processes
        ensures { result ≡ with_registration self registration }
    {
        Processes {
            registration,
            ..self
        }
    }

    pub fn with_list(self, list: GrantList) -> Processes
        ensures { result ≡ with_list self list }
    {
        Processes { list, ..self }
    }

    pub fn with_light(self, light: Light) -> Processes
        ensures { result ≡ with_light self light }
    {
        Processes { light, ..self }
    }

    // Entering WAIT: R95.
    pub fn waiting(self) -> Processes
        ensures { result ≡ waiting self }
    {
        Processes {
            count: self.count,
            registration: self.registration.waiting(),
            list: GrantList::empty(),
            light: Light::resting(),
        }
    }

    // In WAIT the transmitter is at rest.
    fn rests(self) -> bool
        ensures { result ≡ rests_in self.registration.state self.light }
    {
        !self.registration.is_waiting() | self.light.at_rest()
    }

    pub fn sound(self) -> bool
        ensures { result ≡ sound_of self }
    {
        self.registration.sound()
            & self.list.sound()
            & (self.registration.is_registered() | (self.list.number == 0))
            & self.light.sound(self.list)
            & self.rests()
    }

    // Activation comes when at rest and REGISTERED.
    fn activates(self) -> bool
        ensures { result ≡ activates self }
    {
        self.light.at_rest() & self.registration.is_registered()
    }

    // How many ticks come before one at which a timer rings or activation has a choice to make.
    #[tactic(auto, unfolding(crate::specs::Pass::quiet_of))]
    pub fn quiet(self) -> u32
        ensures { result ≡ quiet_of self }
    {
        if self.activates() & (0 < self.list.number) {
            return 0;
        }
        self.registration.quiet().min(self.light.quiet())
    }

    // After k such ticks, at least one: activation, which finds no grant, clears the places of the list.
    pub fn passed(self, k: u32) -> Processes
        ensures { result ≡ passed_of self k }
    {
        let list = if self.activates() {
            GrantList::empty()
        } else {
            self.list
        };
        Processes {
            count: self.count.later(k),
            registration: self.registration.passed(k),
            list,
            light: self.light.passed(k),
        }
    }
}

impl Step {
    // No notice and no frame.
    pub fn still(p: Processes) -> Step
        ensures { result ≡ still p }
    {
        Step {
            ok: true,
            next: p,
            notices: Notices::none(),
            first: None,
            second: None,
        }
    }

    pub fn local_deregister(p: Processes) -> Step
        ensures { result ≡ local_deregister p }
    {
        Step {
            notices: Notices::none().and(Notice::Deregistered),
            first: farewell(),
            ..Step::still(p.waiting())
        }
    }

    pub fn reporting(p: Processes, sets: Sets) -> Step
        ensures { result ≡ reporting p sets }
    {
        Step {
            first: Some(Body::Report(sets)),
            ..Step::still(p.with_registration(p.registration.reported()))
        }
    }
}
