// What a call of the box tells its client, and the frames that it hands out.
#![tactic(auto)]

ghost use Rattle.std.specs.Prelude.{◌≡◌};
ghost use Rattle.box_telling.specs.Told.{is_nothing, no_notices, added, no_frames, handed};

use frame::Grant;

#[derive(Clone, Copy)]
pub enum Notice {
    Nothing,
    Window,
    Registered,
    Refused,
    Retry,
    Deregistered,
    Granted(Grant),
    Open,
    Close,
}

// In order, and nothing behind the last.
#[derive(Clone, Copy)]
pub struct Notices {
    pub first: Notice,
    pub second: Notice,
    pub third: Notice,
    pub fourth: Notice,
}

// In order; octets that no frame takes are zero.
#[derive(Clone, Copy)]
pub struct Frames {
    pub number: usize,
    pub first: [u8; 60],
    pub second: [u8; 60],
}

impl Notice {
    pub fn is_nothing(self) -> bool
        ensures { result ≡ is_nothing self }
    {
        matches!(self, Notice::Nothing)
    }
}

impl Notices {
    pub fn none() -> Notices
        ensures { result ≡ no_notices }
    {
        Notices {
            first: Notice::Nothing,
            second: Notice::Nothing,
            third: Notice::Nothing,
            fourth: Notice::Nothing,
        }
    }

    // One notice more, behind those that stand; a fifth is not told.
    #[tactic(auto, unfolding(crate::specs::Told::added))]
    pub fn and(self, notice: Notice) -> Notices
        ensures { result ≡ added self notice }
    {
        if self.first.is_nothing() {
            return Notices {
                first: notice,
                ..self
            };
        }
        if self.second.is_nothing() {
            return Notices {
                second: notice,
                ..self
            };
        }
        if self.third.is_nothing() {
            return Notices {
                third: notice,
                ..self
            };
        }
        if self.fourth.is_nothing() {
            return Notices {
                fourth: notice,
                ..self
            };
        }
        self
    }
}

impl Frames {
    pub fn none() -> Frames
        ensures { result ≡ no_frames }
    {
        Frames {
            number: 0,
            first: [0; 60],
            second: [0; 60],
        }
    }

    // One frame more; a third is not handed out.
    #[tactic(auto, unfolding(crate::specs::Told::handed))]
    pub fn and(self, octets: [u8; 60]) -> Frames
        ensures { result ≡ handed self octets }
    {
        match self.number {
            0 => Frames {
                number: 1,
                first: octets,
                ..self
            },
            1 => Frames {
                number: 2,
                second: octets,
                ..self
            },
            _ => self,
        }
    }
}
