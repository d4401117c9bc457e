// The head: its own address, its count and its discovery window.
#![tactic(auto)]

ghost use Rattle.std.specs.Prelude.{◌≡◌};
ghost use Rattle.head_state.specs.Head.{begun, with_window, tick_of, sound_of, after_of};
ghost use Rattle.head_state.specs.Window.{fits, is_idle, is_inside, inside_for, opened, ticked_window, sound_window, inside_after, window_after};

use clock::{Count, Quanta, Timer};
use frame::Address;

// Idle, or waiting for its start with its length kept, or inside.
#[derive(Clone, Copy)]
pub enum Window {
    Idle,
    Before { timer: Timer, length: Quanta },
    Inside { timer: Timer },
}

impl Window {
    pub const LONGEST: Quanta = Quanta(131_072);

    // A window's length: 1 to 131,072.
    #[tactic(auto, unfolding(crate::specs::Window::fits))]
    pub fn fits(length: Quanta) -> bool
        ensures { result ≡ fits length }
    {
        1 <= length.0 && length <= Window::LONGEST
    }

    pub fn is_idle(self) -> bool
        ensures { result ≡ is_idle self }
    {
        matches!(self, Window::Idle)
    }

    pub fn is_inside(self) -> bool
        ensures { result ≡ is_inside self }
    {
        matches!(self, Window::Inside { .. })
    }

    fn inside_for(length: Quanta) -> Window
        ensures { result ≡ inside_for length }
    {
        Window::Inside {
            timer: Timer::stopped().start(length),
        }
    }

    // The window waits the distance to its start; 0: inside at once.
    #[tactic(auto, unfolding(crate::specs::Window::opened))]
    pub fn opened(now: Count, start: Count, length: Quanta) -> Window
        ensures { result ≡ opened now start length }
    {
        match now.reach(start) {
            None => Window::Idle,
            Some(Quanta(0)) => Window::inside_for(length),
            Some(wait) => Window::Before {
                timer: Timer::stopped().start(wait),
                length,
            },
        }
    }

    fn tick(self) -> Window
        ensures { result ≡ ticked_window self }
    {
        match self {
            Window::Idle => Window::Idle,
            Window::Before { timer, length } => {
                let t = timer.tick();
                if t.rang {
                    return Window::inside_for(length);
                }
                Window::Before {
                    timer: t.timer,
                    length,
                }
            }
            Window::Inside { timer } => {
                let t = timer.tick();
                if t.rang {
                    return Window::Idle;
                }
                Window::Inside { timer: t.timer }
            }
        }
    }

    // Inside with so much left, k ticks on.
    #[tactic(auto, unfolding(crate::specs::Window::inside_after))]
    fn inside_after(timer: Timer, k: u32) -> Window
        ensures { result ≡ inside_after timer k }
    {
        if 0 < timer.left && timer.left <= k {
            return Window::Idle;
        }
        Window::Inside {
            timer: timer.passed(k),
        }
    }

    // k ticks on, across its start and its end.
    #[tactic(auto, unfolding(crate::specs::Window::before_after))]
    pub fn after(self, k: u32) -> Window
        ensures { result ≡ window_after self k }
    {
        match self {
            Window::Idle => Window::Idle,
            Window::Before { timer, length } => {
                if timer.left == 0 || k < timer.left {
                    return Window::Before {
                        timer: timer.passed(k),
                        length,
                    };
                }
                Window::inside_after(Timer::stopped().start(length), k - timer.left)
            }
            Window::Inside { timer } => Window::inside_after(timer, k),
        }
    }

    fn sound(self) -> bool
        ensures { result ≡ sound_window self }
    {
        match self {
            Window::Idle => true,
            Window::Before { timer, length } => timer.runs(Count::FURTHEST) && Window::fits(length),
            Window::Inside { timer } => timer.runs(Window::LONGEST),
        }
    }
}

#[derive(Clone, Copy)]
pub struct Head {
    pub address: Address,
    pub count: Count,
    pub window: Window,
}

impl Head {
    // A head that has not begun.
    pub fn begun(address: Address) -> Head
        ensures { result ≡ begun address }
    {
        Head {
            address,
            count: Count(0),
            window: Window::Idle,
        }
    }

    pub fn with_window(self, window: Window) -> Head
        ensures { result ≡ with_window self window }
    {
        Head { window, ..self }
    }

    // The count, then the window.
    pub fn tick(self) -> Head
        ensures { result ≡ tick_of self }
    {
        Head {
            count: self.count.next(),
            window: self.window.tick(),
            ..self
        }
    }

    // k ticks on.
    pub fn after(self, k: u32) -> Head
        ensures { result ≡ after_of self k }
    {
        Head {
            count: self.count.later(k),
            window: self.window.after(k),
            ..self
        }
    }

    #[tactic(auto, unfolding(crate::specs::Head::sound_of))]
    pub fn sound(self) -> bool
        ensures { result ≡ sound_of self }
    {
        frame_range::individual(self.address) && self.window.sound()
    }
}
