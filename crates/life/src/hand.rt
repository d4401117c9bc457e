// A box that is handed in again with one part of it changed.
use crate::calls::Part;
use box_calls::FloorBox;
use box_light::{Light, Phase};
use clock::Timer;

pub fn with(b: FloorBox, part: Part) -> FloorBox {
    let mut next = b;
    match part {
        Part::Wait(left) => next.processes.registration.wait = Timer { left },
        Part::Watchdog(left) => next.processes.registration.watchdog = Timer { left },
        Part::Report(left) => next.processes.registration.report = Timer { left },
        // It is on for a discovery window.
        Part::Laser(left) => {
            next.processes.light = Light {
                phase: Phase::Warming,
                timer: Timer { left },
            }
        }
        Part::Held(number) => next.processes.list.number = number as usize,
    }
    next
}
