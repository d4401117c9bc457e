// The floor box: its processes with an own address, and its calls. Each answers every input (R72).
#![tactic(auto)]

ghost use Rattle.std.specs.Prelude.{◌≡◌};
ghost use Rattle.frame.specs.declared.Reply.TheVariants.{Done};
ghost use Rattle.box_calls.specs.Answer.{bare, refused, message_of, framed, accepted};
ghost use Rattle.frame_writer.specs.Write.{write_of};
ghost use Rattle.box_light.specs.Light.{remaining};
ghost use Rattle.box_calls.specs.Box.{sound_of, fresh_of, register_of, deregister_of, report_of, tick_of};
ghost use Rattle.laws.specs.Ticks.{ticks};
ghost use Rattle.box_calls.specs.Advance.{is_done, is_silent, again, out, advance_of};
ghost use Rattle.box_calls.specs.Leap.{passed_of, leap_of};
ghost use Rattle.box_calls.specs.Pass.{quiet_of};
ghost use Rattle.box_calls.specs.Hear.{is_discovery, is_for, heard_of, hear_of};
ghost use Rattle.box_calls.specs.Send.{fits_in, send_of};

use box_processes::{Processes, Step};
use box_telling::{Frames, Notices};
use clock::Count;
use frame::{Address, Body, Message, Reply};
use frame_queues::Sets;

#[derive(Clone, Copy)]
pub struct FloorBox {
    pub address: Address,
    pub processes: Processes,
}

// What a call is answered with: the number on the card, the drift, the box after the call, the frames that it hands out, the notices.
#[derive(Clone, Copy)]
pub struct Answer {
    pub reply: Reply,
    pub drift: i64,
    pub next: FloorBox,
    pub frames: Frames,
    pub notices: Notices,
}

// An advance: the answer of the last tick made, or a refusal, and how many ticks were made.
#[derive(Clone, Copy)]
pub struct Advanced {
    pub answer: Answer,
    pub made: u64,
}

// R99.
fn written(source: Address, now: Count, body: Body) -> [u8; 60]
    ensures { result ≡ (write_of (message_of source now body)).octets }
{
    let message = Message {
        destination: Address::MULTICAST,
        source,
        timestamp: now,
        body,
    };
    frame_writer::write(message).octets
}

fn frame(source: Address, now: Count, frames: Frames, sent: Option<Body>) -> Frames
    ensures { result ≡ framed source now frames sent }
{
    match sent {
        None => frames,
        Some(body) => frames.and(written(source, now, body)),
    }
}

impl Answer {
    fn is_done(self) -> bool
        ensures { result ≡ is_done self }
    {
        self.reply == Reply::Done
    }

    // Neither a frame nor a notice.
    fn is_silent(self) -> bool
        ensures { result ≡ is_silent self }
    {
        (self.frames.number == 0) & self.notices.first.is_nothing()
    }

    // The answer of the last of k quiet ticks after this one.
    #[tactic(auto, unfolding(crate::specs::Leap::leap_of))]
    fn leap(self, k: u32) -> Answer
        ensures { result ≡ leap_of k self }
    {
        if k == 0 {
            return self;
        }
        self.next.passed(k).bare(Reply::Done)
    }
}

impl FloorBox {
    // A box that has not begun; with another address than an individual one it is refused, and holds address zero.
    #[tactic(auto, unfolding(crate::specs::Box::fresh_of))]
    pub fn fresh(address: Address) -> Answer
        ensures { result ≡ fresh_of address }
    {
        let fresh = FloorBox {
            address,
            processes: Processes::fresh(),
        };
        if frame_range::individual(address) {
            return fresh.bare(Reply::Done);
        }
        let blank = FloorBox {
            address: Address(0),
            ..fresh
        };
        blank.refused(Reply::Range)
    }

    pub fn sound(self) -> bool
        ensures { result ≡ sound_of self }
    {
        frame_range::individual(self.address) & self.processes.sound()
    }

    // A number, and nothing else.
    fn bare(self, reply: Reply) -> Answer
        ensures { result ≡ bare self reply }
    {
        Answer {
            reply,
            drift: 0,
            next: self,
            frames: Frames::none(),
            notices: Notices::none(),
        }
    }

    // A refusal changes nothing.
    pub fn refused(self, reply: Reply) -> Answer
        ensures { result ≡ refused self reply }
    {
        self.bare(reply)
    }

    // What a step makes of the box, with activation at its end.
    fn accepted(self, drift: i64, step: Step) -> Answer
        ensures { result ≡ accepted self drift step }
    {
        let now = step.next.count;
        let first = frame(self.address, now, Frames::none(), step.first);
        let frames = frame(self.address, now, first, step.second);
        let next = FloorBox {
            address: self.address,
            processes: box_activation::activate(step.next),
        };
        Answer {
            reply: Reply::Done,
            drift,
            next,
            frames,
            notices: step.notices,
        }
    }

    // The client asks to register.
    #[tactic(auto, unfolding(crate::specs::Box::register_of))]
    pub fn register(self) -> Answer
        ensures { result ≡ register_of self }
    {
        let registration = self.processes.registration;
        if !self.sound() {
            return self.refused(Reply::Unsound);
        }
        if !registration.is_waiting() {
            return self.refused(Reply::State);
        }
        let begun = self.processes.with_registration(registration.registering());
        self.accepted(0, Step::still(begun))
    }

    // The client asks to deregister.
    #[tactic(auto, unfolding(crate::specs::Box::deregister_of))]
    pub fn deregister(self) -> Answer
        ensures { result ≡ deregister_of self }
    {
        if !self.sound() {
            return self.refused(Reply::Unsound);
        }
        if !self.processes.registration.is_registered() {
            return self.refused(Reply::State);
        }
        self.accepted(0, Step::local_deregister(self.processes))
    }

    // The client asks for a REPORT with these queue sets.
    #[tactic(auto, unfolding(crate::specs::Box::report_of))]
    pub fn report(self, sets: Sets) -> Answer
        ensures { result ≡ report_of sets self }
    {
        if !self.sound() {
            return self.refused(Reply::Unsound);
        }
        if !self.processes.registration.is_registered() {
            return self.refused(Reply::State);
        }
        if !sets.fits() {
            return self.refused(Reply::Range);
        }
        self.accepted(0, Step::reporting(self.processes, sets))
    }

    // A message, with the caller's random number.
    #[tactic(auto, unfolding(crate::specs::Hear::hear_of))]
    pub fn hear(self, message: Message, random: u32) -> Answer
        ensures { result ≡ hear_of self message random }
    {
        if !self.sound() {
            return self.refused(Reply::Unsound);
        }
        if message.body.goes_to_head() {
            return self.refused(Reply::Direction);
        }
        if !self.is_for(message.destination, message.body) {
            return self.refused(Reply::Party);
        }
        if !frame_range::message(message) {
            return self.refused(Reply::Range);
        }
        self.heard(message, random)
    }

    // Before any step the count is set to the timestamp.
    fn heard(self, message: Message, random: u32) -> Answer
        ensures { result ≡ heard_of self message random }
    {
        let drift = self.processes.count.drift(message.timestamp);
        let own = message.destination == self.address;
        let timed = self.processes.with_count(message.timestamp);
        self.accepted(drift, box_hearing::hear(timed, message.body, own, random))
    }

    // A discovery GATE may carry 01-80-C2-00-00-01 instead of the box's address.
    fn is_for(self, destination: Address, body: Body) -> bool
        ensures { result ≡ is_for self destination body }
    {
        (destination == self.address) | (is_discovery(body) & (destination == Address::MULTICAST))
    }

    #[tactic(auto, unfolding(crate::specs::Box::tick_of))]
    pub fn tick(self) -> Answer
        ensures { result ≡ tick_of self }
    {
        if !self.sound() {
            return self.refused(Reply::Unsound);
        }
        let step = box_ticking::tick(self.processes);
        if !step.ok {
            return self.refused(Reply::Window);
        }
        self.accepted(0, step)
    }

    // How many ticks are sure to be done and to hand out nothing.
    #[tactic(auto, unfolding(crate::specs::Pass::quiet_of))]
    fn quiet(self) -> u32
        ensures { result ≡ quiet_of self }
    {
        if self.sound() {
            return self.processes.quiet();
        }
        0
    }

    // After k such ticks, at least one.
    fn passed(self, k: u32) -> FloorBox
        ensures { result ≡ passed_of self k }
    {
        FloorBox {
            processes: self.processes.passed(k),
            ..self
        }
    }

    // Single ticks, at most n: those that are sure to be silent are passed at once.
    fn ticks(self, n: u64) -> Advanced
        ensures { result ≡ ticks again is_done is_silent out n (bare self Done) 0 }
    {
        let mut last = self.bare(Reply::Done);
        let mut made: u64 = 0;
        while made < n {
            let k = clock::passing(last.next.quiet(), n - made);
            let before = last.leap(k);
            let r = before.next.tick();
            let passed = made + u64::from(k);
            if !r.is_done() {
                if passed == 0 {
                    return Advanced { answer: r, made: 0 };
                }
                return Advanced {
                    answer: before,
                    made: passed,
                };
            }
            made = passed + 1;
            if !r.is_silent() {
                return Advanced { answer: r, made };
            }
            last = r;
        }
        Advanced { answer: last, made }
    }

    // So many ticks in one call, up to the first that hands something out.
    #[tactic(auto, unfolding(crate::specs::Advance::advance_of))]
    pub fn advance(self, n: u64) -> Advanced
        ensures { result ≡ advance_of self n }
    {
        if !self.sound() {
            return Advanced {
                answer: self.refused(Reply::Unsound),
                made: 0,
            };
        }
        if !clock::in_reach(n) {
            return Advanced {
                answer: self.refused(Reply::Grant),
                made: 0,
            };
        }
        self.ticks(n)
    }

    // Whether a frame of n octets fits the window's remaining ticks.
    fn fits(self, n: usize) -> bool
        ensures { result ≡ fits_in (remaining self.processes.light) n }
    {
        let octets = 2 * u64::from(self.processes.light.remaining());
        octets.checked_sub(24).is_some_and(|most| n as u64 <= most)
    }

    // The waiting frame that goes next, or the empty part of the control frame's buffer.
    #[tactic(auto, unfolding(crate::specs::Send::send_of))]
    pub fn next_to_send<'a>(self, control: &'a [u8], data: &'a [u8]) -> &'a [u8]
        ensures { (result.ref_ptr ≡ (send_of self control.entry «data».entry).ref_ptr) × (result.now ≡ (send_of self control.entry «data».entry).now) }
    {
        let registration = self.processes.registration;
        let c = control.len();
        let d = data.len();
        if (0 < c) & self.fits(c) {
            return control;
        }
        if (c == 0) & (0 < d) & registration.is_registered() & self.fits(d) {
            return data;
        }
        &control[..0]
    }
}

fn is_discovery(body: Body) -> bool
    ensures { result ≡ is_discovery body }
{
    matches!(body, Body::Discovery { .. })
}
