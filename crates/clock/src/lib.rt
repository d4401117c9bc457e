// The clock: counts, lengths and timers (R6 to R29).
#![tactic(auto)]

ghost use Rattle.std.specs.Prelude.{◌≡◌, ◌-◌, min};
ghost use Rattle.clock.specs.Counts.{next_of, later_of, distance, is_past, nearer, reach, drift_of, round_trip};
ghost use Rattle.clock.specs.Numbers.{start_in_range, is_in_reach, fits, needed};
ghost use Rattle.clock.specs.Spans.{none, same, nearer_of};
ghost use Rattle.clock.specs.Timers.{stopped, off, runs, ticked, passed_of, quiet_of};

// A call advances by 1 to 65,536 ticks.
pub fn in_reach(n: u64) -> bool
    ensures { result ≡ is_in_reach n }
{
    (1..=u64::from(Timer::FURTHEST_ADVANCE)).contains(&n)
}

// How many of n ticks are passed before the last one, which is made: no more than are quiet.
pub fn passing(quiet: u32, n: u64) -> u32
    ensures { result ≡ min quiet (n - 1) }
{
    u64::from(quiet).min(n.saturating_sub(1)) as u32
}

// A reading of the 32-bit counter.
#[derive(Clone, Copy, PartialEq, Eq)]
pub struct Count(pub u32);

// A length: a number of quanta.
#[derive(Clone, Copy, PartialEq, Eq, PartialOrd, Ord)]
pub struct Quanta(pub u32);

// What is kept of a grant.
#[derive(Clone, Copy, PartialEq, Eq)]
pub struct Span {
    pub start: Count,
    pub length: Quanta,
}

impl Quanta {
    pub const LASER_ON: Quanta = Quanta(32);

    pub const LASER_OFF: Quanta = Quanta(32);

    // A frame of 60 octets.
    pub const FRAME: Quanta = Quanta(42);

    // A grant's length and a sync time are sixteen bits.
    pub const MOST: Quanta = Quanta(65_535);

    pub fn fits(self) -> bool
        ensures { result ≡ fits self }
    {
        self <= Quanta::MOST
    }

    // The length that a grant needs, with this sync time.
    pub fn needed(sync: Quanta) -> u64
        ensures { result ≡ needed sync.0 }
    {
        let lasers = u64::from(Quanta::LASER_ON.0) + u64::from(Quanta::LASER_OFF.0);
        lasers + u64::from(sync.0) + u64::from(Quanta::FRAME.0)
    }
}

impl Count {
    // The furthest grant start, as a distance from now.
    pub const FURTHEST: Quanta = Quanta(62_500_000);

    // From half a turn on, a difference is taken as negative.
    const HALF: u32 = 1 << 31;

    // The counter wraps after a turn.
    const TURN: i64 = 1 << 32;

    // One quantum later; the counter wraps.
    pub fn next(self) -> Count
        ensures { result ≡ next_of self }
    {
        Count(self.0.wrapping_add(1))
    }

    // So many quanta later.
    pub fn later(self, k: u32) -> Count
        ensures { result ≡ later_of self k }
    {
        Count(self.0.wrapping_add(k))
    }

    // The distance from this count to another, in -2^31 .. 2^31 - 1.
    pub fn distance(self, to: Count) -> i64
        ensures { result ≡ distance self.0 to.0 }
    {
        let d = to.0.wrapping_sub(self.0);
        if d < Count::HALF {
            return d as i64;
        }
        d as i64 - Count::TURN
    }

    // Whether a count is past, seen from this one.
    pub fn is_past(self, at: Count) -> bool
        ensures { result ≡ is_past self.0 at.0 }
    {
        self.distance(at) < 0
    }

    // Whether `a` is nearer than `b`, seen from this count.
    pub fn nearer(self, a: Count, b: Count) -> bool
        ensures { result ≡ nearer self.0 a.0 b.0 }
    {
        self.distance(a) < self.distance(b)
    }

    // Past, or how far ahead, seen from this count.
    pub fn reach(self, at: Count) -> Option<Quanta>
        ensures { result ≡ reach self.0 at.0 }
    {
        let d = self.distance(at);
        if d < 0 {
            return None;
        }
        Some(Quanta(d as u32))
    }

    // A grant that starts then may be taken now.
    pub fn start_in_range(self, start: Count) -> bool
        ensures { result ≡ start_in_range self.0 start.0 }
    {
        self.reach(start)
            .is_some_and(|wait| wait <= Count::FURTHEST)
    }

    // The box's drift: how far the timestamp is from its own count.
    pub fn drift(self, timestamp: Count) -> i64
        ensures { result ≡ drift_of self.0 timestamp.0 }
    {
        self.distance(timestamp)
    }

    // The head's round trip: this count less the timestamp, modulo 2^32.
    pub fn round_trip(self, timestamp: Count) -> Quanta
        ensures { result ≡ record { 0 = round_trip self.0 timestamp.0 } }
    {
        let since = timestamp.distance(self);
        if since < 0 {
            return Quanta((since + Count::TURN) as u32);
        }
        Quanta(since as u32)
    }
}

impl Span {
    pub fn none() -> Span
        ensures { result ≡ none }
    {
        Span {
            start: Count(0),
            length: Quanta(0),
        }
    }

    // Start and length both match.
    pub fn same(self, other: Span) -> bool
        ensures { result ≡ same self other }
    {
        self == other
    }

    // The nearer of two, and of two that are as near this one.
    pub fn nearer(self, now: Count, other: Span) -> Span
        ensures { result ≡ nearer_of now.0 self other }
    {
        if now.nearer(other.start, self.start) {
            return other;
        }
        self
    }
}

// A timer: the ticks that are left, 0 when it is stopped.
#[derive(Clone, Copy)]
pub struct Timer {
    pub left: u32,
}

// A timer after a tick, and whether it rang at it.
#[derive(Clone, Copy)]
pub struct Ticked {
    pub timer: Timer,
    pub rang: bool,
}

impl Timer {
    // omp_timer
    pub const WATCHDOG: Quanta = Quanta(62_500_000);

    // Periodic GATE and periodic REPORT.
    pub const PERIODIC: Quanta = Quanta(3_125_000);

    // Wait for REGISTER and wait for REGISTER_ACK.
    pub const WAIT: Quanta = Quanta(3_125_000);

    // The most ticks that a call advances by.
    pub const FURTHEST_ADVANCE: u32 = 65_536;

    pub fn stopped() -> Timer
        ensures { result ≡ stopped }
    {
        Timer { left: 0 }
    }

    pub fn start(self, setting: Quanta) -> Timer
        ensures { result ≡ record { left = setting.0 } }
    {
        Timer { left: setting.0 }
    }

    pub fn stop(self) -> Timer
        ensures { result ≡ stopped }
    {
        Timer::stopped()
    }

    // One tick less; it rings at its last one. A stopped timer stays so.
    pub fn tick(self) -> Ticked
        ensures { result ≡ ticked self }
    {
        if self.left == 0 {
            return Ticked {
                timer: self,
                rang: false,
            };
        }
        Ticked {
            timer: Timer {
                left: self.left - 1,
            },
            rang: self.left == 1,
        }
    }

    // After k ticks, at none of which it rings.
    pub fn passed(self, k: u32) -> Timer
        ensures { result ≡ passed_of self k }
    {
        Timer {
            left: self.left.saturating_sub(k),
        }
    }

    // How many ticks come before the one at which it rings; a stopped timer never rings.
    pub fn quiet(self) -> u32
        ensures { result ≡ quiet_of self }
    {
        if self.left == 0 {
            return Timer::FURTHEST_ADVANCE;
        }
        self.left - 1
    }

    pub fn off(self) -> bool
        ensures { result ≡ off self }
    {
        self.left == 0
    }

    // It runs, and has no more left than its longest setting.
    pub fn runs(self, most: Quanta) -> bool
        ensures { result ≡ runs self most.0 }
    {
        (1..=most.0).contains(&self.left)
    }
}
