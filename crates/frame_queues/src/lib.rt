// The queue sets of a REPORT: the forty octets of its body, held as five numbers.
#![tactic(auto)]

ghost use Rattle.std.specs.Prelude.{◌≡◌, ◌+◌, ◌≤◌, ◌<◌, ◌∷◌, length, get_or};
ghost use Rattle.octets.specs.Octets.{bytes, value, field_of};
ghost use Rattle.octets.specs.Over.{over};
ghost use Rattle.frame_queues.specs.Queues.{past_of, used_of, cleared, forty_of, sets_of, fits_sets, ends_at};
ghost use Rattle.frame_queues.specs.Asked.{padded, asked_of};

// Eight octets to each number, most significant first: how many sets, the sets, and zeros.
#[derive(Clone, Copy, PartialEq, Eq)]
pub struct Sets {
    pub first: u64,
    pub second: u64,
    pub third: u64,
    pub fourth: u64,
    pub fifth: u64,
}

// Octets of a body.
const BODY: usize = 40;

// How many sets a body has: its first octet.
fn count(s: &[u8]) -> u8
    ensures { result ≡ get_or s.now 0 0 }
{
    s.first().copied().unwrap_or(0)
}

// Where the set ends whose bitmap stands at `at`.
fn past(s: &[u8], at: usize) -> usize
    requires { at < 65536 }
    ensures value { result ≡ past_of s.now at }
    ensures upper_bound { result ≤ at + 17 }
{
    match s.get(at) {
        Some(bitmap) => at + 1 + 2 * bitmap.count_ones() as usize,
        None => at + 1,
    }
}

// How many octets of a body are no pad. Sets that run past it count more than it has.
// The first set stands at a place that the compiler knows: what was just written there needn't be read back.
pub fn used(s: &[u8]) -> usize
    ensures { result ≡ used_of s.now }
{
    let n = count(s);
    if n == 0 {
        return 1;
    }
    let mut at = past(s, 1);
    for _ in 1..n {
        at = past(s, at);
    }
    at
}

// The first k octets of a number of eight; the others are 0.
fn first(x: u64, k: usize) -> u64
    ensures { result ≡ value (cleared k (bytes 8 x)) }
{
    if k == 0 {
        return 0;
    }
    if 8 <= k {
        return x;
    }
    let low = 64 - 8 * k;
    x >> low << low
}

// The eight octets of x, written over `out` from `at`. By value: through a reference the test of sets takes longer.
fn lay(mut out: [u8; 40], at: usize, x: u64) -> [u8; 40]
    requires { at + 8 ≤ 40 }
    ensures { result ≡ over at out (bytes 8 x) }
{
    octets::put(&mut out[at..at + 8], x);
    out
}

// The number in the eight octets from `at`, or in as many as there are. Apart, so that it is read as one number: `field` over any width, five
// times in a row, is compiled to single octets.
fn word(s: &[u8], at: usize) -> u64
    ensures { result ≡ field_of s.now at 8 }
{
    octets::field(s, at, 8)
}

// A body of so many sets, with these octets and zeros behind them.
fn begun(number: u8, octets: &[u8]) -> [u8; 40]
    requires { length octets.now ≤ 39 }
    ensures { result ≡ padded (number ∷ octets.now) }
{
    let mut o = [0u8; 40];
    o[0] = number;
    o[1..=octets.len()].copy_from_slice(octets);
    o
}

impl Sets {
    pub const NONE: Sets = Sets {
        first: 0,
        second: 0,
        third: 0,
        fourth: 0,
        fifth: 0,
    };

    // What doesn't fit: 255 sets.
    const UNFIT: Sets = Sets {
        first: u64::MAX,
        ..Sets::NONE
    };

    // What a client asks for: so many sets, whose octets these are, just so many and at most 39. Else sets that don't fit.
    pub fn asked(number: u8, octets: &[u8]) -> Sets
        ensures { result ≡ asked_of number octets.now }
    {
        if BODY <= octets.len() {
            return Sets::UNFIT;
        }
        let body = begun(number, octets);
        if used(&body) == 1 + octets.len() {
            return Sets::of(&body);
        }
        Sets::UNFIT
    }

    // The forty octets.
    pub fn octets(self) -> [u8; 40]
        ensures { result ≡ forty_of self }
    {
        let o = lay([0; 40], 0, self.first);
        let o = lay(o, 8, self.second);
        let o = lay(o, 16, self.third);
        let o = lay(o, 24, self.fourth);
        lay(o, 32, self.fifth)
    }

    // And back.
    pub fn of(s: &[u8]) -> Sets
        ensures { result ≡ sets_of s.now }
    {
        Sets {
            first: word(s, 0),
            second: word(s, 8),
            third: word(s, 16),
            fourth: word(s, 24),
            fifth: word(s, 32),
        }
    }

    // The first n octets; the others are 0.
    pub fn cut(self, n: usize) -> Sets
        ensures { result ≡ sets_of (cleared n (forty_of self)) }
    {
        Sets {
            first: first(self.first, n),
            second: first(self.second, n.saturating_sub(8)),
            third: first(self.third, n.saturating_sub(16)),
            fourth: first(self.fourth, n.saturating_sub(24)),
            fifth: first(self.fifth, n.saturating_sub(32)),
        }
    }

    // Whether n octets are at most forty, and zeros stand behind them. From 32 on only the last number has any behind them.
    pub fn ends(self, n: usize) -> bool
        ensures { result ≡ ends_at n self }
    {
        if n < 32 {
            let cut = self.cut(n);
            return cut == self;
        }
        n <= BODY && first(self.fifth, n - 32) == self.fifth
    }

    // Whether the sets don't run past the forty octets, and zeros stand behind them.
    pub fn fits(self) -> bool
        ensures { result ≡ fits_sets self }
    {
        self.ends(used(&self.octets()))
    }
}
