// Words of 64 bits, as the C face keeps states and answers in the caller's memory.
#![tactic(auto)]

ghost use Rattle.std.specs.Prelude.{◌≡◌, [], ◌∷◌, ◌-◌, min};
ghost use Rattle.face_words.specs.Words.{laid, same, narrowed, joined, upper, lower, bit, drift_word};

// The face's own number, which none of the card's is: too little memory is lent, and nothing is touched.
pub const SHORT: u8 = 100;

// Above a number of 32 bits in a word.
const TURN: u64 = 0x1_0000_0000;

// Lays `from` over the beginning of `to`, as far as there is room; what stands behind it stays.
pub fn lay(from: &[u64], to: &mut [u64])
    ensures { to.new ≡ laid from.now to.old }
{
    let n = from.len().min(to.len());
    to[..n].copy_from_slice(&from[..n]);
}

// The same of a single word.
pub fn lay_word(word: u64, to: &mut [u64])
    ensures { to.new ≡ laid (word ∷ []) to.old }
{
    if let Some(first) = to.first_mut() {
        *first = word;
    }
}

// Whether both are the same words.
pub fn same(a: &[u64], b: &[u64]) -> bool
    ensures { result ≡ same a.now b.now }
{
    if a.len() != b.len() {
        return false;
    }
    let mut met = true;
    for (i, x) in a.iter().enumerate() {
        met &= *x == b[i];
    }
    met
}

// A word as a number of 32 bits. One that is too large is taken as the largest, which is no sound state's.
pub fn narrow(word: u64) -> u32
    ensures { result ≡ narrowed word }
{
    u32::try_from(word).unwrap_or(u32::MAX)
}

// Two numbers of 32 bits in a word, one above the other, as a grant's start above its length.
pub fn join(above: u32, below: u32) -> u64
    ensures { result ≡ joined above below }
{
    u64::from(above) * TURN + u64::from(below)
}

// The number above in such a word.
pub fn upper(word: u64) -> u32
    ensures { result ≡ upper word }
{
    (word / TURN) as u32
}

// The number below.
pub fn lower(word: u64) -> u32
    ensures { result ≡ lower word }
{
    (word % TURN) as u32
}

// A bit as a word.
pub fn bit(set: bool) -> u64
    ensures { result ≡ bit set }
{
    u64::from(set)
}

// A drift as a word: two's complement, as C's int64_t reads it.
pub fn of_drift(drift: i64) -> u64
    ensures { result ≡ drift_word drift }
{
    drift.cast_unsigned()
}
