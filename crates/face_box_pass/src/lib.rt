// The box's quiet ticks over its words where they lie in the caller's memory: how many are sure, and so many of them made. No box is taken
// from the words, and only those that move are written.
#![tactic(auto, using(std::proofs::lemmas::Bool::Decides::nat_tests), unfolding(crate::specs::Judging::rings_in, crate::specs::Judging::times_of, crate::specs::Judging::fits_beside, crate::specs::Judging::is_served, crate::specs::Judging::light_of, crate::specs::Judging::discovery_of, crate::specs::Judging::is_own, crate::specs::Judging::are_held, crate::specs::Judging::is_listed, crate::specs::Judging::shines_of, crate::specs::Judging::judged_of))]

ghost use Rattle.std.specs.Prelude.{◌≡◌, ◌+◌, ◌%◌};
ghost use Rattle.face_box_pass.specs.Block.{until_call};
ghost use Rattle.face_box_pass.specs.Judging.{rings_in, times_of, fits_beside, is_served, light_of, is_own, are_short, is_among, are_held, is_listed, shines_of, judged_of};
ghost use Rattle.face_box_pass.specs.Passing.{moved_of, passed_words_of};

use clock::{Quanta, Timer};
use face_box::is_clear;
use frame::Address;

// Words of a box, and the place of its list's first grant.
const BOX: usize = 29;

const GRANTS: usize = 13;

// A count is below this.
const COUNTS: u64 = 0x1_0000_0000;

// A length, a sync time or a port is sixteen bits.
const SIXTEEN_BITS: u64 = 0xFFFF;

// The core's lengths, as words.
const LASER_ON: u64 = Quanta::LASER_ON.0 as u64;

const FRAME: u64 = Quanta::FRAME.0 as u64;

const LASER_OFF: u64 = Quanta::LASER_OFF.0 as u64;

// What a grant needs beside its sync time, and the longest sync time that leaves room for it.
const NEEDED: u64 = LASER_ON + FRAME + LASER_OFF;

const LONGEST_SYNC: u64 = SIXTEEN_BITS - NEEDED;

// The longest that a discovery window's laser settles, and that a normal window is open.
const LONGEST_WARMING: u64 = SIXTEEN_BITS - FRAME - LASER_OFF;

const LONGEST_OPEN: u64 = SIXTEEN_BITS - LASER_ON - LASER_OFF;

// A timer that runs, and has no more left than its longest setting: the ticks before the one at which it rings. None of any other.
fn rings_in(left: u64, most: u64) -> u64
    ensures { result ≡ rings_in left most }
{
    if most < left {
        return 0;
    }
    left.saturating_sub(1)
}

// Each state runs its own timers and no other.
fn times(state: u64, wait: u64, watchdog: u64, report: u64) -> u64
    ensures { result ≡ times_of state wait watchdog report }
{
    let unwatched = (watchdog == 0) & (report == 0);
    match state {
        0 | 1 if unwatched & (wait == 0) => u64::from(Timer::FURTHEST_ADVANCE),
        2 if unwatched => rings_in(wait, 3_125_000),
        3 if wait == 0 => rings_in(watchdog, 62_500_000).min(rings_in(report, 3_125_000)),
        _ => 0,
    }
}

// A random wait has room beside what a grant needs.
fn fits_beside(random: u64, sync: u64) -> bool
    ensures { result ≡ fits_beside random sync }
{
    random.saturating_add(sync) <= LONGEST_SYNC
}

// A length of sixteen bits that is not below what a grant needs.
fn is_served(length: u64, sync: u64) -> bool
    ensures { result ≡ is_served length sync }
{
    (NEEDED.saturating_add(sync) <= length) & (length <= SIXTEEN_BITS)
}

// A transmitter that isn't at rest; whether a grant that is waited for is one of the list is judged apart.
fn light(phase: u64, left: u64, grant: u64, sync: u64) -> u64
    ensures { result ≡ light_of phase left grant sync }
{
    let bare = (grant == 0) & (sync == 0);
    match phase {
        1 if fits_beside(grant, sync) => rings_in(left, 62_500_000),
        2 if (grant == 0) & fits_beside(left, sync) => rings_in(left, SIXTEEN_BITS),
        3 if bare => rings_in(left, LONGEST_WARMING),
        4 if bare => rings_in(left, FRAME),
        5 if is_served(u64::from(face_words::lower(grant)), sync) => rings_in(left, 0x7FFF_FFFF),
        6 if is_served(grant, sync) => rings_in(left, LASER_ON + sync),
        7 if bare => rings_in(left, LONGEST_OPEN),
        8 if bare => rings_in(left, LASER_OFF),
        _ => 0,
    }
}

// What no timer and no grant is judged with.
fn is_own(address: u64, count: u64, port: u64, sync: u64) -> bool
    ensures { result ≡ is_own address count port sync }
{
    count < COUNTS
        && port <= SIXTEEN_BITS
        && sync <= SIXTEEN_BITS
        && frame_range::individual(Address(address))
}

// The lengths of these grants are sixteen bits. All are looked at, which is faster than to end at the first that is longer.
fn are_short(grants: &[u64]) -> bool
    ensures { result ≡ are_short grants.now }
{
    grants.iter().fold(
        true,
        |short, w| short & (u64::from(face_words::lower(*w)) <= SIXTEEN_BITS),
    )
}

fn is_among(grants: &[u64], grant: u64) -> bool
    ensures { result ≡ is_among grant grants.now }
{
    grants.iter().fold(false, |met, w| met | (*w == grant))
}

// Grants are held only when REGISTERED, and one that is waited for is among them. Behind them is nothing, which is short too: to look at all
// places is faster than to look at some.
fn are_held(b: &[u64; BOX], number: u64, state: u64, phase: u64, grant: u64) -> bool
    ensures { result ≡ are_held b.now number state phase grant }
{
    if 16 < number || state != 3 {
        return false;
    }
    let end = GRANTS + number as usize;
    if is_clear(&b[end..]) & are_short(&b[GRANTS..]) {
        return phase != 5 || is_among(&b[GRANTS..end], grant);
    }
    false
}

fn is_listed(b: &[u64; BOX], number: u64, state: u64, phase: u64, grant: u64) -> bool
    ensures { result ≡ is_listed b.now number state phase grant }
{
    if number == 0 {
        return phase != 5 && is_clear(&b[GRANTS..]);
    }
    are_held(b, number, state, phase, grant)
}

// In WAIT the transmitter is at rest.
fn shines(b: &[u64; BOX], state: u64, phase: u64) -> u64
    ensures { result ≡ shines_of b.now state phase }
{
    let (left, grant, sync, number) = (b[9], b[10], b[11], b[12]);
    if state != 0 && is_listed(b, number, state, phase, grant) {
        return light(phase, left, grant, sync);
    }
    0
}

// At rest there is no timer, grant or sync time, and grants would be to choose from: no word behind the phase is other than 0.
fn judged(b: &[u64; BOX]) -> u64
    ensures { result ≡ judged_of b.now }
{
    let [
        address,
        count,
        state,
        wait,
        watchdog,
        report,
        port,
        sync,
        phase,
        ..
    ] = *b;
    if !is_own(address, count, port, sync) {
        return 0;
    }
    let t = times(state, wait, watchdog, report);
    if phase != 0 {
        return t.min(shines(b, state, phase));
    }
    if is_clear(&b[9..]) {
        return t;
    }
    0
}

// How many ticks of the box in the block are sure to be done and to hand out nothing: none where its words are no sound box's.
pub fn quiet(block: &[u64]) -> u32
    ensures { result ≡ until_call block.now }
{
    let Some(b) = block.first_chunk::<BOX>() else {
        return 0;
    };
    judged(b).min(u64::from(Timer::FURTHEST_ADVANCE)) as u32
}

// The count wraps.
fn later(count: u64, k: u32) -> u64
    ensures { result ≡ (count + k) % 4294967296 }
{
    (count % COUNTS + u64::from(k)) % COUNTS
}

fn move_on(b: &mut [u64; BOX], ticks: u32)
    ensures { b.new ≡ moved_of b.old ticks }
{
    let k = u64::from(ticks);
    b[1] = later(b[1], ticks);
    b[3] = b[3].saturating_sub(k);
    b[4] = b[4].saturating_sub(k);
    b[5] = b[5].saturating_sub(k);
    b[9] = b[9].saturating_sub(k);
}

// So many quiet ticks: the count moves, and the timers that run.
pub fn pass(block: &mut [u64], k: u32)
    ensures { block.new ≡ passed_words_of block.old k }
{
    if let Some(b) = block.first_chunk_mut::<BOX>() {
        move_on(b, k);
    }
}
