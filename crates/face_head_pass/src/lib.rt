// The head's quiet ticks in place: the words of a head and of its links are judged where they stand in the caller's memory, and only those
// that move are written.
#![tactic(auto)]

ghost use Rattle.std.specs.Prelude.{◌≡◌, ◌+◌, ◌≤◌, ◌<◌, eqb, leb, length, get_or, set, replicate};
ghost use Rattle.std.specs.List.{list_all, list_any};
ghost use Rattle.face_head_pass.specs.Passed.{passed_at, passed_head, passed_links};
ghost use Rattle.face_head_pass.specs.Judge.{fits, near, still, nearest_to, table_of, address_at, place_of, spotted, differ_to, window_fits, head_fits, quiet_links};
ghost use Rattle.face_head_pass.specs.Quiet.{head_at, until_call};
ghost use Rattle.face_head.specs.Head.{head_words};
ghost use Rattle.face_head.specs.Table.{words_at};
ghost use Rattle.clock.specs.Timers.{runs};
ghost use Rattle.head_state.specs.Head.{after_of};
ghost use Rattle.frame_range.specs.Fits.{is_individual};
ghost use Rattle.face_words.specs.Words.{laid};

use clock::{Count, Timer};
use face_head::LinkWords;
use frame::Address;
use head_links::Link;
use head_state::{Head, Window};

// Words of a head, and of a link.
const HEAD: usize = 5;

const LINK: usize = 5;

// Settings of the timers, and the longest window.
const WAIT: u64 = Timer::WAIT.0 as u64;

const WATCHDOG: u64 = Timer::WATCHDOG.0 as u64;

const PERIODIC: u64 = Timer::PERIODIC.0 as u64;

const FURTHEST: u64 = Count::FURTHEST.0 as u64;

const LONGEST: u64 = Window::LONGEST.0 as u64;

// The tick behind the last that a call may pass.
const BEHIND: u64 = Timer::FURTHEST_ADVANCE as u64 + 1;

// Up to so many links are few: they need few marks, and to clear many takes longer than to judge them.
const FEW: usize = 8;

fn runs(left: u64, most: u64) -> bool
    ensures { result ≡ runs (record { left = left }) most }
{
    (1 <= left) & (left <= most)
}

fn individual(word: u64) -> bool
    ensures { result ≡ is_individual (record { 0 = word }) }
{
    frame_range::individual(Address(word))
}

// The links' words, five a link; none where there are more than a table may have.
fn table(words: &[u64]) -> &[[u64; 5]]
    ensures { result.now ≡ table_of words.now }
{
    let (links, _) = words.as_chunks();
    if links.len() <= Link::MOST {
        return links;
    }
    &links[..0]
}

// The words are a sound link's, but that a timer which must run may be 0.
fn fits(w: LinkWords) -> bool
    ensures { result ≡ fits w }
{
    match w.state {
        1 => individual(w.address) & (w.wait <= WAIT) & (w.watchdog == 0) & (w.periodic == 0),
        2 => {
            individual(w.address)
                & (w.wait == 0)
                & (w.watchdog <= WATCHDOG)
                & (w.periodic <= PERIODIC)
        }
        _ => {
            (w.state == 0)
                & (w.address == 0)
                & (w.wait == 0)
                & (w.watchdog == 0)
                & (w.periodic == 0)
        }
    }
}

// The least of m and what is left of the timers that must run.
fn near(w: LinkWords, m: u64) -> u64
    ensures { result ≡ near w m }
{
    match w.state {
        1 => m.min(w.wait),
        2 => m.min(w.watchdog).min(w.periodic),
        _ => m,
    }
}

// The tick at which the first of the links rings; 0 where one of them isn't sound.
fn nearest(links: &[[u64; 5]]) -> u64
    ensures { result ≡ nearest_to (length links.now) links.now }
{
    let mut m = BEHIND;
    for words in links {
        let w = LinkWords::of(words);
        if !fits(w) {
            return 0;
        }
        m = near(w, m);
    }
    m
}

// The words are a sound link's, and none of its timers rings at the next tick.
fn still(w: LinkWords) -> bool
    ensures { result ≡ still w }
{
    match w.state {
        1 => {
            individual(w.address)
                & (2 <= w.wait)
                & (w.wait <= WAIT)
                & (w.watchdog == 0)
                & (w.periodic == 0)
        }
        2 => {
            individual(w.address)
                & (w.wait == 0)
                & (2 <= w.watchdog)
                & (w.watchdog <= WATCHDOG)
                & (2 <= w.periodic)
                & (w.periodic <= PERIODIC)
        }
        _ => {
            (w.state == 0)
                & (w.address == 0)
                & (w.wait == 0)
                & (w.watchdog == 0)
                & (w.periodic == 0)
        }
    }
}

fn all_still(links: &[[u64; 5]]) -> bool
    ensures { result ≡ list_all (λ w. still (words_at w)) links.now }
{
    links.iter().all(|words| still(LinkWords::of(words)))
}

// Where the mark of an address stands: neighbours have places of their own, and so have most that differ only above.
fn place(a: u64, marks: usize) -> usize
    requires { 1 ≤ marks }
    ensures { result ≡ place_of a marks }
{
    (a % 65536 + a / 1024 % 65536) as usize % marks
}

fn holds(links: &[[u64; 5]], a: u64) -> bool
    ensures { result ≡ list_any (λ w. eqb (get_or w 0 0) a) links.now }
{
    links.iter().any(|words| words[0] == a)
}

// A link before i has its address, which is searched for only where its mark is met; idle links have address 0, each of them.
fn repeats(marks: &mut [u8], links: &[[u64; 5]], i: usize) -> bool
    requires { (1 ≤ length marks.old) × (i < length links.now) }
    ensures { (result ≡ spotted marks.old links.now i) × (marks.new ≡ set marks.old (place_of (address_at i links.now) (length marks.old)) 1) }
{
    let a = links[i][0];
    let p = place(a, marks.len());
    let met = marks[p];
    marks[p] = 1;
    if met == 0 || a == 0 {
        return false;
    }
    holds(&links[..i], a)
}

fn differ(marks: &mut [u8], links: &[[u64; 5]]) -> bool
    requires { (1 ≤ length marks.old) × (marks.old ≡ replicate (length marks.old) 0) }
    ensures { result ≡ differ_to (length links.now) links.now }
{
    for i in 0..links.len() {
        if repeats(marks, links, i) {
            return false;
        }
    }
    true
}

fn differ_in<const N: usize>(links: &[[u64; 5]]) -> bool
    requires { (1 ≤ N) × (N ≤ 1024) }
    ensures { result ≡ differ_to (length links.now) links.now }
{
    differ(&mut [0u8; N], links)
}

// No two of the links have an address but 0.
fn all_differ(links: &[[u64; 5]]) -> bool
    ensures { result ≡ differ_to (length links.now) links.now }
{
    match links.len() {
        0 | 1 => true,
        2..=FEW => differ_in::<128>(links),
        _ => differ_in::<1024>(links),
    }
}

fn window_fits(phase: u64, left: u64, length: u64) -> bool
    ensures { result ≡ window_fits phase left length }
{
    match phase {
        0 => (left == 0) & (length == 0),
        1 => runs(left, FURTHEST) & runs(length, LONGEST),
        _ => (phase == 2) & runs(left, LONGEST) & (length == 0),
    }
}

fn head_fits(head: &[u64; 5]) -> bool
    ensures { result ≡ head_fits head.now }
{
    let [address, count, phase, left, length] = *head;
    individual(address) & (count <= u64::from(u32::MAX)) & window_fits(phase, left, length)
}

// How many ticks of the links hand out nothing.
fn quiet_links(links: &[[u64; 5]]) -> u32
    ensures { result ≡ quiet_links links.now }
{
    if links.is_empty() {
        return 0;
    }
    let m = nearest(links);
    if m < 2 {
        return 0;
    }
    if all_differ(links) {
        return (m - 1) as u32;
    }
    0
}

// How many ticks of the head in the block hand out nothing, at most 65,536: none of what is unsound.
pub fn quiet(head: &[u64], links: &[u64]) -> u32
    ensures { result ≡ until_call head.now links.now }
{
    let Some(head) = head.first_chunk() else {
        return 0;
    };
    if head_fits(head) {
        return quiet_links(table(links));
    }
    0
}

// Whether the next tick hands out nothing: most calls ask no more.
pub fn is_quiet(head: &[u64], links: &[u64]) -> bool
    ensures { result ≡ leb 1 (until_call head.now links.now) }
{
    let Some(head) = head.first_chunk() else {
        return false;
    };
    if !head_fits(head) {
        return false;
    }
    let links = table(links);
    if links.is_empty() {
        return false;
    }
    if !all_still(links) {
        return false;
    }
    all_differ(links)
}

fn pass_at(links: &mut [u64], at: usize, k: u64)
    requires { at + 5 ≤ length links.old }
    ensures { links.new ≡ passed_at at links.old k }
{
    links[at + 2] = links[at + 2].saturating_sub(k);
    links[at + 3] = links[at + 3].saturating_sub(k);
    links[at + 4] = links[at + 4].saturating_sub(k);
}

// The links k ticks on, none of which rings: each timer that runs has k less.
pub fn pass_links(links: &mut [u64], k: u64)
    ensures { links.new ≡ passed_links links.old k }
{
    for i in 0..face_head::links_in(links.len()) {
        pass_at(links, LINK * i, k);
    }
}

// The head in a block; words that a short block lacks are 0.
pub fn load_head(head: &[u64]) -> Head
    ensures { result ≡ head_at head.now }
{
    let mut w = [0u64; 5];
    face_words::lay(head, &mut w);
    face_head::head_in(w)
}

fn pass_window(head: &mut [u64], k: u32)
    ensures { head.new ≡ laid (head_words (after_of (head_at head.old) k)) head.old }
{
    let next = load_head(head).after(k);
    face_words::lay(&face_head::pack_head(next), head);
}

// The head k ticks on. Where its window is idle only the count moves.
pub fn pass_head(head: &mut [u64], k: u32)
    ensures { head.new ≡ passed_head head.old k }
{
    if head.len() < HEAD {
        return;
    }
    if head[2] == 0 {
        let count = face_fields::count_of(head[1]);
        head[1] = u64::from(count.later(k).0);
        return;
    }
    pass_window(head, k);
}
