// A head, its table of links and its answer as words of 64 bits, which is how the C face keeps them in the caller's memory.
#![tactic(auto)]

ghost use Rattle.std.specs.Prelude.{◌≡◌, ◌+◌, ◌≤◌, min, ◌++◌, length, take, drop};
ghost use Rattle.face_head.specs.Head.{window_words, window_of, head_words, head_of, head_in};
ghost use Rattle.face_head.specs.Table.{state_word, state_of, link_words, link_of, no_link, five, link_in, words_at, links_in, room_of, loaded, stored};
ghost use Rattle.face_head.specs.Told.{kind_word, sets_of, told_words};
ghost use Rattle.face_words.specs.Words.{laid};

use clock::Timer;
use frame::Address;
use frame_queues::Sets;
use head_calls::Answer;
use head_links::{Link, State};
use head_plans::Kind;
use head_state::{Head, Window};

// Words of a link.
const LINK: usize = 5;

// The discovery window: its phase, the ticks left, and the length that it keeps.
#[derive(Clone, Copy)]
pub struct WindowWords {
    pub phase: u64,
    pub left: u64,
    pub length: u64,
}

#[derive(Clone, Copy)]
pub struct LinkWords {
    pub address: u64,
    pub state: u64,
    pub wait: u64,
    pub watchdog: u64,
    pub periodic: u64,
}

impl LinkWords {
    pub fn of(words: &[u64; 5]) -> LinkWords
        ensures { result ≡ words_at words.now }
    {
        let [address, state, wait, watchdog, periodic] = *words;
        LinkWords {
            address,
            state,
            wait,
            watchdog,
            periodic,
        }
    }
}

fn window_words(window: Window) -> WindowWords
    ensures { result ≡ window_words window }
{
    match window {
        Window::Idle => WindowWords {
            phase: 0,
            left: 0,
            length: 0,
        },
        Window::Before { timer, length } => WindowWords {
            phase: 1,
            left: u64::from(timer.left),
            length: u64::from(length.0),
        },
        Window::Inside { timer } => WindowWords {
            phase: 2,
            left: u64::from(timer.left),
            length: 0,
        },
    }
}

// A word that is no phase's is taken as idle.
fn window_of(w: WindowWords) -> Window
    ensures { result ≡ window_of w }
{
    let timer = face_fields::timer_of(w.left);
    match w.phase {
        1 => Window::Before {
            timer,
            length: face_fields::quanta_of(w.length),
        },
        2 => Window::Inside { timer },
        _ => Window::Idle,
    }
}

pub fn pack_head(h: Head) -> [u64; 5]
    ensures { result ≡ head_words h }
{
    let window = window_words(h.window);
    [
        h.address.0,
        u64::from(h.count.0),
        window.phase,
        window.left,
        window.length,
    ]
}

// What the words tell, each field by itself.
fn head_of(w: [u64; 5]) -> Head
    ensures { result ≡ head_of w }
{
    let [address, count, phase, left, length] = w;
    Head {
        address: Address(address),
        count: face_fields::count_of(count),
        window: window_of(WindowWords {
            phase,
            left,
            length,
        }),
    }
}

// The head in the words. Words that no head packs to are nobody's.
pub fn head_in(w: [u64; 5]) -> Head
    ensures { result ≡ head_in w }
{
    let head = head_of(w);
    if face_words::same(&pack_head(head), &w) {
        return head;
    }
    Head::begun(Address(0))
}

fn state_word(state: State) -> u64
    ensures { result ≡ state_word state }
{
    match state {
        State::Idle => 0,
        State::Waiting => 1,
        State::Registered => 2,
    }
}

fn state_of(word: u64) -> State
    ensures { result ≡ state_of word }
{
    match word {
        1 => State::Waiting,
        2 => State::Registered,
        _ => State::Idle,
    }
}

fn link_words(l: Link) -> LinkWords
    ensures { result ≡ link_words l }
{
    LinkWords {
        address: l.address.0,
        state: state_word(l.state),
        wait: u64::from(l.wait.left),
        watchdog: u64::from(l.watchdog.left),
        periodic: u64::from(l.periodic.left),
    }
}

// What the words tell, each field by itself.
fn link_of(w: LinkWords) -> Link
    ensures { result ≡ link_of w }
{
    Link {
        address: Address(w.address),
        state: state_of(w.state),
        wait: face_fields::timer_of(w.wait),
        watchdog: face_fields::timer_of(w.watchdog),
        periodic: face_fields::timer_of(w.periodic),
    }
}

fn five(w: LinkWords) -> [u64; 5]
    ensures { result ≡ five w }
{
    [w.address, w.state, w.wait, w.watchdog, w.periodic]
}

// An idle link whose wait runs, and past every setting: sound nowhere.
fn no_link() -> Link
    ensures { result ≡ no_link }
{
    Link {
        address: Address(0),
        state: State::Idle,
        wait: Timer { left: u32::MAX },
        watchdog: Timer::stopped(),
        periodic: Timer::stopped(),
    }
}

// The link in the words. Words that no link packs to are nobody's.
fn link_in(w: LinkWords) -> Link
    ensures { result ≡ link_in w }
{
    let link = link_of(w);
    if face_words::same(&five(link_words(link)), &five(w)) {
        return link;
    }
    no_link()
}

// Over the five words at a place.
fn put_link(words: &mut [u64], at: usize, l: Link)
    requires { at + 5 ≤ length words.old }
    ensures { words.new ≡ take at words.old ++ five (link_words l) ++ drop (at + 5) words.old }
{
    words[at..at + LINK].copy_from_slice(&five(link_words(l)));
}

// How many links so many words hold. More than a table may have are taken as none, which is no table either.
pub fn links_in(words: usize) -> usize
    ensures { result ≡ links_in words }
{
    let n = words / LINK;
    if n <= Link::MOST {
        return n;
    }
    0
}

// How many links both have room for.
fn both(words: usize, links: usize) -> usize
    ensures { result ≡ room_of words links }
{
    (words / LINK).min(links)
}

// The links in the words over the lent ones, as many as both have room for; links behind them stay.
pub fn load_links(words: &[u64], links: &mut [Link])
    ensures { links.new ≡ loaded words.now links.old }
{
    let (table, _) = words.as_chunks();
    for i in 0..both(words.len(), links.len()) {
        links[i] = link_in(LinkWords::of(&table[i]));
    }
}

// The first n links, as far as the words have room for them; words behind them stay.
pub fn store_links(links: &[Link], n: usize, words: &mut [u64])
    ensures { words.new ≡ stored links.now n words.old }
{
    for i in 0..n.min(both(words.len(), links.len())) {
        put_link(words, LINK * i, links[i]);
    }
}

fn kind_word(kind: Kind) -> u64
    ensures { result ≡ kind_word kind }
{
    match kind {
        Kind::Nothing => 0,
        Kind::Request => 1,
        Kind::Registered => 2,
        Kind::Dropped => 3,
        Kind::Report(_) => 4,
    }
}

// The queue sets of a REPORT, and of no other notice.
fn sets_of(kind: Kind) -> Sets
    ensures { result ≡ sets_of kind }
{
    match kind {
        Kind::Report(sets) => sets,
        _ => Sets::NONE,
    }
}

// Tells how many frames there are, how many notices, and the notice's kind, link, round trip and queue sets; without a notice its words stay.
pub fn tell(answer: Answer, reply: &mut [u64])
    ensures { reply.new ≡ laid (told_words answer) reply.old }
{
    let frames = answer.frames as u64;
    let notice = answer.notice;
    if let Kind::Nothing = notice.kind {
        face_words::lay(&[frames, 0], reply);
        return;
    }
    let sets = sets_of(notice.kind);
    let words = [
        frames,
        1,
        kind_word(notice.kind),
        notice.link as u64,
        u64::from(notice.trip.0),
        sets.first,
        sets.second,
        sets.third,
        sets.fourth,
        sets.fifth,
    ];
    face_words::lay(&words, reply);
}
