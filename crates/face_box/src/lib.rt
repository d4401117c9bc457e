// A box as words of 64 bits, which is how the C face keeps it in the caller's memory, and a box's answer as words.
#![tactic(auto, using(std::proofs::lemmas::Bool::Decides::nat_tests), unfolding(crate::specs::Box::state_of, crate::specs::Box::discovery_of, crate::specs::Box::phase_of, crate::specs::Box::front_words, crate::specs::Box::front_of, crate::specs::Laying::how_many))]

ghost use Rattle.std.specs.Prelude.{◌≡◌, map, drop};
ghost use Rattle.face_box.specs.Box.{state_word, state_of, registration_of, phase_words, phase_of, light_of, front_words, front_of, boxed, is_clear, has_words, box_words, nobody, box_in};
ghost use Rattle.face_box.specs.Listing.{list_of};
ghost use Rattle.face_box.specs.Laying.{how_many, layout};
ghost use Rattle.face_box.specs.Told.{kind_words, notice_words, told_words};
ghost use Rattle.face_fields.specs.Fields.{span_word, span_of};
ghost use Rattle.face_words.specs.Words.{laid};

use box_calls::FloorBox;
use box_grants::GrantList;
use box_light::{Light, Phase};
use box_processes::Processes;
use box_registration::{Registration, State};
use box_telling::{Notice, Notices};
use clock::Count;
use frame::Address;

// A phase of the transmitter: its number, what it holds of a grant, and the sync held.
#[derive(Clone, Copy)]
pub struct PhaseWords {
    pub phase: u64,
    pub grant: u64,
    pub sync: u64,
}

// A notice: its kind and, of a grant that was taken, start, length and force bit.
#[derive(Clone, Copy)]
pub struct NoticeWords {
    pub kind: u64,
    pub start: u64,
    pub length: u64,
    pub force: u64,
}

// What stands before the list's grants: all that a tick moves when nothing happens at it.
#[derive(Clone, Copy)]
pub struct Front {
    pub address: Address,
    pub count: Count,
    pub registration: Registration,
    pub light: Light,
    pub number: usize,
}

fn entry_words(list: GrantList) -> [u64; 16]
    ensures { result ≡ map span_word list.entries }
{
    let mut out = [0u64; 16];
    for (i, e) in list.entries.iter().enumerate() {
        out[i] = face_fields::span_word(*e);
    }
    out
}

fn list_of(number: usize, words: &[u64; 16]) -> GrantList
    ensures { result ≡ list_of number words.now }
{
    let mut entries = [face_fields::span_of(0); 16];
    for (i, w) in words.iter().enumerate() {
        entries[i] = face_fields::span_of(*w);
    }
    GrantList { entries, number }
}

fn state_word(state: State) -> u64
    ensures { result ≡ state_word state }
{
    match state {
        State::Wait => 0,
        State::Registering => 1,
        State::RegisterReq => 2,
        State::Registered => 3,
    }
}

// A word that is no state's is taken as WAIT.
fn state_of(word: u64) -> State
    ensures { result ≡ state_of word }
{
    match word {
        1 => State::Registering,
        2 => State::RegisterReq,
        3 => State::Registered,
        _ => State::Wait,
    }
}

fn registration_of(
    state: u64,
    wait: u64,
    watchdog: u64,
    report: u64,
    port: u64,
    sync: u64,
) -> Registration
    ensures { result ≡ registration_of state wait watchdog report port sync }
{
    Registration {
        state: state_of(state),
        wait: face_fields::timer_of(wait),
        watchdog: face_fields::timer_of(watchdog),
        report: face_fields::timer_of(report),
        port: face_fields::short_of(port),
        sync: face_fields::quanta_of(sync),
    }
}

fn phase(phase: u64, grant: u64, sync: u64) -> PhaseWords
    ensures { result ≡ record { phase = phase; grant = grant; sync = sync } }
{
    PhaseWords { phase, grant, sync }
}

fn phase_words(held: Phase) -> PhaseWords
    ensures { result ≡ phase_words held }
{
    match held {
        Phase::Rest => phase(0, 0, 0),
        Phase::Before { random, sync } => phase(1, u64::from(random.0), u64::from(sync.0)),
        Phase::Random { sync } => phase(2, 0, u64::from(sync.0)),
        Phase::Warming => phase(3, 0, 0),
        Phase::Asking => phase(4, 0, 0),
        Phase::Due { entry, sync } => phase(5, face_fields::span_word(entry), u64::from(sync.0)),
        Phase::Lit { length, sync } => phase(6, u64::from(length.0), u64::from(sync.0)),
        Phase::Open => phase(7, 0, 0),
        Phase::Fading => phase(8, 0, 0),
    }
}

// A word that is no phase's is taken as rest.
fn phase_of(w: PhaseWords) -> Phase
    ensures { result ≡ phase_of w }
{
    let sync = face_fields::quanta_of(w.sync);
    match w.phase {
        1 => Phase::Before {
            random: face_fields::quanta_of(w.grant),
            sync,
        },
        2 => Phase::Random { sync },
        3 => Phase::Warming,
        4 => Phase::Asking,
        5 => Phase::Due {
            entry: face_fields::span_of(w.grant),
            sync,
        },
        6 => Phase::Lit {
            length: face_fields::quanta_of(w.grant),
            sync,
        },
        7 => Phase::Open,
        8 => Phase::Fading,
        _ => Phase::Rest,
    }
}

fn light_of(word: u64, left: u64, grant: u64, sync: u64) -> Light
    ensures { result ≡ light_of word left grant sync }
{
    Light {
        phase: phase_of(phase(word, grant, sync)),
        timer: face_fields::timer_of(left),
    }
}

pub fn front_words(f: Front) -> [u64; 13]
    ensures { result ≡ front_words f }
{
    let Registration {
        state,
        wait,
        watchdog,
        report,
        port,
        sync,
    } = f.registration;
    let held = phase_words(f.light.phase);
    [
        f.address.0,
        u64::from(f.count.0),
        state_word(state),
        u64::from(wait.left),
        u64::from(watchdog.left),
        u64::from(report.left),
        u64::from(port),
        u64::from(sync.0),
        held.phase,
        u64::from(f.light.timer.left),
        held.grant,
        held.sync,
        f.number as u64,
    ]
}

pub fn front_of(w: [u64; 29]) -> Front
    ensures { result ≡ front_of w }
{
    Front {
        address: Address(w[0]),
        count: face_fields::count_of(w[1]),
        registration: registration_of(w[2], w[3], w[4], w[5], w[6], w[7]),
        light: light_of(w[8], w[9], w[10], w[11]),
        number: w[12] as usize,
    }
}

// The words of the list's sixteen places.
pub fn entries_in(w: [u64; 29]) -> [u64; 16]
    ensures { result ≡ drop 13 w }
{
    let mut entries = [0u64; 16];
    entries.copy_from_slice(&w[13..]);
    entries
}

// The whole box.
pub fn pack(b: FloorBox) -> [u64; 29]
    ensures { result ≡ box_words b }
{
    let Processes {
        count,
        registration,
        list,
        light,
    } = b.processes;
    let front = Front {
        address: b.address,
        count,
        registration,
        light,
        number: list.number,
    };
    let mut w = [0u64; 29];
    w[..13].copy_from_slice(&front_words(front));
    w[13..].copy_from_slice(&entry_words(list));
    w
}

// Nothing stands in these words. All are looked at, which is faster than to end at the first that isn't 0.
pub fn is_clear(words: &[u64]) -> bool
    ensures { result ≡ is_clear words.now }
{
    words.iter().fold(true, |clear, w| clear & (*w == 0))
}

// Whether a box with this front has just these words.
pub fn has_words(front: Front, w: [u64; 29]) -> bool
    ensures { result ≡ has_words front w }
{
    let behind = 13 + front.number.min(GrantList::ROOM);
    face_words::same(&front_words(front), &w[..13]) & is_clear(&w[behind..])
}

// What a refused fresh box is: sound nowhere, for its address.
fn nobody() -> FloorBox
    ensures { result ≡ nobody }
{
    FloorBox {
        address: Address(0),
        processes: Processes::fresh(),
    }
}

// The box with this front and the list's sixteen places.
fn box_with(front: Front, entries: &[u64; 16]) -> FloorBox
    ensures { result ≡ boxed front (map span_of entries.now) }
{
    FloorBox {
        address: front.address,
        processes: Processes {
            count: front.count,
            registration: front.registration,
            list: list_of(front.number, entries),
            light: front.light,
        },
    }
}

// The box that the words tell.
pub fn unpack(w: [u64; 29]) -> FloorBox
    ensures { result ≡ box_in w }
{
    let front = front_of(w);
    if has_words(front, w) {
        return box_with(front, &entries_in(w));
    }
    nobody()
}

fn kind(kind: u64) -> NoticeWords
    ensures { result ≡ kind_words kind }
{
    NoticeWords {
        kind,
        start: 0,
        length: 0,
        force: 0,
    }
}

fn notice_words(notice: Notice) -> NoticeWords
    ensures { result ≡ notice_words notice }
{
    match notice {
        Notice::Nothing => kind(0),
        Notice::Window => kind(1),
        Notice::Registered => kind(2),
        Notice::Refused => kind(3),
        Notice::Retry => kind(4),
        Notice::Deregistered => kind(5),
        Notice::Granted(grant) => NoticeWords {
            kind: 6,
            start: u64::from(grant.start.0),
            length: u64::from(grant.length.0),
            force: face_words::bit(grant.force),
        },
        Notice::Open => kind(7),
        Notice::Close => kind(8),
    }
}

// How many stand before the first that is nothing, by their kinds.
fn number(a: u64, b: u64, c: u64, d: u64) -> usize
    ensures { result ≡ how_many a b c d }
{
    match (a, b, c, d) {
        (0, ..) => 0,
        (_, 0, ..) => 1,
        (_, _, 0, _) => 2,
        (_, _, _, 0) => 3,
        _ => 4,
    }
}

fn layout(
    drift: i64,
    frames: usize,
    number: usize,
    a: NoticeWords,
    b: NoticeWords,
    c: NoticeWords,
    d: NoticeWords,
) -> [u64; 19]
    ensures { result ≡ layout drift frames number a b c d }
{
    [
        face_words::of_drift(drift),
        frames as u64,
        number as u64,
        a.kind,
        a.start,
        a.length,
        a.force,
        b.kind,
        b.start,
        b.length,
        b.force,
        c.kind,
        c.start,
        c.length,
        c.force,
        d.kind,
        d.start,
        d.length,
        d.force,
    ]
}

// What a call tells: the drift, how many frames, how many notices, and these in order. Words behind the last stay.
pub fn tell(drift: i64, frames: usize, notices: Notices, reply: &mut [u64])
    ensures { reply.new ≡ laid (told_words drift frames notices) reply.old }
{
    let a = notice_words(notices.first);
    let b = notice_words(notices.second);
    let c = notice_words(notices.third);
    let d = notice_words(notices.fourth);
    let n = number(a.kind, b.kind, c.kind, d.kind);
    let words = layout(drift, frames, n, a, b, c, d);
    let end = 3 + 4 * n;
    face_words::lay(&words[..end], reply);
}
