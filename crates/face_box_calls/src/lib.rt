// The box's calls over words in the caller's memory: the box is taken from them, and laid back where a call is done.
#![tactic(auto)]

ghost use Rattle.std.specs.Prelude.{◌≡◌, ◌≤◌, length, ◌&&◌, [], ◌∷◌, leb};
ghost use Rattle.face_box_calls.specs.Advancing.{advanced_of};
ghost use Rattle.face_box_calls.specs.Calls.{told, left, is_lent, heard_of, laid_one, laid_both, laid_frames, told_of, handed, settled, fresh_call, box_call, advance_left, advance_call, next_call};
ghost use Rattle.face_box_pass.specs.Block.{words_at, box_at, until_call};
ghost use Rattle.clock.specs.Numbers.{is_in_reach};
ghost use Rattle.face_box.specs.Box.{box_words};
ghost use Rattle.face_words.specs.Words.{laid};
ghost use Rattle.frame_queues.specs.Asked.{asked_of};
ghost use Rattle.box_calls.specs.Box.{register_of, deregister_of, report_of, tick_of};

use box_calls::{Answer, FloorBox};
use box_telling::Frames;
use face_words::SHORT;
use frame::Address;
use frame_queues::Sets;

// Words of a box, octets of the frames that a call hands out, words of what it tells at most.
const BOX: usize = 29;

const FRAMES: usize = 120;

const REPLY: usize = 19;

// The words of the box in a block; those that a short block lacks are 0.
fn words_in(block: &[u64]) -> [u64; 29]
    ensures { result ≡ words_at block.now }
{
    let mut w = [0u64; 29];
    face_words::lay(block, &mut w);
    w
}

fn load(block: &[u64]) -> FloorBox
    ensures { result ≡ box_at block.now }
{
    face_box::unpack(words_in(block))
}

fn is_lent(block: usize, frames: usize, reply: usize) -> bool
    ensures { result ≡ is_lent block frames reply }
{
    (BOX <= block) & (FRAMES <= frames) & (REPLY <= reply)
}

fn lay_both(first: [u8; 60], second: [u8; 60], frames: &mut [u8])
    requires { 120 ≤ length frames.old }
    ensures { frames.new ≡ laid_both first second frames.old }
{
    frames[..60].copy_from_slice(&first);
    frames[60..120].copy_from_slice(&second);
}

fn lay_one(first: [u8; 60], frames: &mut [u8])
    requires { 60 ≤ length frames.old }
    ensures { frames.new ≡ laid_one first frames.old }
{
    frames[..60].copy_from_slice(&first);
}

// The frames that are handed out, the second after the first; octets that no frame takes stay.
fn lay_frames(sent: Frames, frames: &mut [u8])
    requires { 120 ≤ length frames.old }
    ensures { frames.new ≡ laid_frames sent frames.old }
{
    match sent.number {
        0 => {}
        1 => lay_one(sent.first, frames),
        _ => lay_both(sent.first, sent.second, frames),
    }
}

// What a call tells and sends goes into the caller's memory, and its number back.
fn tell(answer: Answer, frames: &mut [u8], reply: &mut [u64]) -> u8
    requires { 120 ≤ length frames.old }
    ensures { told result frames.new reply.new ≡ told_of answer frames.old reply.old }
{
    face_box::tell(answer.drift, answer.frames.number, answer.notices, reply);
    lay_frames(answer.frames, frames);
    answer.reply.number()
}

fn keep(b: FloorBox, block: &mut [u64])
    ensures { block.new ≡ laid (box_words b) block.old }
{
    face_words::lay(&face_box::pack(b), block);
}

// The box that a call answers with goes into the block.
fn hand_out(answer: Answer, block: &mut [u64], frames: &mut [u8], reply: &mut [u64]) -> u8
    requires { 120 ≤ length frames.old }
    ensures { left result block.new frames.new reply.new ≡ handed answer block.old frames.old reply.old }
{
    keep(answer.next, block);
    tell(answer, frames, reply)
}

// A refusal leaves the block as it was, whatever its words.
fn settle(answer: Answer, block: &mut [u64], frames: &mut [u8], reply: &mut [u64]) -> u8
    requires { 120 ≤ length frames.old }
    ensures { left result block.new frames.new reply.new ≡ settled answer block.old frames.old reply.old }
{
    if answer.reply.number() == 0 {
        return hand_out(answer, block, frames, reply);
    }
    tell(answer, frames, reply)
}

// A quiet tick tells and sends nothing.
fn tell_nothing(reply: &mut [u64])
    ensures { reply.new ≡ laid (0 ∷ 0 ∷ 0 ∷ []) reply.old }
{
    face_words::lay(&[0; 3], reply);
}

fn heard(b: FloorBox, octets: &[u8], random: u32) -> Answer
    ensures { result ≡ heard_of octets.now random b }
{
    let reading = frame_reader::read(octets);
    if reading.reply.number() != 0 {
        return b.refused(reading.reply);
    }
    b.hear(reading.message, random)
}

// A box that has not begun.
pub fn fresh(address: u64, block: &mut [u64], frames: &mut [u8], reply: &mut [u64]) -> u8
    ensures { left result block.new frames.new reply.new ≡ fresh_call address block.old frames.old reply.old }
{
    if is_lent(block.len(), frames.len(), reply.len()) {
        return hand_out(FloorBox::fresh(Address(address)), block, frames, reply);
    }
    SHORT
}

// The client asks to register.
pub fn register(block: &mut [u64], frames: &mut [u8], reply: &mut [u64]) -> u8
    ensures { left result block.new frames.new reply.new ≡ box_call register_of block.old frames.old reply.old }
{
    if is_lent(block.len(), frames.len(), reply.len()) {
        return settle(load(block).register(), block, frames, reply);
    }
    SHORT
}

// The client asks to deregister.
pub fn deregister(block: &mut [u64], frames: &mut [u8], reply: &mut [u64]) -> u8
    ensures { left result block.new frames.new reply.new ≡ box_call deregister_of block.old frames.old reply.old }
{
    if is_lent(block.len(), frames.len(), reply.len()) {
        return settle(load(block).deregister(), block, frames, reply);
    }
    SHORT
}

// The client asks for a REPORT: so many queue sets, and their octets.
pub fn report(
    number: u8,
    sets: &[u8],
    block: &mut [u64],
    frames: &mut [u8],
    reply: &mut [u64],
) -> u8
    ensures { left result block.new frames.new reply.new ≡ box_call (report_of (asked_of number sets.now)) block.old frames.old reply.old }
{
    if is_lent(block.len(), frames.len(), reply.len()) {
        return settle(
            load(block).report(Sets::asked(number, sets)),
            block,
            frames,
            reply,
        );
    }
    SHORT
}

// The octets of a frame that came, read and heard, with the caller's random number.
pub fn hear(
    octets: &[u8],
    random: u32,
    block: &mut [u64],
    frames: &mut [u8],
    reply: &mut [u64],
) -> u8
    ensures { left result block.new frames.new reply.new ≡ box_call (heard_of octets.now random) block.old frames.old reply.old }
{
    if is_lent(block.len(), frames.len(), reply.len()) {
        return settle(heard(load(block), octets, random), block, frames, reply);
    }
    SHORT
}

// Nearly every tick is a quiet one, which is made where the words lie.
pub fn tick(block: &mut [u64], frames: &mut [u8], reply: &mut [u64]) -> u8
    ensures { left result block.new frames.new reply.new ≡ box_call tick_of block.old frames.old reply.old }
{
    if is_lent(block.len(), frames.len(), reply.len()) {
        if 1 <= face_box_pass::quiet(block) {
            face_box_pass::pass(block, 1);
            tell_nothing(reply);
            return 0;
        }
        return settle(load(block).tick(), block, frames, reply);
    }
    SHORT
}

// The core's advance.
fn count_ticks(
    n: u64,
    block: &mut [u64],
    frames: &mut [u8],
    reply: &mut [u64],
    made: &mut [u64],
) -> u8
    requires { 120 ≤ length frames.old }
    ensures { advance_left (left result block.new frames.new reply.new) made.new ≡ advanced_of n block.old frames.old reply.old made.old }
{
    let advanced = load(block).advance(n);
    face_words::lay_word(advanced.made, made);
    settle(advanced.answer, block, frames, reply)
}

// A call may make so many ticks, and each of them is quiet.
fn are_quiet(n: u64, block: &[u64]) -> bool
    ensures { result ≡ (is_in_reach n && leb n (until_call block.now)) }
{
    clock::in_reach(n) && n <= u64::from(face_box_pass::quiet(block))
}

// So many ticks, until one hands something out or the next would be refused: quiet ones are made in a step, where the words lie.
pub fn advance(
    n: u64,
    block: &mut [u64],
    frames: &mut [u8],
    reply: &mut [u64],
    made: &mut [u64],
) -> u8
    ensures { advance_left (left result block.new frames.new reply.new) made.new ≡ advance_call n block.old frames.old reply.old made.old }
{
    if made.is_empty() {
        return SHORT;
    }
    if is_lent(block.len(), frames.len(), reply.len()) {
        if are_quiet(n, block) {
            face_box_pass::pass(block, n as u32);
            tell_nothing(reply);
            face_words::lay_word(n, made);
            return 0;
        }
        return count_ticks(n, block, frames, reply, made);
    }
    SHORT
}

// How many ticks are sure to be done and to hand out nothing.
pub fn ticks_until(block: &[u64]) -> u64
    ensures { result ≡ until_call block.now }
{
    u64::from(face_box_pass::quiet(block))
}

// Which waiting frame goes next: 0 none, 1 the control frame, 2 the data frame.
pub fn next_to_send<'a>(block: &[u64], control: &'a [u8], data: &'a [u8]) -> u8
    ensures { result ≡ next_call block.now control.entry «data».entry }
{
    if block.len() < BOX {
        return SHORT;
    }
    if load(block).next_to_send(control, data).is_empty() {
        return 0;
    }
    if !control.is_empty() {
        return 1;
    }
    2
}
