// The head's calls over words in the caller's memory: head and table are taken from them, and laid back where a call is done.
#![tactic(auto)]

ghost use Rattle.std.specs.Prelude.{◌≡◌, ◌≤◌, get_or, replicate};
ghost use Rattle.face_head_calls.specs.Answered.{answer_left, told_of, answered_of, quiet_by};
ghost use Rattle.face_head_calls.specs.Calls.{left, begun_left, advance_left, told, is_lent, laid_head, kept_head, begun_head, refused_of, served_of, heard_of, begun_of, advanced_of, advance_call};
ghost use Rattle.face_head_calls.specs.Gate.{asked_of};
ghost use Rattle.face_head_calls.specs.Lend.{kept_of, lend_left, lend_of, clear_left, clear_of};
ghost use Rattle.face_head_pass.specs.Quiet.{until_call};
ghost use Rattle.face_head.specs.Table.{links_in};
ghost use Rattle.head_judging.specs.Judge.{has_room};
ghost use Rattle.head_judging.specs.declared.Call.{Call as Called};
ghost use Rattle.head_links.specs.Link.{idle};
ghost use Rattle.face_fields.specs.Fields.{span_of};
ghost use Rattle.face_words.specs.Words.{laid};

use clock::Span;
use face_words::SHORT;
use frame::{Address, Message, Reply};
use head_calls::Answer;
use head_gating::Asked;
use head_judging::Call;
use head_links::Link;
use head_state::Head;

// Words of a head, and of what a call of it tells.
const HEAD: usize = 5;

const REPLY: usize = 10;

// Up to so many links are few.
const FEW: usize = 8;

const MANY: usize = Link::MOST;

// How many links a call lays back in the words: all where it is done, none where it is refused.
fn kept(answer: Answer, links: usize) -> usize
    ensures { result ≡ kept_of answer links }
{
    if answer.reply == Reply::Done {
        links
    } else {
        0
    }
}

// The lent links are those in the words for as long as the call takes.
fn lend(head: Head, words: &mut [u64], links: &mut [Link], call: Call, out: &mut [u8]) -> Answer
    ensures { lend_left result words.new out.new ≡ lend_of head words.old links.old call out.old }
{
    face_head::load_links(words, links);
    let answer = head_calls::serve(head, links, call, out);
    face_head::store_links(links, kept(answer, links.len()), words);
    answer
}

// A fresh head reads no link.
fn clear(address: Address, words: &mut [u64], links: &mut [Link]) -> Answer
    ensures { clear_left result words.new ≡ clear_of address words.old links.old }
{
    let answer = head_calls::fresh(address, links);
    face_head::store_links(links, kept(answer, links.len()), words);
    answer
}

// A call that lends links of its own, which are made anew: n of the N that there is room for.
fn lend_in<const N: usize>(
    head: Head,
    words: &mut [u64],
    n: usize,
    call: Call,
    out: &mut [u8],
) -> Answer
    requires { (n ≤ N) × (N ≤ 64) }
    ensures { lend_left result words.new out.new ≡ lend_of head words.old (replicate n idle) call out.old }
{
    let mut table = [Link::idle(); N];
    lend(head, words, &mut table[..n], call, out)
}

fn clear_all(address: Address, words: &mut [u64], n: usize) -> Answer
    requires { n ≤ 64 }
    ensures { clear_left result words.new ≡ clear_of address words.old (replicate n idle) }
{
    let mut table = [Link::idle(); MANY];
    clear(address, words, &mut table[..n])
}

// Most tables are small, and a table of many links takes long to make.
fn lend_all(head: Head, words: &mut [u64], n: usize, call: Call, out: &mut [u8]) -> Answer
    requires { n ≤ 64 }
    ensures { lend_left result words.new out.new ≡ lend_of head words.old (replicate n idle) call out.old }
{
    if n <= FEW {
        return lend_in::<FEW>(head, words, n, call, out);
    }
    lend_in::<MANY>(head, words, n, call, out)
}

fn is_lent(head: usize, reply: usize) -> bool
    ensures { result ≡ is_lent head reply }
{
    (HEAD <= head) & (REPLY <= reply)
}

fn lay_head(answer: Answer, head: &mut [u64])
    ensures { head.new ≡ laid_head answer head.old }
{
    face_words::lay(&face_head::pack_head(answer.next), head);
}

// A refused call leaves the block as it was, so that words that are no head's stay.
fn keep_head(answer: Answer, head: &mut [u64])
    ensures { head.new ≡ kept_head answer head.old }
{
    if answer.reply != Reply::Done {
        return;
    }
    lay_head(answer, head);
}

fn tell(answer: Answer, reply: &mut [u64]) -> u8
    ensures { told result reply.new ≡ told_of answer reply.old }
{
    face_head::tell(answer, reply);
    answer.reply.number()
}

// The core's call of the head in the block, over the links that the words tell.
fn answered(call: Call, head: &mut [u64], links: &mut [u64], out: &mut [u8]) -> Answer
    ensures { answer_left result head.new links.new out.new ≡ answered_of call head.old links.old out.old }
{
    let h = face_head_pass::load_head(head);
    let n = face_head::links_in(links.len());
    let answer = lend_all(h, links, n, call, out);
    keep_head(answer, head);
    answer
}

// A call of the head in the block, over the links that the words tell.
pub fn served(
    call: Call,
    head: &mut [u64],
    links: &mut [u64],
    out: &mut [u8],
    reply: &mut [u64],
) -> u8
    ensures { left result head.new links.new out.new reply.new ≡ served_of call head.old links.old out.old reply.old }
{
    if is_lent(head.len(), reply.len()) {
        let answer = answered(call, head, links, out);
        return tell(answer, reply);
    }
    SHORT
}

// No frame, no notice.
fn tell_nothing(reply: &mut [u64])
    ensures { reply.new ≡ laid (replicate 2 0) reply.old }
{
    face_words::lay(&[0; 2], reply);
}

// A frame that the reader refuses changes nothing, and nothing is told.
fn refused(why: Reply, head: &[u64], reply: &mut [u64]) -> u8
    ensures { told result reply.new ≡ refused_of why head.now reply.old }
{
    if is_lent(head.len(), reply.len()) {
        tell_nothing(reply);
        return why.number();
    }
    SHORT
}

// The octets of a frame that came on a link, read and heard.
pub fn heard(
    link: usize,
    octets: &[u8],
    head: &mut [u64],
    links: &mut [u64],
    out: &mut [u8],
    reply: &mut [u64],
) -> u8
    ensures { left result head.new links.new out.new reply.new ≡ heard_of link octets.now head.old links.old out.old reply.old }
{
    let reading = frame_reader::read(octets);
    if reading.reply == Reply::Done {
        let message = reading.message;
        return served(Call::Hear { link, message }, head, links, out, reply);
    }
    refused(reading.reply, head, reply)
}

// A table of no allowed size leaves the block as it was too; a head that is refused for its address holds address zero.
fn lay_begun(answer: Answer, head: &mut [u64])
    ensures { head.new ≡ begun_head answer head.old }
{
    if answer.reply != Reply::Unsound {
        lay_head(answer, head);
    }
}

// A head that has not begun, over as many links as the words hold.
pub fn begun(address: Address, head: &mut [u64], links: &mut [u64], reply: &mut [u64]) -> u8
    ensures { begun_left result head.new links.new reply.new ≡ begun_of address head.old links.old reply.old }
{
    if is_lent(head.len(), reply.len()) {
        let n = face_head::links_in(links.len());
        let answer = clear_all(address, links, n);
        lay_begun(answer, head);
        return tell(answer, reply);
    }
    SHORT
}

// A grant that isn't there is one of start 0, length 0.
fn span_at(grants: &[u64], i: usize) -> Span
    ensures { result ≡ span_of (get_or grants.now i 0) }
{
    face_fields::span_of(grants.get(i).copied().unwrap_or(0))
}

// What a gate request asks for, one word a grant.
pub fn asked(grants: &[u64], force: u8) -> Asked
    ensures { result ≡ asked_of grants.now force }
{
    Asked {
        number: grants.len(),
        first: span_at(grants, 0),
        second: span_at(grants, 1),
        third: span_at(grants, 2),
        fourth: span_at(grants, 3),
        force,
    }
}

// Sixty octets of output for each link.
fn has_room(links: usize, octets: usize) -> bool
    ensures { result ≡ has_room (links_in links) octets }
{
    Message::OCTETS * face_head::links_in(links) <= octets
}

// One quantum has passed. A quiet tick is made in place.
pub fn tick(head: &mut [u64], links: &mut [u64], out: &mut [u8], reply: &mut [u64]) -> u8
    ensures { left result head.new links.new out.new reply.new ≡ served_of Called.Tick head.old links.old out.old reply.old }
{
    if is_lent(head.len(), reply.len())
        && has_room(links.len(), out.len())
        && face_head_pass::is_quiet(head, links)
    {
        face_head_pass::pass_head(head, 1);
        face_head_pass::pass_links(links, 1);
        tell_nothing(reply);
        return 0;
    }
    served(Call::Tick, head, links, out, reply)
}

// How many ticks of the head hand out nothing: those before the first at which a link rings.
pub fn ticks_until(head: &[u64], links: &[u64]) -> u64
    ensures { result ≡ until_call head.now links.now }
{
    u64::from(face_head_pass::quiet(head, links))
}

// So many ticks, where each is quiet.
fn quiet_by(n: u64, head: &[u64], links: &[u64], out: usize) -> bool
    ensures { result ≡ quiet_by n head.now links.now out }
{
    if clock::in_reach(n) & has_room(links.len(), out) {
        return n <= u64::from(face_head_pass::quiet(head, links));
    }
    false
}

// As the core advances, and what is told of it.
fn advanced(
    n: u64,
    head: &mut [u64],
    links: &mut [u64],
    out: &mut [u8],
    reply: &mut [u64],
    made: &mut [u64],
) -> u8
    ensures { advance_left (left result head.new links.new out.new reply.new) made.new ≡ advanced_of n head.old links.old out.old reply.old made.old }
{
    let answer = answered(Call::Advance(n), head, links, out);
    face_words::lay_word(answer.made, made);
    tell(answer, reply)
}

// Ticks until n are made or one hands out a frame, and how many were made.
pub fn advance(
    n: u64,
    head: &mut [u64],
    links: &mut [u64],
    out: &mut [u8],
    reply: &mut [u64],
    made: &mut [u64],
) -> u8
    ensures { advance_left (left result head.new links.new out.new reply.new) made.new ≡ advance_call n head.old links.old out.old reply.old made.old }
{
    if is_lent(head.len(), reply.len()) & (1 <= made.len()) {
        if quiet_by(n, head, links, out.len()) {
            face_head_pass::pass_head(head, n as u32);
            face_head_pass::pass_links(links, n);
            tell_nothing(reply);
            face_words::lay_word(n, made);
            return 0;
        }
        return advanced(n, head, links, out, reply, made);
    }
    SHORT
}
