// The head's calls, over the table of links and the output that the caller lends. Each answers every input.
#![tactic(auto)]

ghost use Rattle.std.specs.Prelude.{◌≡◌};
ghost use Rattle.head_calls.specs.Clearing.{clearing};
ghost use Rattle.head_calls.specs.Fresh.{begun_of, is_done, freshly, fresh_of};
ghost use Rattle.head_calls.specs.Serve.{sender_of, answer_of, served, serve_of};

use frame::{Address, Reply};
use head_judging::Call;
use head_links::Link;
use head_plans::{Notice, Plan};
use head_state::Head;
use head_table::{Event, Sender};

// What a call is answered with: the number on the card, the head after the call, how many frames stand in the output, the notice, and how many ticks an advance made.
#[derive(Clone, Copy)]
pub struct Answer {
    pub reply: Reply,
    pub next: Head,
    pub frames: usize,
    pub notice: Notice,
    pub made: u64,
}

// Frames carry the head's own address, and its count after the call.
fn sender_of(plan: Plan) -> Sender
    ensures { result ≡ sender_of plan }
{
    Sender {
        source: plan.head.address,
        timestamp: plan.head.count,
    }
}

fn answer_of(plan: Plan, frames: usize) -> Answer
    ensures { result ≡ answer_of plan frames }
{
    Answer {
        reply: plan.reply,
        next: plan.head,
        frames,
        notice: plan.notice,
        made: plan.made,
    }
}

// Every call of a head that stands: judge, then the head's own frame, then the links. A refusal goes the same way with nothing to do.
#[tactic(auto, unfolding(crate::specs::Serve::plan_of, crate::specs::Serve::sent_of, crate::specs::Serve::done_of, crate::specs::Serve::serve_of))]
pub fn serve(head: Head, links: &mut [Link], call: Call, out: &mut [u8]) -> Answer
    ensures { served result links.new out.new ≡ serve_of head links.old call out.old }
{
    let f = head_survey::survey(links, head_judging::look(call));
    let p = head_judging::judge(head, f, links.len(), out.len(), call);
    let n = head_table::note(out, 0, sender_of(p), p.lead);
    let m = head_table::drive(links, p.event, sender_of(p), out, n);
    answer_of(p, m)
}

#[tactic(auto, unfolding(crate::specs::Fresh::begun_of))]
fn begin(address: Address, links: usize) -> Answer
    ensures { result ≡ begun_of address links }
{
    let refused = Answer {
        reply: Reply::Unsound,
        next: Head::begun(Address(0)),
        frames: 0,
        notice: Notice::quiet(),
        made: 0,
    };
    if !head_survey::is_few(links) {
        return refused;
    }
    if !frame_range::individual(address) {
        return Answer {
            reply: Reply::Range,
            ..refused
        };
    }
    Answer {
        reply: Reply::Done,
        next: Head::begun(address),
        ..refused
    }
}

// An accepted head clears the links, a refused one offers them nothing.
#[tactic(auto, unfolding(crate::specs::Clearing::clearing))]
fn clearing(answer: Answer) -> Event
    ensures { result ≡ clearing (is_done answer.reply) }
{
    if matches!(answer.reply, Reply::Done) {
        return Event::Clear;
    }
    Event::Nothing
}

// A head that has not begun, and every lent link idle; a refused one holds address zero, and leaves the links as they were.
pub fn fresh(address: Address, links: &mut [Link]) -> Answer
    ensures { freshly result links.new ≡ fresh_of address links.old }
{
    let answer = begin(address, links.len());
    head_table::offer(links, clearing(answer));
    answer
}
