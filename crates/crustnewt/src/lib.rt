// The C face: the caller keeps a box, or a head and its table, as words in blocks, and lends what a call hands out.
#![tactic(auto)]

ghost use Rattle.std.specs.Prelude.{◌≡◌};
ghost use Rattle.face_box_calls.specs.Calls.{left, heard_of, fresh_call, box_call, advance_left, advance_call, next_call};
ghost use Rattle.face_box_pass.specs.Block.{until_call};
ghost use Rattle.face_frame_read.specs.Read.{read_left, read_call};
ghost use Rattle.face_frame_write.specs.Write.{write_left, write_call};
ghost use Rattle.box_calls.specs.Box.{register_of, deregister_of, report_of, tick_of};
ghost use Rattle.frame_queues.specs.Asked.{asked_of as sets_asked};
ghost use Rattle.face_head_calls.specs.Calls.{left as head_left, begun_left, served_of, heard_of as head_heard, begun_of, advance_left as head_advance_left, advance_call as head_advance};
ghost use Rattle.face_head_pass.specs.Quiet.{until_call as head_until};
ghost use Rattle.face_head_calls.specs.Gate.{asked_of};
ghost use Rattle.head_judging.specs.declared.Call.{Call as Called};

use clock::{Count, Quanta};
use frame::Address;
use head_judging::Call;

// A box that has not begun.
#[unsafe(no_mangle)]
pub extern "C" fn crustnewt_box_fresh(
    address: u64,
    block: &mut [u64],
    frames: &mut [u8],
    reply: &mut [u64],
) -> u8
    ensures { left result block.new frames.new reply.new ≡ fresh_call address block.old frames.old reply.old }
{
    face_box_calls::fresh(address, block, frames, reply)
}

// The client asks to register.
#[unsafe(no_mangle)]
pub extern "C" fn crustnewt_box_register(
    block: &mut [u64],
    frames: &mut [u8],
    reply: &mut [u64],
) -> u8
    ensures { left result block.new frames.new reply.new ≡ box_call register_of block.old frames.old reply.old }
{
    face_box_calls::register(block, frames, reply)
}

// The client asks to deregister.
#[unsafe(no_mangle)]
pub extern "C" fn crustnewt_box_deregister(
    block: &mut [u64],
    frames: &mut [u8],
    reply: &mut [u64],
) -> u8
    ensures { left result block.new frames.new reply.new ≡ box_call deregister_of block.old frames.old reply.old }
{
    face_box_calls::deregister(block, frames, reply)
}

// The client asks for a REPORT: so many queue sets, and their octets.
#[unsafe(no_mangle)]
pub extern "C" fn crustnewt_box_report(
    number: u8,
    sets: &[u8],
    block: &mut [u64],
    frames: &mut [u8],
    reply: &mut [u64],
) -> u8
    ensures { left result block.new frames.new reply.new ≡ box_call (report_of (sets_asked number sets.now)) block.old frames.old reply.old }
{
    face_box_calls::report(number, sets, block, frames, reply)
}

// The octets of a frame that came, read and heard, with the caller's random number.
#[unsafe(no_mangle)]
pub extern "C" fn crustnewt_box_hear(
    octets: &[u8],
    random: u32,
    block: &mut [u64],
    frames: &mut [u8],
    reply: &mut [u64],
) -> u8
    ensures { left result block.new frames.new reply.new ≡ box_call (heard_of octets.now random) block.old frames.old reply.old }
{
    face_box_calls::hear(octets, random, block, frames, reply)
}

// One quantum has passed.
#[unsafe(no_mangle)]
pub extern "C" fn crustnewt_box_tick(block: &mut [u64], frames: &mut [u8], reply: &mut [u64]) -> u8
    ensures { left result block.new frames.new reply.new ≡ box_call tick_of block.old frames.old reply.old }
{
    face_box_calls::tick(block, frames, reply)
}

// So many quanta have passed, unless one of them hands something out or is refused.
#[unsafe(no_mangle)]
pub extern "C" fn crustnewt_box_advance(
    ticks: u64,
    block: &mut [u64],
    frames: &mut [u8],
    reply: &mut [u64],
    made: &mut [u64],
) -> u8
    ensures { advance_left (left result block.new frames.new reply.new) made.new ≡ advance_call ticks block.old frames.old reply.old made.old }
{
    face_box_calls::advance(ticks, block, frames, reply, made)
}

// How many quanta are sure to pass with nothing handed out.
#[unsafe(no_mangle)]
pub extern "C" fn crustnewt_box_ticks_until(block: &[u64]) -> u64
    ensures { result ≡ until_call block.now }
{
    face_box_calls::ticks_until(block)
}

// Which waiting frame goes next: 0 none, 1 the control frame, 2 the data frame.
#[unsafe(no_mangle)]
pub extern "C" fn crustnewt_box_next_to_send<'a>(
    block: &[u64],
    control: &'a [u8],
    data: &'a [u8],
) -> u8
    ensures { result ≡ next_call block.now control.entry «data».entry }
{
    face_box_calls::next_to_send(block, control, data)
}

// The octets of a frame, read into the words of a message; on a refusal they are those of the blank one.
#[unsafe(no_mangle)]
pub extern "C" fn crustnewt_read(octets: &[u8], message: &mut [u64]) -> u8
    ensures { read_left result message.new ≡ read_call octets.now message.old }
{
    face_frame_read::read(octets, message)
}

// The words of a message, written into the octets of its frame; on a refusal they are zero.
#[unsafe(no_mangle)]
pub extern "C" fn crustnewt_write(message: &[u64], octets: &mut [u8]) -> u8
    ensures { write_left result octets.new ≡ write_call message.now octets.old }
{
    face_frame_write::write(message, octets)
}

// A head that has not begun, over as many links as are lent.
#[unsafe(no_mangle)]
pub extern "C" fn crustnewt_head_fresh(
    address: u64,
    head: &mut [u64],
    links: &mut [u64],
    reply: &mut [u64],
) -> u8
    ensures { begun_left result head.new links.new reply.new ≡ begun_of (record { 0 = address }) head.old links.old reply.old }
{
    face_head_calls::begun(Address(address), head, links, reply)
}

// The client opens a discovery window.
#[unsafe(no_mangle)]
pub extern "C" fn crustnewt_head_open(
    start: u32,
    length: u32,
    sync: u32,
    window: u32,
    head: &mut [u64],
    links: &mut [u64],
    output: &mut [u8],
    reply: &mut [u64],
) -> u8
    ensures { head_left result head.new links.new output.new reply.new ≡ served_of (Called.Open (record { 0 = start }) (record { 0 = length }) (record { 0 = sync }) (record { 0 = window })) head.old links.old output.old reply.old }
{
    face_head_calls::served(
        Call::Open {
            start: Count(start),
            length: Quanta(length),
            sync: Quanta(sync),
            window: Quanta(window),
        },
        head,
        links,
        output,
        reply,
    )
}

// The client admits a box that asked.
#[unsafe(no_mangle)]
pub extern "C" fn crustnewt_head_admit(
    address: u64,
    pending: u8,
    sync: u32,
    head: &mut [u64],
    links: &mut [u64],
    output: &mut [u8],
    reply: &mut [u64],
) -> u8
    ensures { head_left result head.new links.new output.new reply.new ≡ served_of (Called.Admit (record { 0 = address }) pending (record { 0 = sync })) head.old links.old output.old reply.old }
{
    face_head_calls::served(
        Call::Admit {
            address: Address(address),
            pending,
            sync: Quanta(sync),
        },
        head,
        links,
        output,
        reply,
    )
}

// The client rejects a box that asked.
#[unsafe(no_mangle)]
pub extern "C" fn crustnewt_head_reject(
    address: u64,
    pending: u8,
    sync: u32,
    head: &mut [u64],
    links: &mut [u64],
    output: &mut [u8],
    reply: &mut [u64],
) -> u8
    ensures { head_left result head.new links.new output.new reply.new ≡ served_of (Called.Reject (record { 0 = address }) pending (record { 0 = sync })) head.old links.old output.old reply.old }
{
    face_head_calls::served(
        Call::Reject {
            address: Address(address),
            pending,
            sync: Quanta(sync),
        },
        head,
        links,
        output,
        reply,
    )
}

// The client has a registered box register anew.
#[unsafe(no_mangle)]
pub extern "C" fn crustnewt_head_reregister(
    link: usize,
    sync: u32,
    head: &mut [u64],
    links: &mut [u64],
    output: &mut [u8],
    reply: &mut [u64],
) -> u8
    ensures { head_left result head.new links.new output.new reply.new ≡ served_of (Called.Reregister link (record { 0 = sync })) head.old links.old output.old reply.old }
{
    face_head_calls::served(
        Call::Reregister {
            link,
            sync: Quanta(sync),
        },
        head,
        links,
        output,
        reply,
    )
}

// The client drops a registered box.
#[unsafe(no_mangle)]
pub extern "C" fn crustnewt_head_deregister(
    link: usize,
    head: &mut [u64],
    links: &mut [u64],
    output: &mut [u8],
    reply: &mut [u64],
) -> u8
    ensures { head_left result head.new links.new output.new reply.new ≡ served_of (Called.Deregister link) head.old links.old output.old reply.old }
{
    face_head_calls::served(Call::Deregister { link }, head, links, output, reply)
}

// The client sends a GATE, one word a grant.
#[unsafe(no_mangle)]
pub extern "C" fn crustnewt_head_gate(
    link: usize,
    grants: &[u64],
    force: u8,
    head: &mut [u64],
    links: &mut [u64],
    output: &mut [u8],
    reply: &mut [u64],
) -> u8
    ensures { head_left result head.new links.new output.new reply.new ≡ served_of (Called.Gate link (asked_of grants.now force)) head.old links.old output.old reply.old }
{
    let asked = face_head_calls::asked(grants, force);
    face_head_calls::served(Call::Gate { link, asked }, head, links, output, reply)
}

// The octets of a frame that came on a link, read and heard.
#[unsafe(no_mangle)]
pub extern "C" fn crustnewt_head_hear(
    link: usize,
    octets: &[u8],
    head: &mut [u64],
    links: &mut [u64],
    output: &mut [u8],
    reply: &mut [u64],
) -> u8
    ensures { head_left result head.new links.new output.new reply.new ≡ head_heard link octets.now head.old links.old output.old reply.old }
{
    face_head_calls::heard(link, octets, head, links, output, reply)
}

// One quantum has passed.
#[unsafe(no_mangle)]
pub extern "C" fn crustnewt_head_tick(
    head: &mut [u64],
    links: &mut [u64],
    output: &mut [u8],
    reply: &mut [u64],
) -> u8
    ensures { head_left result head.new links.new output.new reply.new ≡ served_of Called.Tick head.old links.old output.old reply.old }
{
    face_head_calls::tick(head, links, output, reply)
}

// Quanta have passed: ticks until so many are made or one hands out a frame, and how many were made.
#[unsafe(no_mangle)]
pub extern "C" fn crustnewt_head_advance(
    ticks: u64,
    head: &mut [u64],
    links: &mut [u64],
    output: &mut [u8],
    reply: &mut [u64],
    made: &mut [u64],
) -> u8
    ensures { head_advance_left (head_left result head.new links.new output.new reply.new) made.new ≡ head_advance ticks head.old links.old output.old reply.old made.old }
{
    face_head_calls::advance(ticks, head, links, output, reply, made)
}

// How many ticks from now hand out nothing.
#[unsafe(no_mangle)]
pub extern "C" fn crustnewt_head_ticks_until(head: &[u64], links: &[u64]) -> u64
    ensures { result ≡ head_until head.now links.now }
{
    face_head_calls::ticks_until(head, links)
}
