// A client's request, by its name and its numbers.
use clock::Count;
use frame::Address;
use head_judging::Call;
use script::messages::{modulo_8, modulo_32, quanta};
use script::words::at;
use std::array;

// One more than a GATE holds.
const MOST: usize = 5;

// A grant is two numbers, and here one word.
fn grant(start: u64, length: u64) -> u64 {
    u64::from(modulo_32(start)) * 0x100000000 + u64::from(modulo_32(length))
}

// As many grants as the numbers behind the force bits make.
fn gate(of: &[u64]) -> Call {
    let words: [u64; MOST] = array::from_fn(|place| grant(
        at(of, 2 * place + 2),
        at(of, 2 * place + 3),
    ));
    let number = (of.len().saturating_sub(2) / 2).min(MOST);
    Call::Gate {
        link: at(of, 0) as usize,
        asked: face_head_calls::asked(&words[..number], modulo_8(at(of, 1))),
    }
}

// None where no request has the name.
pub fn request(name: &[u8], of: &[u64]) -> Option<Call> {
    let call = match name {
        b"open" => Call::Open {
            start: Count(modulo_32(at(of, 0))),
            length: quanta(at(of, 1)),
            sync: quanta(at(of, 2)),
            window: quanta(at(of, 3)),
        },
        b"admit" => Call::Admit {
            address: Address(at(of, 0)),
            pending: modulo_8(at(of, 1)),
            sync: quanta(at(of, 2)),
        },
        b"reject" => Call::Reject {
            address: Address(at(of, 0)),
            pending: modulo_8(at(of, 1)),
            sync: quanta(at(of, 2)),
        },
        b"reregister" => Call::Reregister {
            link: at(of, 0) as usize,
            sync: quanta(at(of, 1)),
        },
        b"deregister" => Call::Deregister {
            link: at(of, 0) as usize,
        },
        b"gate" => gate(of),
        _ => return None,
    };
    Some(call)
}
