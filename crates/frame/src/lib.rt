// The messages that the five control frames carry, and the numbers that a call is answered with.
#![tactic(auto)]

ghost use Rattle.std.specs.Prelude.{◌≡◌};
ghost use Rattle.frame.specs.Card.{number_of};
ghost use Rattle.frame.specs.Ways.{goes_to_head};
ghost use Rattle.frame.specs.Layout.{register_req_flag, register_flag, register_ack_flag};
ghost use Rattle.frame.specs.Flags.{register_req_flag_in, register_flag_in, register_ack_flag_in};

use clock::{Count, Quanta};
use frame_queues::Sets;

// 48 bits, as a number.
#[derive(Clone, Copy, PartialEq, Eq)]
pub struct Address(pub u64);

impl Address {
    // Where a box's frames go, and the head's calls for newcomers: 01-80-C2-00-00-01.
    pub const MULTICAST: Address = Address(0x0180C2000001);

    pub const LARGEST: Address = Address(0xFFFFFFFFFFFF);
}

// Leave to send, and whether a REPORT must be sent in it.
#[derive(Clone, Copy, PartialEq, Eq)]
pub struct Grant {
    pub start: Count,
    pub length: Quanta,
    pub force: bool,
}

// A normal GATE's grants, by cases, so that there is no number of them to be wrong.
#[derive(Clone, Copy)]
pub enum Grants {
    None,
    One(Grant),
    Two(Grant, Grant),
    Three(Grant, Grant, Grant),
    Four(Grant, Grant, Grant, Grant),
}

#[derive(Clone, Copy, PartialEq, Eq)]
pub enum RegisterReqFlag {
    Register = 1,
    Deregister = 3,
}

impl RegisterReqFlag {
    pub fn number(self) -> u8
        ensures { result ≡ register_req_flag self }
    {
        self as u8
    }
}

impl TryFrom<u64> for RegisterReqFlag {
    type Error = Reply;

    ghost try_from_gives = { λ number r. r ≡ register_req_flag_in number };

    fn try_from(number: u64) -> Result<RegisterReqFlag, Reply> {
        match number {
            1 => Ok(RegisterReqFlag::Register),
            3 => Ok(RegisterReqFlag::Deregister),
            _ => Err(Reply::Range),
        }
    }
}

#[derive(Clone, Copy, PartialEq, Eq)]
pub enum RegisterFlag {
    Reregister = 1,
    Deregister = 2,
    Ack = 3,
    Nack = 4,
}

impl RegisterFlag {
    pub fn number(self) -> u8
        ensures { result ≡ register_flag self }
    {
        self as u8
    }
}

impl TryFrom<u64> for RegisterFlag {
    type Error = Reply;

    ghost try_from_gives = { λ number r. r ≡ register_flag_in number };

    fn try_from(number: u64) -> Result<RegisterFlag, Reply> {
        match number {
            1 => Ok(RegisterFlag::Reregister),
            2 => Ok(RegisterFlag::Deregister),
            3 => Ok(RegisterFlag::Ack),
            4 => Ok(RegisterFlag::Nack),
            _ => Err(Reply::Range),
        }
    }
}

#[derive(Clone, Copy, PartialEq, Eq)]
pub enum RegisterAckFlag {
    Nack = 0,
    Ack = 1,
}

impl RegisterAckFlag {
    pub fn number(self) -> u8
        ensures { result ≡ register_ack_flag self }
    {
        self as u8
    }
}

impl TryFrom<u64> for RegisterAckFlag {
    type Error = Reply;

    ghost try_from_gives = { λ number r. r ≡ register_ack_flag_in number };

    fn try_from(number: u64) -> Result<RegisterAckFlag, Reply> {
        match number {
            0 => Ok(RegisterAckFlag::Nack),
            1 => Ok(RegisterAckFlag::Ack),
            _ => Err(Reply::Range),
        }
    }
}

// What a frame says. A GATE is normal or calls for newcomers, and then has one grant.
#[derive(Clone, Copy)]
pub enum Body {
    Gate(Grants),
    Discovery {
        grant: Grant,
        sync: Quanta,
    },
    Report(Sets),
    RegisterReq {
        flag: RegisterReqFlag,
        pending: u8,
    },
    Register {
        port: u16,
        flag: RegisterFlag,
        sync: Quanta,
        pending: u8,
    },
    RegisterAck {
        flag: RegisterAckFlag,
        port: u16,
        sync: Quanta,
    },
}

impl Body {
    // Opcodes.
    pub const GATE: u64 = 2;

    pub const REPORT: u64 = 3;

    pub const REGISTER_REQ: u64 = 4;

    pub const REGISTER: u64 = 5;

    pub const REGISTER_ACK: u64 = 6;

    // A message goes from a box to the head, or from the head to a box.
    pub fn goes_to_head(self) -> bool
        ensures { result ≡ goes_to_head self }
    {
        matches!(
            self,
            Body::Report(_) | Body::RegisterReq { .. } | Body::RegisterAck { .. }
        )
    }
}

#[derive(Clone, Copy)]
pub struct Message {
    pub destination: Address,
    pub source: Address,
    pub timestamp: Count,
    pub body: Body,
}

impl Message {
    // The length of its frame.
    pub const OCTETS: usize = 60;

    // The type of a MAC control frame.
    pub const KIND: u64 = 0x8808;
}

// The service card: what every call of the product is answered with.
#[derive(Clone, Copy, PartialEq, Eq)]
pub enum Reply {
    Done = 0,
    Size = 1,
    Kind = 2,
    Opcode = 3,
    Range = 4,
    Direction = 5,
    Link = 6,
    State = 7,
    Party = 8,
    Grant = 9,
    Held = 10,
    Full = 11,
    Output = 12,
    Unsound = 13,
    Window = 14,
}

impl Reply {
    // The number on the card.
    pub fn number(self) -> u8
        ensures { result ≡ number_of self }
    {
        self as u8
    }
}

// The reader's answer. On a refusal the message is the blank one.
#[derive(Clone, Copy)]
pub struct Reading {
    pub reply: Reply,
    pub message: Message,
}

// The writer's answer. On a refusal the octets are all zero.
#[derive(Clone, Copy)]
pub struct Writing {
    pub reply: Reply,
    pub octets: [u8; 60],
}
