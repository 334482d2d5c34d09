// Which calls are sent: numbers made into calls, so that every question gets a yes and a no.
use crate::random::Random;
use any_bus::BusCall;

// What a call is made of: a kind, an address of some class and a value.
#[derive(Clone, Copy)]
pub struct Drawn {
    kind: u16,
    a: u16,
    v: u16,
}

// Addresses at and around the edges of memory, cards and ports.
fn address(class: u16, n: u16) -> u16 {
    match class % 8 {
        0 => n % 16,
        1 => n % 128,
        2 => 4088 + n % 16,
        3 => n,
        7 => 0xFFF0 + n % 16,
        _ => 0xEFFE + n % 12,
    }
}

// Mostly any word; at times one whose text is the shortest or the longest of its kind.
fn value(n: u16) -> u16 {
    match n % 32 {
        0 => 0,
        1 => 9,
        2 => 10,
        3 => 0x7FFF,
        4 => 0x8000,
        5 => 0xFFFF,
        _ => n,
    }
}

// Stays: kinds by number, here and below and in `address`: they are drawn, and a call's share is how many numbers it has.
// Fills the queues faster than it empties them.
pub fn flood(drawn: Drawn) -> BusCall {
    let Drawn { kind, a, v } = drawn;
    match kind % 8 {
        0 | 1 | 2 => BusCall::StoreWord(0xF002, v),
        3 => BusCall::StoreWord(0xF000, v),
        4 | 5 => BusCall::Give(v.to_be_bytes()[1]),
        6 => BusCall::StoreWord(a, v),
        _ => BusCall::Peek(a),
    }
}

// Empties the queues.
pub fn drain(drawn: Drawn) -> BusCall {
    let Drawn { kind, a, v } = drawn;
    match kind % 8 {
        0 | 1 | 2 | 3 => BusCall::Take,
        4 | 5 => BusCall::LoadWord(0xF004),
        6 => BusCall::LoadWord(a),
        _ => BusCall::StoreByte(a, v.to_be_bytes()[1]),
    }
}

// All calls alike.
pub fn mixed(drawn: Drawn) -> BusCall {
    let Drawn { kind, a, v } = drawn;
    match kind % 8 {
        0 => BusCall::Peek(a),
        1 => BusCall::LoadByte(a),
        2 => BusCall::LoadWord(a),
        3 => BusCall::StoreByte(a, v.to_be_bytes()[1]),
        4 | 5 => BusCall::StoreWord(a, v),
        6 => BusCall::Give(v.to_be_bytes()[1]),
        _ => BusCall::Take,
    }
}

impl Drawn {
    pub fn next(random: &mut Random) -> Drawn {
        let kind = random.next();
        let class = random.next();
        let a = address(class, random.next());
        let v = value(random.next());
        Drawn { kind, a, v }
    }
}
