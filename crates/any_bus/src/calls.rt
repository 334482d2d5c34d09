// Calls as values, so that one function sends any of them to any bus.
ghost use Rattle.std.specs.Prelude.{◌≡◌, List};
ghost use Rattle.bus.specs.Meaning.{Meaning};
ghost use Rattle.any_bus.specs.Answers.{answered, stores_of, SameKinds, Told};

use bus::{Bus, BusFault};

// Stays: an enum and no closures, since scripts list calls, repeat them and put their answers beside them.
#[derive(Clone, Copy)]
pub enum BusCall {
    Peek(u16),
    LoadByte(u16),
    LoadWord(u16),
    StoreByte(u16, u8),
    StoreWord(u16, u16),
    Give(u8),
    Take,
}

// What a call says that was not refused.
#[derive(Clone, Copy, PartialEq, Eq, Debug)]
pub enum BusReply {
    Seen(Option<u8>),
    Loaded(u16),
    Taken(u8),
    Done,
}

// Stays: what every call promises stands here again, since code for every bus hands each of it on.
// Sends one call. Whatever it is, no address changes its kind.
pub fn answer<B: Bus>(bus: &mut B, call: BusCall) -> Result<BusReply, BusFault>
    ensures tells { answered call (B.Bus.meaning bus.old) ≡ record { answer = result; after = B.Bus.meaning bus.new } }
    ensures kinds { SameKinds (B.Bus.meaning bus.old) (B.Bus.meaning bus.new) }
    ensures keeps { B.Bus.kept bus.new ≡ B.Bus.kept bus.old }
    ensures stores { B.Bus.stored bus.old (stores_of call (B.Bus.meaning bus.old)) bus.new }
{
    match call {
        BusCall::Peek(a) => Ok(BusReply::Seen(bus.peek(a))),
        BusCall::LoadByte(a) => bus.load_byte(a).map(|b| BusReply::Loaded(u16::from(b))),
        BusCall::LoadWord(a) => bus.load_word(a).map(BusReply::Loaded),
        BusCall::StoreByte(a, b) => bus.store_byte(a, b).map(|()| BusReply::Done),
        BusCall::StoreWord(a, v) => bus.store_word(a, v).map(|()| BusReply::Done),
        BusCall::Give(b) => bus.give(b).map(|()| BusReply::Done),
        BusCall::Take => bus.take().map(BusReply::Taken),
    }
}
