// Why a bus refuses a call.
ghost use Rattle.std.specs.Prelude.{◌≡◌};
ghost use Rattle.bus.specs.Calls.{fault_number};

// The refusals of a bus by their numbers, in the order in which a call asks.
#[derive(Clone, Copy, PartialEq, Eq, Debug)]
pub enum BusFault {
    OddAddress = 30,
    NothingThere = 31,
    ByteAtPort = 32,
    WrongWay = 33,
    NoneWaiting = 34,
    NoRoom = 35,
    WaitingFull = 36,
    NoneSent = 37,
}

impl BusFault {
    // Stays: a method here; as a trait's it would take an impl with this same line for each enum that has numbers.
    pub fn number(self) -> u8
        ensures { result ≡ fault_number self }
    {
        self as u8
    }
}
