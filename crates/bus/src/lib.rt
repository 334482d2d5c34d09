// A byte-addressed bus of 65,536 addresses, and the buses of today.
#![tactic(auto)]

ghost use Rattle.std.specs.Prelude.{◌≡◌, List, [], ◌∷◌, ◌++◌};
ghost use Rattle.bus.specs.Meaning.{Meaning, Facts};
ghost use Rattle.bus.specs.Calls.{Comes, Byte, Word, peek, load_byte, load_word, store_byte, store_word, give, take};
ghost use Rattle.bus.specs.Stores.{Store, accepted};
ghost use Rattle.bus.specs.Kept.{Kept};

pub mod faults;
pub mod flat_memory;

pub use faults::BusFault;
pub use flat_memory::Flat;

// What a card that plugs into the board promises of its seven calls.
pub trait Bus {
    // All that a caller can learn of it.
    ghost meaning: { Self → Meaning };

    // What every bus shows of its meaning.
    ghost facts: { (s : Self) → Facts (meaning s) };

    // What no call changes. `lent`: the memory lent to it, by whom and with which bytes that are no cells, so that the lender knows all it gets back.
    // `hidden`: what it holds but does not show, layer by layer, outermost first.
    ghost kept: { Self → Kept };

    // That one state comes from another by these accepted stores, oldest first, and any other calls.
    // A bus that keeps a log of its stores says here what the log then holds; any other says nothing.
    ghost stored: { Self → List Store → Self → Type 0 };

    // Stays: today's buses fill these three alike, and each has to: an impl owes every ghost member.
    ghost none: { (s : Self) → stored s [] s };

    ghost further: { (s t u : Self) (xs ys : List Store) → stored s xs t → stored t ys u → stored s (xs ++ ys) u };

    fn peek(&self, a: u16) -> Option<u8>
        ensures { result ≡ peek (meaning self.now) a };

    // Stays: `comes`, `keeps` and `stores` on each call that may change it, since one definition over them would take three ghost members, an outcome, stores and both states.
    fn load_byte(&mut self, a: u16) -> Result<u8, BusFault>
        ensures comes { Comes (load_byte (meaning self.old) a) (meaning self.old) result (meaning self.new) }
        ensures keeps { kept self.new ≡ kept self.old }
        ensures stores { stored self.old [] self.new };

    fn load_word(&mut self, a: u16) -> Result<u16, BusFault>
        ensures comes { Comes (load_word (meaning self.old) a) (meaning self.old) result (meaning self.new) }
        ensures keeps { kept self.new ≡ kept self.old }
        ensures stores { stored self.old [] self.new };

    fn store_byte(&mut self, a: u16, b: u8) -> Result<(), BusFault>
        ensures comes { Comes (store_byte (meaning self.old) a b) (meaning self.old) result (meaning self.new) }
        ensures keeps { kept self.new ≡ kept self.old }
        ensures stores { stored self.old (accepted result a b Byte) self.new };

    fn store_word(&mut self, a: u16, v: u16) -> Result<(), BusFault>
        ensures comes { Comes (store_word (meaning self.old) a v) (meaning self.old) result (meaning self.new) }
        ensures keeps { kept self.new ≡ kept self.old }
        ensures stores { stored self.old (accepted result a v Word) self.new };

    fn give(&mut self, b: u8) -> Result<(), BusFault>
        ensures comes { Comes (give (meaning self.old) b) (meaning self.old) result (meaning self.new) }
        ensures keeps { kept self.new ≡ kept self.old }
        ensures stores { stored self.old [] self.new };

    fn take(&mut self) -> Result<u8, BusFault>
        ensures comes { Comes (take (meaning self.old)) (meaning self.old) result (meaning self.new) }
        ensures keeps { kept self.new ≡ kept self.old }
        ensures stores { stored self.old [] self.new };
}
