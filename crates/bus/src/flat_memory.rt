// Flat memory: lent bytes as cells from address 0.
ghost use Rattle.std.specs.Prelude.{◌≡◌, ℕ, ◌<◌, List, [], ◌∷◌, ◌++◌, length};
ghost use Rattle.bus.specs.Meaning.{Meaning, Facts, Cell};
ghost use Rattle.bus.specs.Calls.{Comes, Byte, Word, with_place, peek, load_byte, load_word, store_byte, store_word, give, take};
ghost use Rattle.bus.specs.Stores.{Store, accepted};
ghost use Rattle.bus.specs.Kept.{Kept};
ghost use Rattle.bus.specs.Flats.{flat, flat_size, flat_cells, flat_loans};
ghost use Rattle.bus.specs.Shown.{flat_facts};

use crate::Bus;
use crate::faults::BusFault;

// How many addresses a bus has.
const ADDRESSES: usize = 65536;

#[derive(Drop)]
pub struct Flat<'a> {
    bytes: &'a mut [u8],
}

impl<'a> Flat<'a> {
    // The whole reference is moved in, also what is cut off, so that the lender gets back what the bus held last.
    pub fn new(bytes: &'a mut [u8]) -> Flat<'a>
        ensures holds { result.bytes.now ≡ bytes.old }
        ensures lends { result.bytes.ghost_name ≡ bytes.entry.ghost_name }
    {
        Flat { bytes }
    }

    // The bytes that are cells.
    fn cells(&self) -> &[u8]
        ensures { result.now ≡ flat_cells self.now.bytes.now }
    {
        let n = self.bytes.len();
        &self.bytes[..ADDRESSES.min(n / 2 * 2)]
    }

    // Puts `b` into the cell `i`.
    fn write(&mut self, i: usize, b: u8)
        requires { i < flat_size (length self.old.bytes.now) }
        ensures means { flat self.new.bytes.now ≡ with_place (flat self.old.bytes.now) i (Cell b) }
        ensures size { length self.new.bytes.now ≡ length self.old.bytes.now }
        ensures keeps { flat_loans self.new.bytes.ghost_name self.new.bytes.now ≡ flat_loans self.old.bytes.ghost_name self.old.bytes.now }
    {
        self.bytes[i] = b;
    }
}

impl<'a> Bus for Flat<'a> {
    ghost meaning = { λ s. flat s.bytes.now };

    ghost facts = { λ s. flat_facts s.bytes.now };

    ghost kept = { λ s. record { lent = flat_loans s.bytes.ghost_name s.bytes.now; hidden = [] } };

    ghost stored = { λ _ _ _. Unit {0} };

    ghost none = { λ _. tt };

    ghost further = { λ _ _ _ _ _ _ _. tt };

    fn peek(&self, a: u16) -> Option<u8> {
        self.cells().get(usize::from(a)).copied()
    }

    fn load_byte(&mut self, a: u16) -> Result<u8, BusFault> {
        self.peek(a).ok_or(BusFault::NothingThere)
    }

    fn load_word(&mut self, a: u16) -> Result<u16, BusFault> {
        let i = usize::from(a);
        if i % 2 != 0 {
            return Err(BusFault::OddAddress);
        }
        let cells = self.cells();
        if i < cells.len() {
            Ok(u16::from_be_bytes([cells[i], cells[i + 1]]))
        } else {
            Err(BusFault::NothingThere)
        }
    }

    fn store_byte(&mut self, a: u16, b: u8) -> Result<(), BusFault> {
        let i = usize::from(a);
        if self.cells().len() <= i {
            return Err(BusFault::NothingThere);
        }
        self.write(i, b);
        Ok(())
    }

    fn store_word(&mut self, a: u16, v: u16) -> Result<(), BusFault> {
        let i = usize::from(a);
        if i % 2 != 0 {
            return Err(BusFault::OddAddress);
        }
        if self.cells().len() <= i {
            return Err(BusFault::NothingThere);
        }
        let [high, low] = v.to_be_bytes();
        self.write(i, high);
        self.write(i + 1, low);
        Ok(())
    }

    // No byte can wait here.
    fn give(&mut self, _b: u8) -> Result<(), BusFault> {
        Err(BusFault::WaitingFull)
    }

    // Nothing is ever sent here.
    fn take(&mut self) -> Result<u8, BusFault> {
        Err(BusFault::NoneSent)
    }
}
