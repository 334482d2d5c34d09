// The program card: fixed cells from address 0 over any bus.
#![tactic(auto)]

ghost use Rattle.std.specs.Prelude.{◌≡◌, ◌%◌, List, [], ◌∷◌, ◌++◌, length, if◌then◌else◌, Some, None, nat_lt, slice_index};
ghost use Rattle.bus.specs.Meaning.{Meaning, Facts};
ghost use Rattle.bus.specs.Calls.{Comes, Byte, Word, peek, load_byte, load_word, store_byte, store_word, give, take};
ghost use Rattle.bus.specs.Stores.{Store, accepted};
ghost use Rattle.bus.specs.Kept.{Kept, hiding};
ghost use Rattle.card.specs.Cards.{fill, fill_number, on_card, card, card_hides};
ghost use Rattle.card.specs.CardShown.{card_facts};

use bus::{Bus, BusFault};

// Filling is no call on a bus, so its refusal is a type of its own: a board never meets it.
#[derive(Clone, Copy, PartialEq, Eq, Debug)]
pub enum FillFault {
    WrongLength = 38,
}

impl FillFault {
    // Stays: a method here; as a trait's it would take an impl with this same line for each enum that has numbers.
    pub fn number(self) -> u8
        ensures { result ≡ fill_number self }
    {
        self as u8
    }
}

// The most bytes that a card holds.
const CARD_MOST: usize = 4096;

// A card that lies over no bus yet, and so can still be filled.
// Stays: bytes with a count, since a card is `Copy` and no `ArrayVec` is, and a call that moves a card over lent memory into a layer has no proof with a bound in a ghost field.
#[derive(Clone, Copy)]
pub struct ProgramCard {
    bytes: [u8; CARD_MOST],
    count: usize,
}

impl ProgramCard {
    pub fn new() -> ProgramCard
        ensures { on_card result ≡ [] }
    {
        ProgramCard {
            bytes: [0; CARD_MOST],
            count: 0,
        }
    }

    // These bytes, and no others, are then on the card.
    pub fn fill(&mut self, bytes: &[u8]) -> Result<(), FillFault>
        ensures { Comes (fill (on_card self.old) bytes.now) (on_card self.old) result (on_card self.new) }
    {
        let n = bytes.len();
        if n % 2 != 0 || CARD_MOST < n {
            return Err(FillFault::WrongLength);
        }
        self.bytes[..n].copy_from_slice(bytes);
        self.count = n;
        Ok(())
    }

    // The bytes on the card.
    fn held(&self) -> &[u8]
        ensures { result.now ≡ on_card self.now }
    {
        &self.bytes[..CARD_MOST.min(self.count / 2 * 2)]
    }

    // Does the card reach as far as `a`?
    fn reaches(&self, a: u16) -> bool
        ensures { result ≡ nat_lt a (length (on_card self.now)) }
    {
        usize::from(a) < self.held().len()
    }

    // The byte on the card at `a`, if it reaches that far.
    fn byte_at(&self, a: u16) -> Option<u8>
        ensures { result ≡ (if nat_lt a (length (on_card self.now)) then Some (slice_index (on_card self.now) a % 256) else None) }
    {
        self.held().get(usize::from(a)).copied()
    }

    // Lays the card over a bus; from then on it cannot be filled.
    pub fn over<B: Bus + Drop>(self, below: B) -> Card<B>
        ensures { result ≡ record { card = self; below = below } }
    {
        Card { card: self, below }
    }
}

// A card that lies over a bus.
#[derive(Drop)]
pub struct Card<B: Bus + Drop> {
    card: ProgramCard,
    below: B,
}

impl<B: Bus + Drop> Card<B> {
    // Takes the card away.
    pub fn into_below(self) -> B
        ensures { result ≡ self.below }
    {
        let Card { card: _, below } = self;
        below
    }
}

impl<B: Bus + Drop> Bus for Card<B> {
    ghost meaning = { λ s. card (on_card s.card) (B.Bus.meaning s.below) };

    ghost facts = { λ s. card_facts s.card (B.Bus.meaning s.below) (B.Bus.facts s.below) };

    ghost kept = { λ s. hiding (card_hides (on_card s.card) (B.Bus.meaning s.below)) (B.Bus.kept s.below) };

    ghost stored = { λ _ _ _. Unit {0} };

    ghost none = { λ _. tt };

    ghost further = { λ _ _ _ _ _ _ _. tt };

    fn peek(&self, a: u16) -> Option<u8> {
        self.card.byte_at(a).or_else(|| self.below.peek(a))
    }

    fn load_byte(&mut self, a: u16) -> Result<u8, BusFault> {
        // Stays: a match, since a closure that asks the bus below would change what it captures, and nothing be known of it.
        match self.card.byte_at(a) {
            Some(b) => Ok(b),
            None => self.below.load_byte(a),
        }
    }

    fn load_word(&mut self, a: u16) -> Result<u16, BusFault> {
        if !self.card.reaches(a) {
            return self.below.load_word(a);
        }
        if a % 2 != 0 {
            return Err(BusFault::OddAddress);
        }
        let i = usize::from(a);
        let held = self.card.held();
        Ok(u16::from_be_bytes([held[i], held[i + 1]]))
    }

    fn store_byte(&mut self, a: u16, b: u8) -> Result<(), BusFault> {
        if self.card.reaches(a) {
            return Err(BusFault::WrongWay);
        }
        self.below.store_byte(a, b)
    }

    fn store_word(&mut self, a: u16, v: u16) -> Result<(), BusFault> {
        if !self.card.reaches(a) {
            return self.below.store_word(a, v);
        }
        match a % 2 {
            0 => Err(BusFault::WrongWay),
            _ => Err(BusFault::OddAddress),
        }
    }

    fn give(&mut self, b: u8) -> Result<(), BusFault> {
        self.below.give(b)
    }

    fn take(&mut self) -> Result<u8, BusFault> {
        self.below.take()
    }
}
