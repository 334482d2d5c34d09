// The console: three ports with queues of their own, over any bus.
#![tactic(auto)]

ghost use Rattle.std.specs.Prelude.{◌≡◌, ℕ, ◌+◌, ◌<◌, ◌≤◌, List, [], ◌∷◌, ◌++◌, length, if◌then◌else◌};
ghost use Rattle.bus.specs.declared.faults.BusFault.TheVariants.{ByteAtPort, NothingThere};
ghost use Rattle.bus.specs.Meaning.{Meaning, Facts};
ghost use Rattle.bus.specs.Calls.{Comes, Byte, Word, peek, load_byte, load_word, store_byte, store_word, give, take};
ghost use Rattle.bus.specs.Stores.{Store, accepted};
ghost use Rattle.bus.specs.Kept.{Kept, hiding};
ghost use Rattle.console.specs.Rings.{items};
ghost use Rattle.console.specs.Consoles.{console, console_hides, at_port, added};
ghost use Rattle.console.specs.ConsoleShown.{items_bytes, console_facts};

mod queue;

use crate::queue::Queue;
use bus::{Bus, BusFault};
use itoa::Buffer;

// The most bytes that wait at a console.
const WAITING_MOST: usize = 256;

// The most sent bytes that stand at a console.
const SENT_MOST: usize = 1024;

// Where the ports stand; each takes one word.
const CHARACTER_PORT: u16 = 0xF000;

const NUMBER_PORT: u16 = 0xF002;

const INPUT_PORT: u16 = 0xF004;

#[derive(Drop)]
pub struct Console<B: Bus + Drop> {
    below: B,
    waiting: Queue<WAITING_MOST>,
    sent: Queue<SENT_MOST>,
}

// Does one of the console's ports cover `a`?
fn is_port(a: u16) -> bool
    ensures { result ≡ at_port a }
{
    matches!(a - a % 2, CHARACTER_PORT | NUMBER_PORT | INPUT_PORT)
}

// Why a byte is refused at `a`, where none can be seen.
fn no_byte(a: u16) -> BusFault
    ensures { result ≡ (if at_port a then ByteAtPort else NothingThere) }
{
    if !is_port(a) {
        return BusFault::NothingThere;
    }
    BusFault::ByteAtPort
}

// Sends a text, all of it or, where it does not fit, nothing.
fn send(sent: &mut Queue<SENT_MOST>, text: &[u8]) -> Result<(), BusFault>
    ensures { Comes (added 1024 (items sent.old) text.now) (items sent.old) result (items sent.new) }
{
    if SENT_MOST - sent.len() < text.len() {
        return Err(BusFault::NoRoom);
    }
    sent.push_all(text);
    Ok(())
}

impl<B: Bus + Drop> Console<B> {
    // Nothing waits at a new console, and nothing was sent.
    pub fn new(below: B) -> Console<B>
        ensures under { result.below ≡ below }
        ensures quiet { (items result.waiting ≡ []) × (items result.sent ≡ []) }
    {
        Console {
            below,
            waiting: Queue::new(),
            sent: Queue::new(),
        }
    }

    // Takes the console away, with all that waits at it or was sent.
    pub fn into_below(self) -> B
        ensures { result ≡ self.below }
    {
        let Console {
            below,
            waiting: _,
            sent: _,
        } = self;
        below
    }
}

impl<B: Bus + Drop> Bus for Console<B> {
    ghost meaning = { λ s. console (items s.waiting) (items s.sent) (B.Bus.meaning s.below) };

    ghost facts = { λ s. console_facts (items s.waiting) (items s.sent) (B.Bus.meaning s.below) (items_bytes s.waiting) (items_bytes s.sent) (B.Bus.facts s.below) };

    ghost kept = { λ s. hiding (console_hides (B.Bus.meaning s.below)) (B.Bus.kept s.below) };

    ghost stored = { λ _ _ _. Unit {0} };

    ghost none = { λ _. tt };

    ghost further = { λ _ _ _ _ _ _ _. tt };

    fn peek(&self, a: u16) -> Option<u8> {
        if is_port(a) { None } else { self.below.peek(a) }
    }

    fn load_byte(&mut self, a: u16) -> Result<u8, BusFault> {
        self.peek(a).ok_or(no_byte(a))
    }

    fn load_word(&mut self, a: u16) -> Result<u16, BusFault> {
        if a % 2 != 0 {
            return Err(BusFault::OddAddress);
        }
        match a {
            CHARACTER_PORT | NUMBER_PORT => Err(BusFault::WrongWay),
            INPUT_PORT => self
                .waiting
                .pop()
                .map(u16::from)
                .ok_or(BusFault::NoneWaiting),
            _ => {
                self.below.peek(a).ok_or(BusFault::NothingThere)?;
                self.below.load_word(a)
            }
        }
    }

    fn store_byte(&mut self, a: u16, b: u8) -> Result<(), BusFault> {
        if self.peek(a).is_none() {
            return Err(no_byte(a));
        }
        self.below.store_byte(a, b)
    }

    fn store_word(&mut self, a: u16, v: u16) -> Result<(), BusFault> {
        if a % 2 != 0 {
            return Err(BusFault::OddAddress);
        }
        match a {
            CHARACTER_PORT => send(&mut self.sent, &[v.to_be_bytes()[1]]),
            NUMBER_PORT => {
                let mut digits = Buffer::new();
                send(&mut self.sent, digits.format(v.cast_signed()).as_bytes())
            }
            INPUT_PORT => Err(BusFault::WrongWay),
            _ => {
                self.below.peek(a).ok_or(BusFault::NothingThere)?;
                self.below.store_word(a, v)
            }
        }
    }

    fn give(&mut self, b: u8) -> Result<(), BusFault> {
        if WAITING_MOST <= self.waiting.len() {
            return Err(BusFault::WaitingFull);
        }
        self.waiting.push(b);
        Ok(())
    }

    fn take(&mut self) -> Result<u8, BusFault> {
        self.sent.pop().ok_or(BusFault::NoneSent)
    }
}
