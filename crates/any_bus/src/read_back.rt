// Code written once for every bus: a value stored in a cell is the value loaded from it.
ghost use Rattle.std.specs.Prelude.{◌≡◌, ℕ, ◌%◌, List, length, drop, Ok};
ghost use Rattle.bus.specs.Meaning.{Meaning, kind, Cells};
ghost use Rattle.bus.specs.Calls.{Byte, Word, load_byte, load_word, store_byte, store_word};
ghost use Rattle.bus.specs.Stores.{Store, accepted};
ghost use Rattle.bus.specs.Flats.{flat, flat_size};
ghost use Rattle.any_bus.specs.Answers.{Then, value_of};

use bus::{Bus, BusFault, Flat};

// Stores a byte and loads it again.
// Stays: a function for bytes and one for words, since a trait for what a store moves would state each clause of load and store again, and both would keep their own.
pub fn store_and_load_byte<B: Bus>(bus: &mut B, a: u16, b: u8) -> Result<u8, BusFault>
    ensures back { kind ((B.Bus.meaning bus.old).place a) ≡ Cells → result ≡ Ok b }
    ensures comes { Then (store_byte (B.Bus.meaning bus.old) a b) (B.Bus.meaning bus.old) (λ m. load_byte m a) result (B.Bus.meaning bus.new) }
    ensures keeps { B.Bus.kept bus.new ≡ B.Bus.kept bus.old }
    ensures stores { B.Bus.stored bus.old (accepted (value_of (store_byte (B.Bus.meaning bus.old) a b)) a b Byte) bus.new }
{
    bus.store_byte(a, b)?;
    bus.load_byte(a)
}

// Stores a word and loads it again.
pub fn store_and_load_word<B: Bus>(bus: &mut B, a: u16, v: u16) -> Result<u16, BusFault>
    ensures back { a % 2 ≡ 0 → kind ((B.Bus.meaning bus.old).place a) ≡ Cells → result ≡ Ok v }
    ensures comes { Then (store_word (B.Bus.meaning bus.old) a v) (B.Bus.meaning bus.old) (λ m. load_word m a) result (B.Bus.meaning bus.new) }
    ensures keeps { B.Bus.kept bus.new ≡ B.Bus.kept bus.old }
    ensures stores { B.Bus.stored bus.old (accepted (value_of (store_word (B.Bus.meaning bus.old) a v)) a v Word) bus.new }
{
    bus.store_word(a, v)?;
    bus.load_word(a)
}

// The same over lent bytes: the lender knows each of them afterwards.
pub fn store_and_load_in(bytes: &mut [u8], a: u16, v: u16) -> Result<u16, BusFault>
    ensures comes { Then (store_word (flat bytes.old) a v) (flat bytes.old) (λ m. load_word m a) result (flat bytes.new) }
    ensures spare { drop (flat_size (length bytes.new)) bytes.new ≡ drop (flat_size (length bytes.old)) bytes.old }
{
    let mut memory = Flat::new(bytes);
    store_and_load_word(&mut memory, a, v)
}
