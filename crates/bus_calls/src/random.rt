// Numbers that look random and come again from the same seed.
ghost use Rattle.std.specs.Prelude.{◌≡◌, ℕ, ◌+◌, ◌*◌, ◌/◌, ◌%◌, ◌^◌};

#[derive(Drop)]
pub struct Random {
    state: u32,
}

impl Random {
    pub fn new(seed: u32) -> Random
        ensures { result.state ≡ seed }
    {
        Random { state: seed }
    }

    // The next number: the high half of the state, which mixes better than the low half.
    pub fn next(&mut self) -> u16
        ensures steps { self.new.state ≡ (self.old.state * 1664525 % 2 ^ 32 + 1013904223) % 2 ^ 32 }
        ensures high { result ≡ self.new.state / 65536 }
    {
        self.state = self.state.wrapping_mul(1664525).wrapping_add(1013904223);
        (self.state / 65536) as u16
    }
}
