// A queue of bytes in a ring.
ghost use Rattle.std.specs.Prelude.{◌≡◌, ℕ, ◌+◌, ◌-◌, ◌<◌, ◌≤◌, List, [], ◌∷◌, ◌++◌, length};
ghost use Rattle.console.specs.Rings.{turn, from, up_to, items, Popped};

// Any values of the fields make a queue, so that no invariant is owed: see `start` and `size`.
// Stays: a ring, since the first byte of an `ArrayVec` goes by moving up all others.
#[derive(Drop)]
pub struct Queue<const N: usize> {
    bytes: [u8; N],
    first: usize,
    count: usize,
}

// The place of the byte that comes `i` after the one at `first`, in a ring of `n`.
fn place(n: usize, first: usize, i: usize) -> usize
    requires { (first < n) × (i ≤ n) }
    ensures { (result ≡ turn n first i) × ((i < n → result < n)) }
{
    let room = n - first;
    if i < room { first + i } else { i - room }
}

impl<const N: usize> Queue<N> {
    pub fn new() -> Queue<N>
        ensures { items result ≡ [] }
    {
        Queue {
            bytes: [0; N],
            first: 0,
            count: 0,
        }
    }

    fn start(&self) -> usize
        ensures { result ≡ from N self.now.first }
    {
        if self.first < N { self.first } else { 0 }
    }

    fn size(&self) -> usize
        ensures { result ≡ up_to N self.now.count }
    {
        if N < self.count { N } else { self.count }
    }

    pub fn len(&self) -> usize
        ensures within { result ≤ N }
        ensures exact { result ≡ length (items self.now) }
    {
        self.size()
    }

    pub fn push(&mut self, b: u8)
        requires { length (items self.old) < N }
        ensures { items self.new ≡ items self.old ++ (b ∷ []) }
    {
        let first = self.start();
        let count = self.size();
        let i = place(N, first, count);
        self.bytes[i] = b;
        self.first = first;
        self.count = count + 1;
    }

    pub fn push_all(&mut self, text: &[u8])
        requires { length (items self.old) + length text.now ≤ N }
        ensures { items self.new ≡ items self.old ++ text.now }
    {
        for b in text {
            self.push(*b);
        }
    }

    pub fn pop(&mut self) -> Option<u8>
        ensures { Popped (items self.old) result (items self.new) }
    {
        let first = self.start();
        let count = self.size();
        if count == 0 {
            return None;
        }
        let b = self.bytes[first];
        self.first = place(N, first, 1);
        self.count = count - 1;
        Some(b)
    }
}
