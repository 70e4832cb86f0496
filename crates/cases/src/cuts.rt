// Where a file is cut into chunks: at places that look random, and are the same each time.
ghost use Rattle.std.specs.Prelude.{◌≡◌, ℕ, ◌+◌, ◌≤◌, Bool, cond, List, length};
ghost use Rattle.cases.specs.Cuts.{next_of, size_of, cut_behind, Takes};
ghost use Rattle.cases.specs.Hash.{hash_from};

use crate::hash;

#[derive(Clone, Copy)]
pub struct Cuts {
    pub state: u64,
}

// The generator: the next state is (state * FACTOR + TERM) mod 2^32.
const MODULUS: u64 = 4294967296;

const FACTOR: u64 = 1664525;

const TERM: u64 = 1013904223;

// A chunk has as many bytes as a product of two numbers below this one.
const LIMIT: u64 = 20;

// What a state is divided by for either of them: its high bits look random.
const FIRST_SHIFT: u64 = 65536;

const SECOND_SHIFT: u64 = 16777216;

impl Cuts {
    // The cuts of a file: its own hash picks them.
    pub fn of(file: &[u8]) -> Cuts
        ensures { result.state ≡ hash_from 0 file.now }
    {
        Cuts {
            state: hash::hash(file),
        }
    }

    // The next state.
    pub fn next(self) -> Cuts
        ensures { result ≡ next_of self }
    {
        let state = (self.state % MODULUS * FACTOR + TERM) % MODULUS;
        Cuts { state }
    }

    // How many bytes the next chunk has, 0 to 361.
    #[tactic(auto, using(crate::proofs::Sizes::size_range), unfolding(crate::specs::Cuts::size_of))]
    fn size(self) -> usize
        ensures { result ≡ size_of self.state }
    {
        let first = self.state / FIRST_SHIFT % LIMIT;
        let second = self.state / SECOND_SHIFT % LIMIT;
        (first * second) as usize
    }

    // Where the chunk from a place on ends, in a file of this length.
    pub fn behind(self, at: usize, length: usize) -> usize
        ensures { result ≡ cut_behind self.state at length }
    {
        at.saturating_add(self.size()).min(length)
    }
}

// Hands a file over in chunks that are cut at places that look random. There are as many chunks as bytes, and those behind the last byte are empty.
pub fn in_chunks<S: Copy, F: Fn(S, &[u8]) -> S>(first: S, file: &[u8], take: F) -> S
    requires { F.IsAlwaysCallable take }
    ensures { (taken : S → List ℕ → S) → Takes (λ s chunk r. F.post take s chunk r) taken → result ≡ taken first file.now }
{
    let mut state = first;
    let mut cuts = Cuts::of(file);
    let mut at = 0;
    for _ in 0..file.len() {
        cuts = cuts.next();
        let end = cuts.behind(at, file.len());
        state = take(state, &file[at..end]);
        at = end;
    }
    take(state, &file[at..])
}

// Hands a file over that is cut in two at a place, or behind its last byte where the place lies beyond.
pub fn in_two<S: Copy, F: Fn(S, &[u8]) -> S>(first: S, file: &[u8], place: usize, take: F) -> S
    requires { F.IsAlwaysCallable take }
    ensures { (taken : S → List ℕ → S) → Takes (λ s chunk r. F.post take s chunk r) taken → result ≡ taken first file.now }
{
    let place = place.min(file.len());
    let front = take(first, &file[..place]);
    take(front, &file[place..])
}

// How many of all the cuts of a file in two pass a test.
pub fn how_many<F: Fn(usize) -> bool>(file: &[u8], test: F) -> u64
    requires { (place : ℕ) → place ≤ length file.now → F.pre test place }
    ensures { (all : Bool) → ((place : ℕ) (answer : Bool) → place ≤ length file.now → F.post test place answer → answer ≡ all) → result ≡ cond all (length file.now + 1) 0 }
{
    // A `filter` that is counted, by a test handed over, wants laws of what the adapter ran and that it may call the test: this loop has one invariant.
    let mut passed = 0;
    for place in 0..file.len() + 1 {
        if test(place) {
            passed += 1;
        }
    }
    passed
}
