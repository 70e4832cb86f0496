// What is held of a piece whose LF has not come, while a file comes in chunks of any size.
#![tactic(auto)]

ghost use Rattle.std.specs.Prelude.{◌≡◌, ℕ, List, [], ◌++◌, length};
ghost use Rattle.lines.specs.Steps.{Means};
ghost use Rattle.chunks.specs.Unfinished.{held_by, holding, clipped, clipped_with};
ghost use Rattle.chunks.specs.Chunks.{ran_over, LooksNoFurther};
ghost use Rattle.chunks.specs.Held.{run_of, Ran};

// The widest record of all layouts (240 bytes), its CR, and the last byte of a longer piece.
pub const ROOM: usize = 242;

// Any length is taken: one past the buffer stands for all of it. A buffer with its length beside it, and no `Vec`: C keeps it from call to call, and there is no heap.
#[derive(Clone, Copy)]
pub struct Unfinished {
    pub bytes: [u8; ROOM],
    pub length: usize,
}

impl Unfinished {
    // No byte has come. (No derived `Default`: of an array it tells each byte, and would want a law that all of them are these zeros.)
    pub fn none() -> Unfinished
        ensures { result ≡ holding [] }
    {
        Unfinished {
            bytes: [0; ROOM],
            length: 0,
        }
    }

    // How many bytes are held.
    pub fn size(self) -> usize
        ensures { result ≡ length (held_by self) }
    {
        self.length.min(ROOM)
    }

    // The bytes that are held.
    pub fn held(&self) -> &[u8]
        ensures { result.now ≡ held_by self.now }
    {
        let size = self.size();
        &self.bytes[..size]
    }

    // The bytes of a part behind those of a state that has zeros behind what it holds; one more than there is room for takes the last place.
    fn extended(self, part: &[u8]) -> Unfinished
        requires { self ≡ holding (held_by self) }
        ensures { result ≡ holding (clipped_with (held_by self) part.now) }
    {
        let mut bytes = self.bytes;
        let mut length = self.length;
        for byte in part {
            let place = length.min(ROOM - 1);
            bytes[place] = *byte;
            length = place + 1;
        }
        Unfinished { bytes, length }
    }

    // The bytes of a part behind those that are held.
    pub fn followed_by(self, part: &[u8]) -> Unfinished
        ensures { result ≡ holding (clipped (held_by self ++ part.now)) }
    {
        Unfinished::none().extended(self.held()).extended(part)
    }
}

// Takes a chunk, however the file is cut: the pieces that end in it, the first behind what was held, and holds the rest.
pub fn take_chunk<S: Drop, F: Fn(S, &[u8]) -> S>(
    state: S,
    held: Unfinished,
    chunk: &[u8],
    step: F,
) -> (S, Unfinished)
    requires { F.IsAlwaysCallable step }
    ensures { (meant : S → List ℕ → S) → Means (F.post step) meant → LooksNoFurther meant → Ran result.0 result.1 (ran_over meant (run_of state held) chunk.now) }
{
    let Some((piece, behind)) = lines::first_piece(chunk) else {
        return (state, held.followed_by(chunk));
    };
    let next = step(state, held.followed_by(piece).held());
    let (state, rest) = lines::take_pieces(next, behind, step);
    (state, Unfinished::none().followed_by(rest))
}
