// The unfinished line of a chunk, which waits at the start of the buffer for the next one.
ghost use Rattle.std.specs.Prelude.{◌≤◌, ◌≡◌, length};
ghost use Rattle.card_copy.specs.Copying.{MovedToFront, waiting_size};

// Moves what stands from `from` up to `end` to the start of the buffer.
pub(crate) fn move_to_front(buffer: &mut [u8], from: usize, end: usize)
    requires { (from ≤ end) × (end ≤ length buffer.old) }
    ensures { MovedToFront buffer.old from end buffer.new }
{
    buffer.copy_within(from..end, 0);
}

// An unfinished line that fills the buffer belongs to no accepted file, so it is let go: nothing of its file is written any more,
// since the file is refused at that line's end.
pub(crate) fn tail_size(tail: usize, room: usize) -> usize
    ensures { result ≡ waiting_size tail room }
{
    if tail < room { tail } else { 0 }
}
