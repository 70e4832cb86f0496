// What is in hand of a card file: the first bytes of a buffer, whose lines come next.
use card_stream::Stream;

#[derive(Clone, Copy)]
pub(crate) struct Hand {
    // The stream before it took what was read of these bytes.
    pub before: Stream,
    // How many bytes they are.
    pub end: usize,
}
