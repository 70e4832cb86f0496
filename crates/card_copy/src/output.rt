// What is made of a card file's lines. An enum and no closure: what may not change is `work`, which is asked for either.
#[derive(Clone, Copy)]
pub enum Output {
    // The lines themselves, masked.
    MaskedCopy,
    // A header line, and a row for each adjustment among them.
    Adjustments,
}
