// What a field may hold, and the fault of a part that holds something else.
ghost use Rattle.std.specs.Prelude.{◌≡◌};
ghost use Rattle.refusal.specs.Rules.{first_broken};
ghost use Rattle.card_content.specs.Content.{
  is_currency,
  in_row,
  in_set,
  day_or_zeros_rules,
  card_or_blanks_rules,
  content_rules,
};

use calendar::day::year_first;
use calendar::time::time_of;
use calendar::when;
use refusal::{Cause, Fault};
use text::alphabet::{Alphabet, holds_only};
use text::literal;

// The contents that the tables name.
#[derive(Clone, Copy)]
pub enum Content {
    // N, also amounts, instalment numbers and NSEQ.
    Digits,
    // AN.
    Text,
    Day,
    // A day marked optional: it may be all zeros.
    DayOrZeros,
    Time,
    Card,
    // A card marked optional: it may be all blanks.
    CardOrBlanks,
    OneOf(ClosedSet),
}

// The fields with a closed set of values.
#[derive(Clone, Copy)]
pub enum ClosedSet {
    Version,
    Processing,
    Currency,
    LaunchType,
    Product,
    Capture,
    AdjustmentCapture,
    AdjustmentType,
}

// Whether a part is one of the four currencies.
fn is_currency(part: &[u8]) -> bool
    ensures { result ≡ is_currency part.now }
{
    literal::equals(part, b"RE")
        || literal::equals(part, b"DO")
        || literal::equals(part, b"PE")
        || literal::equals(part, b"  ")
}

// Whether a part is one of the values that an edition's row gives: none under another edition.
fn is_in_row(row: u64, values: &[u8], edition: u64, part: &[u8]) -> bool
    ensures { result ≡ in_row row values.now edition part.now }
{
    edition == row && literal::is_one_of(part, values)
}

// Whether a part is a value of a closed set. Only captures go by the edition.
#[tactic(auto, unfolding(crate::specs::Content::in_set))]
pub fn is_in_set(set: ClosedSet, edition: u64, part: &[u8]) -> bool
    ensures { result ≡ in_set set edition part.now }
{
    match set {
        ClosedSet::Version => literal::equals(part, b"001.7d"),
        ClosedSet::Processing => literal::is_one_of(part, b"NR"),
        ClosedSet::Currency => is_currency(part),
        ClosedSet::LaunchType => literal::is_one_of(part, b"012"),
        ClosedSet::Product => literal::is_one_of(part, b"CDV"),
        ClosedSet::Capture => is_in_row(2, b"123456789", edition, part),
        ClosedSet::AdjustmentCapture => is_in_row(2, b"12345679", edition, part),
        ClosedSet::AdjustmentType => literal::is_one_of(part, b"12"),
    }
}

// The fault of a part that should hold a day or zeros.
#[tactic(auto, unfolding(crate::specs::Content::day_or_zeros_rules, refusal::specs::Rules::first_broken))]
fn day_or_zeros_fault(column: u64, part: &[u8]) -> Result<(), Fault>
    ensures { result ≡ first_broken (day_or_zeros_rules column part.now) }
{
    if literal::equals(part, b"00000000") {
        return Ok(());
    }
    when::fault_of(year_first(part), column)
}

// The fault of a part that should hold a card or blanks.
#[tactic(auto, using(refusal::proofs::Rows::one_rule), unfolding(crate::specs::Content::card_or_blanks_rules))]
fn card_or_blanks_fault(column: u64, part: &[u8]) -> Result<(), Fault>
    ensures { result ≡ first_broken (card_or_blanks_rules column part.now) }
{
    let allowed = literal::equals(part, b"                   ") || pan::well_formed(part);
    refusal::rule(Cause::ByteNotAllowed, column, allowed)
}

// The fault of a part that should hold this content.
#[tactic(auto, using(refusal::proofs::Rows::one_rule), unfolding(crate::specs::Content::content_rules))]
pub fn fault_of(content: Content, edition: u64, column: u64, part: &[u8]) -> Result<(), Fault>
    ensures { result ≡ first_broken (content_rules content edition column part.now) }
{
    match content {
        Content::Digits => refusal::rule(
            Cause::ByteNotAllowed,
            column,
            holds_only(Alphabet::Digits, part),
        ),
        Content::Text => refusal::rule(
            Cause::ByteNotAllowed,
            column,
            holds_only(Alphabet::CardText, part),
        ),
        Content::Card => refusal::rule(Cause::ByteNotAllowed, column, pan::well_formed(part)),
        Content::CardOrBlanks => card_or_blanks_fault(column, part),
        Content::Day => when::fault_of(year_first(part), column),
        Content::DayOrZeros => day_or_zeros_fault(column, part),
        Content::Time => when::fault_of(time_of(part), column),
        Content::OneOf(set) => refusal::rule(
            Cause::ValueNotAllowed,
            column,
            is_in_set(set, edition, part),
        ),
    }
}
