// The check of a card (document 01, section 9): its length, the marks, its header, and the links from record to record.
ghost use Rattle.std.specs.Prelude.{◌≡◌, [], ◌<◌, length};
ghost use Rattle.card.specs.Format.{header_of};
ghost use Rattle.card.specs.Chain.{whole, records, chain_of, marked, outcome_by, outcome_of, Leaves};

use crate::record::{call_of, header_of, next_of, record_part};
use crate::refusal::CardRefusal;

// Whether a card of n bytes has from 1 to 800 whole records.
fn is_whole(n: usize) -> bool
    ensures { result ≡ whole n }
{
    (80..=64_000).contains(&n) && n % 80 == 0
}

// Marks the header, and none of the other records.
fn reset_marks(marks: &mut [u8])
    requires { 0 < length marks.old }
    ensures { marks.new ≡ marked (length marks.old) [] }
{
    marks.fill(0);
    marks[0] = 1;
}

// Follows the links from the header on, and marks each record that it passes; counts these.
fn follow(card: &[u8], marks: &mut [u8]) -> Result<usize, CardRefusal>
    requires { (0 < records card.now) × (length marks.old ≡ records card.now) × (marks.old ≡ marked (records card.now) []) }
    ensures { (result ≡ (chain_of card.now).answer) × (marks.new ≡ marked (records card.now) (chain_of card.now).passed) }
{
    let mut link = next_of(record_part(card, 0));
    let mut count: usize = 0;
    // a `while`: a record says which comes next, so there is no sequence to go over
    while link != 0 {
        if link >= marks.len() {
            return Err(CardRefusal::NextIndex);
        }
        if marks[link] == 1 {
            return Err(CardRefusal::PassedRecord);
        }
        let here = record_part(card, link);
        if call_of(here).is_none() {
            return Err(CardRefusal::KindOrOption);
        }
        marks[link] = 1;
        count += 1;
        link = next_of(here);
    }
    Ok(count)
}

// The check of a card with a mark for each of its records: the header, then the links.
fn check_records(card: &[u8], marks: &mut [u8]) -> Result<usize, CardRefusal>
    requires { (0 < records card.now) × (length marks.old ≡ records card.now) }
    ensures { Leaves (outcome_by (header_of card.now) card.now marks.old) result marks.new }
{
    reset_marks(marks);
    header_of(record_part(card, 0))?;
    follow(card, marks)
}

// Whether a card can be run: how many records there are to walk after the header, or a refusal; and in `marks` which of its records were passed.
#[tactic(auto, using(crate::proofs::Laws::Outcomes::with_rest), unfolding(crate::specs::Chain::outcome_of))]
pub fn check(card: &[u8], marks: &mut [u8]) -> Result<usize, CardRefusal>
    ensures { Leaves (outcome_of card.now marks.old) result marks.new }
{
    if !is_whole(card.len()) {
        return Err(CardRefusal::Length);
    }
    let n = card.len() / 80;
    if n > marks.len() {
        return Err(CardRefusal::Marks);
    }
    check_records(card, &mut marks[..n])
}
