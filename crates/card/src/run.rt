// The run of a card: its transcript (document 01, section 7).
ghost use Rattle.std.specs.Prelude.{◌≡◌, Ok, IsOk, true, ◌≤◌, length};
ghost use Rattle.card.specs.Format.{header_of};
ghost use Rattle.card.specs.Chain.{whole, chain_of};
ghost use Rattle.card.specs.Text.{Written};
ghost use Rattle.card.specs.Transcript.{transcript_by, run_of, Runs};

use crate::bytes::put;
use crate::chain::check;
use crate::record::{call_of, header_of, next_of, record_part};
use crate::text::{card_line, end_line, record_line};

// Walks a card once more that the check lets through, `count` records from the header on, and runs each: the header is no refusal, and each of the records is a call.
fn run_records(card: &[u8], out: &mut [u8], count: usize) -> usize
    requires { (whole (length card.now) ≡ true) × IsOk (header_of card.now) × ((chain_of card.now).answer ≡ Ok count) × (32000 ≤ length out.old) }
    ensures { Written out.old 0 (transcript_by card.now (header_of card.now) (Ok count)) out.new result × (result ≤ 32000) }
{
    let header = record_part(card, 0);
    let mut joined = header_of(header).unwrap();
    let mut link = next_of(header);
    let mut at = 0;
    for _ in 0..count {
        let here = record_part(card, link);
        let update = joined.call(call_of(here).unwrap());
        joined = update.state;
        at = put(out, at, record_line(link, update.answer).as_bytes());
        link = next_of(here);
    }
    put(out, at, end_line(count).as_bytes())
}

// Checks a card and runs it: the transcript goes to the start of `out`, and the rest of `out` stays. Hands back the transcript's length.
// There is room for any: a transcript has at most 799 lines of at most 40 bytes and an end of at most 8.
#[tactic(auto, using(crate::proofs::Laws::Lines::card_long))]
pub fn run(card: &[u8], marks: &mut [u8], out: &mut [u8; 32_000]) -> usize
    ensures runs { Runs (run_of card.now marks.old out.old) result marks.new out.new }
    ensures upper_bound { result ≤ length out.new }
{
    match check(card, marks) {
        Ok(count) => run_records(card, out, count),
        Err(why) => put(out, 0, card_line(why).as_bytes()),
    }
}
