// The lines of a transcript (document 01, section 7).
ghost use Rattle.std.specs.Prelude.{◌≡◌, Ok, Err, [], ◌∷◌, ◌++◌, ◌+◌, ◌≤◌, ◌<◌, length};
ghost use Rattle.numbers.specs.Numbers.{bits_of};
ghost use Rattle.machines.specs.Refusals.{report_of};
ghost use Rattle.joined.specs.Shown.{tilt_bits, output_bits, flag_of, shown_of};
ghost use Rattle.card.specs.CardRefusals.{card_refusal_of, card_field_of};
ghost use Rattle.card.specs.Text.{spaced, hex_digit, hex_of, decimal_of, output_word, refusal_words, words_of, record_line, end_line, card_line};

use crate::bytes::put;
use crate::refusal::CardRefusal;
use joined::answer::{Line, letter};
use machines::answer::ShareOrTilt;
use machines::{InputRefusal, ModeRefusal, report_number};
use numbers::bits::to_bits;
use std::marker::Model;

// A line as far as it is written; none is longer than 40 bytes.
// Its words are not written by `write!` and `Display`: what those leave is said only where they give `Ok`, and the clause `runs` of `run` says what every byte is.
// Fixed memory, so no `String`; the kit's `ArrayVec<u8, 40>` answers a `Result` at each addition, and to unwrap it asks for the same room.
#[derive(Drop)]
pub(crate) struct Text {
    bytes: [u8; 40],
    length: usize,
}

impl Model for Text {
    ghost use Rattle.std.specs.Prelude.{ℕ, List, take, ◌≤◌};

    ghost Value = { List ℕ };

    ghost view = { λ t. take t.length t.bytes };

    ghost invariant = { λ t. t.length ≤ 40 };
}

// The hexadecimal digit of a number below 16, in upper case.
fn hex_digit(n: u32) -> u8
    requires { n < 16 }
    ensures { result ≡ hex_digit n }
{
    if n < 10 {
        b'0' + n as u8
    } else {
        b'A' + (n - 10) as u8
    }
}

// Each method says how much room it needs: the number is its own, so no type says it for all.
impl Text {
    // Nothing yet.
    fn new() -> Text
        ensures { result ≡ [] }
    {
        Text {
            bytes: [0; 40],
            length: 0,
        }
    }

    // What is written.
    pub(crate) fn as_bytes(&self) -> &[u8]
        ensures { result.now ≡ self.now }
    {
        &self.bytes[..self.length]
    }

    // Adds some bytes.
    fn add(&mut self, bytes: &[u8])
        requires { length self.old + length bytes.now ≤ 40 }
        ensures { self.new ≡ self.old ++ bytes.now }
    {
        self.length = put(&mut self.bytes, self.length, bytes);
    }

    // Adds a number's bits in eight hexadecimal digits, and what stands after them.
    #[tactic(auto, unfolding(crate::specs::Text::hex_of))]
    fn bits(&mut self, x: f32, after: u8)
        requires { length self.old + 9 ≤ 40 }
        ensures added { self.new ≡ self.old ++ hex_of (bits_of x) ++ after ∷ [] }
        ensures long { length self.new ≡ length self.old + 9 }
    {
        let n = to_bits(x);
        self.add(&[
            hex_digit(n / 0x1000_0000 % 16),
            hex_digit(n / 0x100_0000 % 16),
            hex_digit(n / 0x10_0000 % 16),
            hex_digit(n / 0x1_0000 % 16),
            hex_digit(n / 0x1000 % 16),
            hex_digit(n / 0x100 % 16),
            hex_digit(n / 0x10 % 16),
            hex_digit(n % 16),
            after,
        ]);
    }

    // Adds a number below 1000 in decimal digits, and what stands after it.
    #[tactic(auto, unfolding(crate::specs::Text::decimal_of))]
    fn decimal(&mut self, n: usize, after: u8)
        requires { (length self.old + 4 ≤ 40) × (n < 1000) }
        ensures added { self.new ≡ self.old ++ decimal_of n ++ after ∷ [] }
        ensures short { length self.new ≤ length self.old + 4 }
    {
        if n < 10 {
            return self.add(&[b'0' + n as u8, after]);
        }
        if n < 100 {
            return self.add(&[b'0' + (n / 10) as u8, b'0' + (n % 10) as u8, after]);
        }
        self.add(&[
            b'0' + (n / 100) as u8,
            b'0' + (n / 10 % 10) as u8,
            b'0' + (n % 10) as u8,
            after,
        ]);
    }

    // Adds 1 or 0, and what stands after it.
    #[tactic(auto, unfolding(crate::specs::Text::decimal_of))]
    fn flag(&mut self, on: bool, after: u8)
        requires { length self.old + 2 ≤ 40 }
        ensures added { self.new ≡ self.old ++ decimal_of (flag_of on) ++ after ∷ [] }
        ensures long { length self.new ≡ length self.old + 2 }
    {
        self.add(&[b'0' + u8::from(on), after]);
    }

    // Adds the tilt's bits, or "-" if there is none, and what stands after them.
    fn tilt(&mut self, target: Option<f32>, after: u8)
        requires { length self.old + 9 ≤ 40 }
        ensures added { self.new ≡ self.old ++ output_word (tilt_bits target) ++ after ∷ [] }
        ensures short { length self.new ≤ length self.old + 9 }
    {
        match target {
            Some(x) => self.bits(x, after),
            None => self.add(&[b'-', after]),
        }
    }

    // Adds the share's or the tilt's bits, or "-", and what stands after them.
    fn share_or_tilt(&mut self, output: ShareOrTilt, after: u8)
        requires { length self.old + 9 ≤ 40 }
        ensures added { self.new ≡ self.old ++ output_word (output_bits output) ++ after ∷ [] }
        ensures short { length self.new ≤ length self.old + 9 }
    {
        match output {
            ShareOrTilt::Share(x) => self.bits(x, after),
            ShareOrTilt::Tilt(target) => self.tilt(target, after),
        }
    }

    // Adds the last words of a line: report, thrust and pitch.
    fn line_end(&mut self, report: Option<ModeRefusal>, thrust: f32, pitch_rad: f32)
        requires { length self.old + 22 ≤ 40 }
        ensures { self.new ≡ self.old ++ spaced (decimal_of (report_of report) ∷ hex_of (bits_of thrust) ∷ hex_of (bits_of pitch_rad) ∷ []) }
    {
        self.decimal(usize::from(report_number(report)), b' ');
        self.bits(thrust, b' ');
        self.bits(pitch_rad, b'\n');
    }

    // Adds the words of a line after its index.
    fn line_words(&mut self, line: Line)
        requires { length self.old + 35 ≤ 40 }
        ensures { self.new ≡ self.old ++ spaced (words_of (shown_of (Ok line))) }
    {
        self.add(&[letter(line.mode), b' ']);
        self.share_or_tilt(line.output, b' ');
        self.flag(line.handoff, b' ');
        self.line_end(line.report, line.thrust, line.pitch_rad);
    }

    // Adds a refusal's number, and the field after a 3, at the end of a line. Of numbers: refusals of two types come here, and `refusal_words` speaks of the numbers.
    fn refusal(&mut self, number: u8, field: u8)
        requires { length self.old + 8 ≤ 40 }
        ensures { self.new ≡ self.old ++ spaced (refusal_words number field) }
    {
        if number == 3 {
            self.decimal(usize::from(number), b' ');
            self.decimal(usize::from(field), b'\n');
        } else {
            self.decimal(usize::from(number), b'\n');
        }
    }

    // Adds the words of a refused call after its index.
    fn refused_words(&mut self, why: InputRefusal)
        requires { length self.old + 35 ≤ 40 }
        ensures { self.new ≡ self.old ++ spaced (words_of (shown_of (Err why))) }
    {
        self.add(b"refused ");
        self.refusal(why.number(), why.field());
    }
}

// The line of record i.
pub(crate) fn record_line(i: usize, answer: Result<Line, InputRefusal>) -> Text
    requires { i < 1000 }
    ensures { result ≡ record_line i (shown_of answer) }
{
    let mut text = Text::new();
    text.decimal(i, b' ');
    match answer {
        Ok(line) => text.line_words(line),
        Err(why) => text.refused_words(why),
    }
    text
}

// "end" and how many records were walked.
pub(crate) fn end_line(n: usize) -> Text
    requires { n < 1000 }
    ensures { result ≡ end_line n }
{
    let mut text = Text::new();
    text.add(b"end ");
    text.decimal(n, b'\n');
    text
}

// "card" and why it was refused.
pub(crate) fn card_line(why: CardRefusal) -> Text
    ensures { result ≡ card_line (card_refusal_of why) (card_field_of why) }
{
    let mut text = Text::new();
    text.add(b"card ");
    text.refusal(why.number(), why.field());
    text
}
