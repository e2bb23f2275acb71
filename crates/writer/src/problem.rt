// What can be wrong with a text, and what is said of it.
use crate::names::{Names, REASONS};
use card::write::WriteRefusal;
use joined::machine::Airframe;
use std::fmt::{self, InlineText};
use streams::Decimal;
use thiserror::Error;

const NUMBER_FORM: &str =
    "; a number is a decimal such as 0.5 or 1e-3, 'nan', 'inf', '-inf', or 'x' and the 8 hexadecimal digits of its bits";

// A word of the text, shown in quotes: a byte that is not printable as '?', and of a long word the first 40 bytes.
#[derive(Clone, Copy, Debug)]
pub(crate) struct Word<'a>(pub &'a [u8]);

impl fmt::Display for Word<'_> {
    fn fmt<W: fmt::Write>(&self, f: &mut fmt::Formatter<W>) -> fmt::Result {
        f.write_str("'")?;
        for b in self.0.iter().take(40) {
            let shown = matches!(b, b' '..=b'~');
            f.write_char(if shown { char::from(*b) } else { '?' })?;
        }
        if self.0.len() > 40 {
            f.write_str("..")?;
        }
        f.write_str("'")
    }
}

// A name of docs/SETTINGS.md or of a line, shown a byte at a time, as a word is.
#[derive(Clone, Copy, Debug)]
struct Name(&'static str);

impl fmt::Display for Name {
    fn fmt<W: fmt::Write>(&self, f: &mut fmt::Formatter<W>) -> fmt::Result {
        for c in self.0.chars() {
            f.write_char(c)?;
        }
        Ok(())
    }
}

// The names that a line can have, shown with commas between them.
#[derive(Clone, Copy, Debug)]
struct Listed(Names);

impl fmt::Display for Listed {
    fn fmt<W: fmt::Write>(&self, f: &mut fmt::Formatter<W>) -> fmt::Result {
        f.write_joined(self.0.parts().iter().map(|part| Name(part.0)), ", ")
    }
}

// The names of a cut's reasons, shown with commas between them.
#[derive(Clone, Copy, Debug)]
struct Reasons;

impl fmt::Display for Reasons {
    fn fmt<W: fmt::Write>(&self, f: &mut fmt::Formatter<W>) -> fmt::Result {
        f.write_joined(REASONS.iter().map(|reason| Name(reason.0)), ", ")
    }
}

// How many numbers an airframe's settings are, shown in one part.
#[derive(Clone, Copy, Debug)]
struct Takes(Names);

impl fmt::Display for Takes {
    fn fmt<W: fmt::Write>(&self, f: &mut fmt::Formatter<W>) -> fmt::Result {
        let names = self.0;
        let count = Decimal(names.parts().len() as u64);
        f.write_str(InlineText::<40>::of(format_args!("{names} takes {count} numbers")).as_str())
    }
}

// What is wrong with a text, most often with the word that shows it.
#[derive(Clone, Copy, Debug, Error)]
pub(crate) enum Problem<'a> {
    #[error("the text is UTF-16; save it as UTF-8")]
    Utf16,
    #[error("the text has no header; its first line with words is 'tailsitter' or 'quadplane' and the settings")]
    NoHeader,
    #[error("{0} begins no header; the first line with words is 'tailsitter' or 'quadplane', in small letters, and the settings")]
    OtherHeader(Word<'a>),
    #[error("{0} begins a second header; a text has one, and its other lines begin with prime, step, cut or settings")]
    SecondHeader(Word<'a>),
    #[error("{0} is not taken; a card has its header once")]
    HeaderTimes(Word<'a>),
    #[error("{0} begins no call; prime, step, cut and settings do, in small letters")]
    OtherCall(Word<'a>),
    #[error("{0} is taken by oracle/card alone; here a call begins with prime, step, cut or settings")]
    Record(Word<'a>),
    #[error("{0} is taken by oracle/card alone; here each call is followed by that of the next line")]
    Next(Word<'a>),
    #[error("{0} is not taken; 'times=' has a whole number from 1 to 799, in at most 3 digits")]
    Times(Word<'a>),
    #[error("{0} is no request; a step begins 'step copter' or 'step plane', in small letters")]
    Request(Word<'a>),
    #[error("{0} is no reason for a cut; a cut is 'cut REASON', with a number from 11 to 16 or one of these, spelt so: {names}", names = Reasons)]
    Reason(Word<'a>),
    #[error("{0} has no '='; each word here is NAME=NUMBER, without a space in it (settings are all by name, or all in their order)")]
    NoEquals(Word<'a>),
    #[error("{0} has no {1}; it has {names}; 'times=K' stands once, as the last word of a call's line", names = Listed(*.0))]
    Unknown(Names, Word<'a>),
    #[error("{0} stands twice; a line names each at most once")]
    Twice(Word<'a>),
    #[error("{0} takes {one} number, with a decimal point and no comma", one = Decimal(1))]
    OneValue(Word<'a>),
    #[error("{0} takes {n} numbers, with commas and no space between them", n = Decimal(*.1 as u64))]
    Values(Word<'a>, usize),
    #[error("a prime has a z: 'prime z=NUMBER'")]
    NoZ,
    #[error("a step has a dt and an attitude; dt is missing")]
    NoDt,
    #[error("a step has a dt and an attitude; attitude is missing")]
    NoAttitude,
    #[error("{takes} in the order of docs/SETTINGS.md, or NAME=NUMBER for each that is not the default; this line has {n}", takes = Takes(*.0), n = Decimal(*.1 as u64))]
    Count(Names, usize),
    #[error("a number is missing; it stands right after '=' or ',', without a space{form}", form = NUMBER_FORM)]
    NoWord,
    #[error("{0} is no number{form}", form = NUMBER_FORM)]
    NoNumber(Word<'a>),
    #[error("{0} is too long; written out without an exponent, a decimal has at most 9 digits and 9 places behind the point; or write 'x' and the 8 hexadecimal digits of its bits")]
    TooLong(Word<'a>),
}

impl<'a> Problem<'a> {
    // That a name does not have as many numbers as it takes.
    pub(crate) fn values(name: &'a [u8], count: usize) -> Problem<'a> {
        if count == 1 {
            Problem::OneValue(Word(name))
        } else {
            Problem::Values(Word(name), count)
        }
    }
}

// Why a card is refused.
#[derive(Clone, Copy, Debug)]
pub(crate) struct Refusal {
    pub why: WriteRefusal,
    pub airframe: Airframe,
}

impl fmt::Display for Refusal {
    fn fmt<W: fmt::Write>(&self, f: &mut fmt::Formatter<W>) -> fmt::Result {
        let number = Decimal(u64::from(self.why.number()));
        match self.why {
            WriteRefusal::Calls => write!(f, "refused {number}: more than 799 calls"),
            WriteRefusal::Room => {
                write!(
                    f,
                    "refused {number}: the card is longer than the room for it"
                )
            }
            WriteRefusal::Header(why) => {
                let name = Name(Names::from(self.airframe).name_at(usize::from(why.field())));
                let field = Decimal(u64::from(why.field()));
                write!(
                    f,
                    "refused {number} {field}: the header's setting {field}, {name}, is out of its range; docs/SETTINGS.md has the ranges"
                )
            }
        }
    }
}

// Why a text has no card: a line of it is wrong, or the card is refused.
#[derive(Clone, Copy, Debug, Error)]
pub(crate) enum Why<'a> {
    #[error(transparent)]
    Wrong(Problem<'a>),
    #[error("{0}")]
    Refused(Refusal),
}

// Why a text has no card, and the number of the line that it is about.
#[derive(Clone, Copy, Debug)]
pub(crate) struct NoCard<'a> {
    pub line: usize,
    pub why: Why<'a>,
}
