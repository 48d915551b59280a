// What is wrong with a line, in words.
use commands::{Fault, Kind};
use std::fmt;

// Which word is wrong, and what the line should be.
#[derive(Clone, Copy)]
pub struct Expected(pub Fault);

impl fmt::Display for Expected {
    fn fmt<W: fmt::Write>(&self, f: &mut fmt::Formatter<W>) -> fmt::Result {
        let kind = self.0.kind;
        let wrong = wrong(kind, self.0.word);
        let form = form(kind);
        match kind {
            Kind::Nothing => Ok(()),
            Kind::Unknown => write!(f, "{wrong}"),
            _ => write!(f, "{wrong}; expected: {form}"),
        }
    }
}

fn wrong(kind: Kind, word: u8) -> &'static str {
    match (kind, word) {
        (Kind::Nothing, _) => "",
        (Kind::Unknown, _) => {
            "the first word is none of window, question, remove, show, report, noted, heated, heated-noted, time, untimed"
        }
        (Kind::Window, 1) => "N is missing or no number from 0 to 65535",
        (Kind::Window, _) => "something stands behind N",
        (Kind::Question | Kind::Remove | Kind::Show, 1) => {
            "SLOT is missing or no number from 0 to 255"
        }
        (Kind::Question, 2) => "K is missing or no number from 0 to 255",
        (Kind::Question, 3) => "A is missing or no number from -32768 to 32767",
        (Kind::Question, 4) => "B is missing or no number from -32768 to 32767",
        (Kind::Question, 5) => "C is no number from -32768 to 32767, and not newest or first",
        (Kind::Question, 6) => {
            "what stands behind C is not newest or first, or something stands behind the tie rule"
        }
        (Kind::Question, _) => "something stands behind the tie rule",
        (Kind::Remove | Kind::Show, _) => "something stands behind SLOT",
        (Kind::Time, 1) => "MS is missing or no number from 0 to 4294967295",
        (Kind::Time, _) => "something stands behind MS",
        (Kind::Untimed, _) => "something stands behind untimed",
        (_, 1) => "SENDER is missing or no number from 0 to 253",
        (_, 2) => "LOSS is missing or no number from 0 to 4095",
        (_, 3) => "SHAKE is missing or no number from 0 to 4095",
        (Kind::Heated | Kind::HeatedNoted, 4) => "HEAT is missing or no number from 0 to 4095",
        _ => "NUMBER is missing or no number from 0 to 4294967295",
    }
}

fn form(kind: Kind) -> &'static str {
    match kind {
        Kind::Nothing | Kind::Unknown => "",
        Kind::Window => "window N",
        Kind::Question => "question SLOT K A B [C] [newest|first]",
        Kind::Remove => "remove SLOT",
        Kind::Show => "show SLOT",
        Kind::Report => "report SENDER LOSS SHAKE NUMBER, and perhaps a note",
        Kind::Noted => "noted SENDER LOSS SHAKE NUMBER, and perhaps a note",
        Kind::Heated => "heated SENDER LOSS SHAKE HEAT NUMBER, and perhaps a note",
        Kind::HeatedNoted => "heated-noted SENDER LOSS SHAKE HEAT NUMBER, and perhaps a note",
        Kind::Time => "time MS",
        Kind::Untimed => "untimed",
    }
}
