// The forms of the desk's lines: which one a line has, and what it is in words, as docs/DESK.md has them.
#![tactic(auto)]

use ranges::Words;
use replies::put;

// Which form a line has by its first word, or by the one behind `poke`.
#[derive(Clone, Copy)]
pub enum Form {
    Window,
    Set,
    Remove,
    Read,
    Enter,
    Begin,
    Step,
    Marks,
    Steps,
    Held,
    Frame,
    Session,
    Payload,
    Write,
    PokeWindow,
    PokeRow,
    PokeSlot,
    PokeLine,
    PokeSession,
    PokeByte,
    PokeUntimed,
    Help,
    Unknown,
    UnknownPoke,
}

impl Form {
    // Those that `help` lists, as the page does.
    const LISTED: [Form; 22] = [
        Form::Window,
        Form::Set,
        Form::Remove,
        Form::Read,
        Form::Enter,
        Form::Begin,
        Form::Step,
        Form::Marks,
        Form::Steps,
        Form::Held,
        Form::Frame,
        Form::Session,
        Form::Payload,
        Form::Write,
        Form::PokeWindow,
        Form::PokeRow,
        Form::PokeSlot,
        Form::PokeLine,
        Form::PokeSession,
        Form::PokeByte,
        Form::PokeUntimed,
        Form::Help,
    ];

    // The form that the next words name.
    pub fn of(words: &mut Words) -> Form {
        match words.next() {
            Some(b"window") => Form::Window,
            Some(b"set") => Form::Set,
            Some(b"remove") => Form::Remove,
            Some(b"read") => Form::Read,
            Some(b"enter") => Form::Enter,
            Some(b"begin") => Form::Begin,
            Some(b"step") => Form::Step,
            Some(b"marks") => Form::Marks,
            Some(b"steps") => Form::Steps,
            Some(b"held") => Form::Held,
            Some(b"frame") => Form::Frame,
            Some(b"session") => Form::Session,
            Some(b"payload") => Form::Payload,
            Some(b"write") => Form::Write,
            Some(b"poke") => Form::of_poke(words),
            Some(b"help") => Form::Help,
            _ => Form::Unknown,
        }
    }

    fn of_poke(words: &mut Words) -> Form {
        match words.next() {
            Some(b"window") => Form::PokeWindow,
            Some(b"row") => Form::PokeRow,
            Some(b"slot") => Form::PokeSlot,
            Some(b"line") => Form::PokeLine,
            Some(b"session") => Form::PokeSession,
            Some(b"byte") => Form::PokeByte,
            Some(b"untimed") => Form::PokeUntimed,
            _ => Form::UnknownPoke,
        }
    }

    // What a line of this form is; of a line of none, what may stand in its first words.
    fn words(self) -> &'static [u8] {
        match self {
            Form::Window => b"window N; N is 0 to 65535",
            Form::Set =>
                b"set SLOT K A B [heat C] [loss LOW HIGH] [shake LOW HIGH] [rule R]; SLOT, K and R are 0 to 255, A, B and C -32768 to 32767, LOW and HIGH 0 to 65535",
            Form::Remove => b"remove SLOT; SLOT is 0 to 255",
            Form::Read => b"read SLOT; SLOT is 0 to 255",
            Form::Enter => b"enter LOSS SHAKE [heat H]; each is 0 to 65535",
            Form::Begin => b"begin SLOT; SLOT is 0 to 31",
            Form::Step => b"step SLOT; SLOT is 0 to 31",
            Form::Marks => b"marks SLOT; SLOT is 0 to 31",
            Form::Steps => b"steps SLOT; SLOT is 0 to 31",
            Form::Held => b"held",
            Form::Frame =>
                b"frame ID DATA [at MS]; ID is 1 to 8 hexadecimal digits, DATA an even number of them, MS 0 to 4294967295",
            Form::Session => b"session SENDER; SENDER is 0 to 253",
            Form::Payload => b"payload BYTES; BYTES is an even number of hexadecimal digits",
            Form::Write =>
                b"write SENDER LOSS SHAKE OWN [heat H] [note BYTES] [room N]; SENDER is 0 to 255, LOSS, SHAKE and H 0 to 65535, OWN and N 0 to 4294967295, BYTES an even number of hexadecimal digits",
            Form::PokeWindow =>
                b"poke window SIZE ENTERED HELD; SIZE and HELD are 0 to 65535, ENTERED 0 to 4294967295",
            Form::PokeRow =>
                b"poke row ROW NUMBER LOSS SHAKE [heat H]; ROW is 0 to 1023, NUMBER 0 to 1048319, LOSS and SHAKE 0 to 65535, H 0 to 4095",
            Form::PokeSlot =>
                b"poke slot SLOT K A B LEN NEXT [heat C] [loss LOW HIGH] [shake LOW HIGH] [rule R]; SLOT is 0 to 31, K, LEN and R 0 to 255, A, B and C -32768 to 32767, NEXT, LOW and HIGH 0 to 65535",
            Form::PokeLine =>
                b"poke line SLOT PLACE NUMBER SCORE [heat H]; SLOT is 0 to 31, PLACE 0 to 15, NUMBER 0 to 1048319, SCORE -2147483648 to 2147483647, H 0 to 4095",
            Form::PokeSession =>
                b"poke session SENDER SIZE COUNT NEXT [at MS]; SENDER is 0 to 253, MS 0 to 4294967295, the others 0 to 255",
            Form::PokeByte =>
                b"poke byte SENDER PLACE VALUE; SENDER is 0 to 253, PLACE 0 to 88, VALUE 0 to 255",
            Form::PokeUntimed => b"poke untimed SENDER MS; SENDER is 0 to 253, MS 0 to 4294967295",
            Form::Help => b"help",
            Form::Unknown =>
                b"window, set, remove, read, enter, begin, step, marks, steps, held, frame, session, payload, write, poke or help",
            Form::UnknownPoke => b"poke window, row, slot, line, session, byte or untimed",
        }
    }
}

// What a line of no known form is answered.
pub fn expected(buf: &mut [u8], form: Form) -> usize {
    let end = put(buf, 0, b"wrong: expected ");
    put(buf, end, form.words())
}

// Every form on a line of its own; the last one has no line end.
pub fn help(buf: &mut [u8]) -> usize {
    let mut end = 0;
    for (n, form) in Form::LISTED.iter().enumerate() {
        if 0 < n {
            end = put(buf, end, b"\n");
        }
        end = put(buf, end, form.words());
    }
    end
}
