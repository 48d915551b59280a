// The desk's lines (docs/DESK.md): what a line asks for, or which form it should have had.
#![tactic(auto)]

mod extras;

pub use extras::RuleExtras;
use extras::SendExtras;
use forms::Form;
use ranges::{Bytes, Words, Wrong};
use values::{Edition, Name, Values};

// The last slot, row of a window, line of a list, sender, and byte of a session's payload.
const LAST_SLOT: u8 = 31;

const LAST_ROW: u16 = 1023;

const LAST_LINE: u8 = 15;

const LAST_SENDER: u8 = 253;

const LAST_BYTE: u8 = 88;

// What a line asks for. A line that is passed over asks for nothing.
#[derive(Clone, Copy)]
pub enum Order<'a> {
    Nothing,
    NoText,
    Wrong(Form),
    Help,
    Window(u16),
    Board(BoardOrder),
    Bus(BusOrder<'a>),
}

// What needs a window.
#[derive(Clone, Copy)]
pub enum BoardOrder {
    Set(Setting),
    Remove(u8),
    Read(u8),
    Enter(Values),
    Begin(u8),
    Step(u8),
    Marks(u8),
    Steps(u8),
    Held,
    Poke(BoardPoke),
}

// A question for a slot.
#[derive(Clone, Copy)]
pub struct Setting {
    pub slot: u8,
    pub k: u8,
    pub loss: i16,
    pub shake: i16,
    pub extras: RuleExtras,
}

// What a poke stores in the window or in a slot.
#[derive(Clone, Copy)]
pub enum BoardPoke {
    Window { size: u16, entered: u32, held: u16 },
    Row(RowPoke),
    Slot(SlotPoke),
    Line(LinePoke),
}

#[derive(Clone, Copy)]
pub struct RowPoke {
    pub row: u16,
    pub number: u32,
    pub loss: u16,
    pub shake: u16,
    pub heat: Option<u16>,
}

#[derive(Clone, Copy)]
pub struct SlotPoke {
    pub slot: u8,
    pub k: u8,
    pub loss: i16,
    pub shake: i16,
    pub len: u8,
    pub next: u16,
    pub extras: RuleExtras,
}

#[derive(Clone, Copy)]
pub struct LinePoke {
    pub slot: u8,
    pub place: u8,
    pub number: u32,
    pub score: i32,
    pub heat: Option<u16>,
}

// What needs none.
#[derive(Clone, Copy)]
pub enum BusOrder<'a> {
    Frame(Heard<'a>),
    Session(u8),
    Payload(Bytes<'a>),
    Write(Sending<'a>),
    Poke(BusPoke),
}

#[derive(Clone, Copy)]
pub struct Heard<'a> {
    pub id: u32,
    pub data: Bytes<'a>,
    // Its time, in milliseconds.
    pub time: Option<u32>,
}

// A report for the bench sender.
#[derive(Clone, Copy)]
pub struct Sending<'a> {
    pub sender: u8,
    pub values: Values,
    pub own: u32,
    pub note: Option<Bytes<'a>>,
    // The room lent to the writer, in bytes.
    pub room: Option<u32>,
}

// What a poke stores of a sender.
#[derive(Clone, Copy)]
pub enum BusPoke {
    Session(SessionPoke),
    Byte { sender: u8, place: u8, value: u8 },
    Untimed { sender: u8, time: u32 },
}

#[derive(Clone, Copy)]
pub struct SessionPoke {
    pub sender: u8,
    pub size: u8,
    pub count: u8,
    pub next: u8,
    // The sender's last time, in milliseconds.
    pub time: Option<u32>,
}

impl<'a> Order<'a> {
    // What a line asks for; it is at most 512 bytes long.
    pub fn of(line: &'a [u8]) -> Order<'a> {
        if passed_over(line) {
            return Order::Nothing;
        }
        if !line.iter().all(is_text) {
            return Order::NoText;
        }
        let mut words = Words::of(line);
        let form = Form::of(&mut words);
        whole(form, words).unwrap_or(Order::Wrong(form))
    }
}

// What a line of this form asks for, with all the words behind its name.
fn whole(form: Form, mut words: Words) -> Result<Order, Wrong> {
    let order = asked(form, &mut words)?;
    words.ended()?;
    Ok(order)
}

fn asked<'a>(form: Form, words: &mut Words<'a>) -> Result<Order<'a>, Wrong> {
    let order = match form {
        Form::Unknown | Form::UnknownPoke => return Err(Wrong),
        Form::Help => Order::Help,
        Form::Window => Order::Window(words.number(u16::MAX)?),
        Form::Set => Order::Board(BoardOrder::Set(Setting::read(words)?)),
        Form::Remove => Order::Board(BoardOrder::Remove(words.number(u8::MAX)?)),
        Form::Read => Order::Board(BoardOrder::Read(words.number(u8::MAX)?)),
        Form::Enter => Order::Board(BoardOrder::Enter(entry(words)?)),
        Form::Begin => Order::Board(BoardOrder::Begin(words.number(LAST_SLOT)?)),
        Form::Step => Order::Board(BoardOrder::Step(words.number(LAST_SLOT)?)),
        Form::Marks => Order::Board(BoardOrder::Marks(words.number(LAST_SLOT)?)),
        Form::Steps => Order::Board(BoardOrder::Steps(words.number(LAST_SLOT)?)),
        Form::Held => Order::Board(BoardOrder::Held),
        Form::PokeWindow => Order::Board(BoardOrder::Poke(window_poke(words)?)),
        Form::PokeRow => Order::Board(BoardOrder::Poke(row_poke(words)?)),
        Form::PokeSlot => Order::Board(BoardOrder::Poke(slot_poke(words)?)),
        Form::PokeLine => Order::Board(BoardOrder::Poke(line_poke(words)?)),
        Form::Frame => Order::Bus(BusOrder::Frame(Heard::read(words)?)),
        Form::Session => Order::Bus(BusOrder::Session(words.number(LAST_SENDER)?)),
        Form::Payload => Order::Bus(BusOrder::Payload(words.bytes())),
        Form::Write => Order::Bus(BusOrder::Write(Sending::read(words)?)),
        Form::PokeSession => Order::Bus(BusOrder::Poke(session_poke(words)?)),
        Form::PokeByte => Order::Bus(BusOrder::Poke(byte_poke(words)?)),
        Form::PokeUntimed => Order::Bus(BusOrder::Poke(untimed_poke(words)?)),
    };
    Ok(order)
}

impl Setting {
    fn read(words: &mut Words) -> Result<Setting, Wrong> {
        Ok(Setting {
            slot: words.number(u8::MAX)?,
            k: words.number(u8::MAX)?,
            loss: words.signed()?,
            shake: words.signed()?,
            extras: RuleExtras::read(words)?,
        })
    }
}

fn entry(words: &mut Words) -> Result<Values, Wrong> {
    let loss = words.number(u16::MAX)?;
    let shake = words.number(u16::MAX)?;
    let heat = words.number_behind(b"heat", u16::MAX)?;
    Ok(values(loss, shake, heat))
}

impl<'a> Heard<'a> {
    fn read(words: &mut Words<'a>) -> Result<Heard<'a>, Wrong> {
        Ok(Heard {
            id: words.identifier()?,
            data: words.bytes(),
            time: words.number_behind(b"at", u32::MAX)?,
        })
    }
}

impl<'a> Sending<'a> {
    fn read(words: &mut Words<'a>) -> Result<Sending<'a>, Wrong> {
        let sender = words.number(u8::MAX)?;
        let loss = words.number(u16::MAX)?;
        let shake = words.number(u16::MAX)?;
        let own = words.number(u32::MAX)?;
        let extras = SendExtras::read(words)?;
        Ok(Sending {
            sender,
            values: values(loss, shake, extras.heat),
            own,
            note: extras.note,
            room: extras.room,
        })
    }
}

fn window_poke(words: &mut Words) -> Result<BoardPoke, Wrong> {
    Ok(BoardPoke::Window {
        size: words.number(u16::MAX)?,
        entered: words.number(u32::MAX)?,
        held: words.number(u16::MAX)?,
    })
}

fn row_poke(words: &mut Words) -> Result<BoardPoke, Wrong> {
    Ok(BoardPoke::Row(RowPoke {
        row: words.number(LAST_ROW)?,
        number: words.number(Name::MOST)?,
        loss: words.number(u16::MAX)?,
        shake: words.number(u16::MAX)?,
        heat: words.number_behind(b"heat", Values::LARGEST)?,
    }))
}

fn slot_poke(words: &mut Words) -> Result<BoardPoke, Wrong> {
    Ok(BoardPoke::Slot(SlotPoke {
        slot: words.number(LAST_SLOT)?,
        k: words.number(u8::MAX)?,
        loss: words.signed()?,
        shake: words.signed()?,
        len: words.number(u8::MAX)?,
        next: words.number(u16::MAX)?,
        extras: RuleExtras::read(words)?,
    }))
}

fn line_poke(words: &mut Words) -> Result<BoardPoke, Wrong> {
    Ok(BoardPoke::Line(LinePoke {
        slot: words.number(LAST_SLOT)?,
        place: words.number(LAST_LINE)?,
        number: words.number(Name::MOST)?,
        score: words.signed()?,
        heat: words.number_behind(b"heat", Values::LARGEST)?,
    }))
}

fn session_poke(words: &mut Words) -> Result<BusPoke, Wrong> {
    Ok(BusPoke::Session(SessionPoke {
        sender: words.number(LAST_SENDER)?,
        size: words.number(u8::MAX)?,
        count: words.number(u8::MAX)?,
        next: words.number(u8::MAX)?,
        time: words.number_behind(b"at", u32::MAX)?,
    }))
}

fn byte_poke(words: &mut Words) -> Result<BusPoke, Wrong> {
    Ok(BusPoke::Byte {
        sender: words.number(LAST_SENDER)?,
        place: words.number(LAST_BYTE)?,
        value: words.number(u8::MAX)?,
    })
}

fn untimed_poke(words: &mut Words) -> Result<BusPoke, Wrong> {
    Ok(BusPoke::Untimed {
        sender: words.number(LAST_SENDER)?,
        time: words.number(u32::MAX)?,
    })
}

// The values of a report that has no heat where none is said.
fn values(loss: u16, shake: u16, heat: Option<u16>) -> Values {
    Values {
        loss,
        shake,
        edition: heat.map_or(Edition::First, Edition::Second),
    }
}

// An empty line, or one whose first word starts with #.
fn passed_over(line: &[u8]) -> bool {
    match line.iter().find(|b| !matches!(b, b' ' | b'\t' | b'\r')) {
        None => true,
        Some(first) => *first == b'#',
    }
}

// 32 to 126, a tab or a carriage return.
fn is_text(b: &u8) -> bool {
    matches!(b, b' '..=b'~' | b'\t' | b'\r')
}
