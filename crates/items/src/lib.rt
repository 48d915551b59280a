// The log's items: each a tagged field, whose value says what the cart is to do. Here stand their tags and lengths, their
// reading and their writing, for the log, the bench sender and captured frames alike.
#![tactic(auto)]

ghost use Rattle.std.specs.Prelude.{◌≡◌, ◌++◌, ◌≤◌, length};
ghost use Rattle.std.proofs.lemmas.List.Edits.{sets};
ghost use Rattle.wire.specs.Bytes.{bytes, part, field};
ghost use Rattle.items.specs.Items.{signed16, setting_in, ties_bytes, data_of, item_in, item_bytes};

use wire::Field;

// A question that is to be set: its slot, its k, its weights and its tie rule, 0 newest or 1 first-come; any byte is kept.
#[derive(Clone, Copy)]
pub struct Setting {
    pub slot: u8,
    pub k: u8,
    pub loss: i16,
    pub shake: i16,
    pub heat: i16,
    pub ties: u8,
}

// An item by what it says: the size of the window, a question whose weight for heat and tie rule are 0, a frame's identifier,
// a slot to empty, a slot to show, the time and the identifier of a frame that has a time, a question with any weight for heat
// whose tie rule is 0, a question with any weight for heat and any tie rule. A frame's data bytes stay where they are, behind
// the identifier. An unknown tag, or a length that isn't its tag's, is unknown.
#[derive(Clone, Copy)]
pub enum Item {
    Window(u16),
    Set(Setting),
    Frame(u32),
    Remove(u8),
    Show(u8),
    Timed(u32, u32),
    SetHeat(Setting),
    SetTies(Setting),
    Unknown,
}

impl Item {
    // Stays: the tags and lengths are the bytes of the log's format; `Item` is their enum, which `Item::read` and `Item::put` turn them into and out of.
    // The tags.
    pub const WINDOW: u8 = 16;

    pub const SET: u8 = 17;

    pub const FRAME: u8 = 18;

    pub const REMOVE: u8 = 19;

    pub const SHOW: u8 = 20;

    pub const TIMED: u8 = 21;

    pub const SET_HEAT: u8 = 22;

    pub const SET_TIES: u8 = 23;

    // The lengths of their values.
    pub const WINDOW_SIZE: usize = 2;

    pub const SET_SIZE: usize = 6;

    pub const FRAME_SIZE: usize = 12;

    pub const REMOVE_SIZE: usize = 1;

    pub const SHOW_SIZE: usize = 1;

    pub const TIMED_SIZE: usize = 16;

    pub const SET_HEAT_SIZE: usize = 8;

    pub const SET_TIES_SIZE: usize = 9;

    // The longest value of a known item.
    pub const LONGEST: usize = 16;

    // Where the data bytes stand in a frame's value, behind its time if it has one.
    pub const DATA: usize = 4;

    // The bytes of a time, which stands before the frame.
    pub const TIME: usize = 4;

    // The bytes of a frame's item, without a time and with one: tag, length and value.
    pub const FRAME_BYTES: usize = 15;

    pub const TIMED_BYTES: usize = 19;

    // What an item of this tag and value says.
    #[tactic(auto, unfolding(crate::specs::Items::item_in))]
    pub fn read(tag: u8, value: &[u8]) -> Item
        ensures { result ≡ item_in tag value.now }
    {
        match (tag, value.len()) {
            (Item::WINDOW, Item::WINDOW_SIZE) => Item::Window(wire::read16(value, 0)),
            (Item::SET, Item::SET_SIZE) => Item::Set(Setting::read(value)),
            (Item::FRAME, Item::FRAME_SIZE) => Item::Frame(wire::read32(value, 0)),
            (Item::REMOVE, Item::REMOVE_SIZE) => Item::Remove(wire::byte(value, 0)),
            (Item::SHOW, Item::SHOW_SIZE) => Item::Show(wire::byte(value, 0)),
            (Item::TIMED, Item::TIMED_SIZE) => {
                Item::Timed(wire::read32(value, 0), wire::read32(value, Item::TIME))
            }
            (Item::SET_HEAT, Item::SET_HEAT_SIZE) => Item::SetHeat(Setting::read(value)),
            (Item::SET_TIES, Item::SET_TIES_SIZE) => Item::SetTies(Setting::read(value)),
            _ => Item::Unknown,
        }
    }

    // The data bytes in the value of this item: a frame's, and none of any other.
    pub fn data_in(self, value: &[u8]) -> &[u8]
        ensures { result.now ≡ data_of self value.now }
    {
        match self {
            Item::Frame(_) => eight_at(value, Item::DATA),
            Item::Timed(_, _) => eight_at(value, Item::TIME + Item::DATA),
            _ => &[],
        }
    }

    // Stores the item from `at` on, with `data` behind the identifier of a frame, and answers how many bytes it takes; what
    // lies past the end of `room` is not stored. An unknown item is written as one that no log knows: tag 0, no value.
    #[tactic(auto, using(wire::proofs::Numbers::to_two, wire::proofs::Numbers::to_four, crate::proofs::Writing::six_of, crate::proofs::Writing::eight_of))]
    pub fn put(self, data: &[u8], room: &mut [u8], at: usize) -> usize
        ensures value { result ≡ length (item_bytes self «data».now) }
        ensures room_after { room.new ≡ sets room.old at (item_bytes self «data».now) }
    {
        match self {
            Item::Window(n) => put_value(room, at, Item::WINDOW, &n.to_le_bytes()),
            Item::Set(s) => put_value(room, at, Item::SET, &s.bytes()[..Item::SET_SIZE]),
            Item::Frame(id) => put_frame(room, at, Item::FRAME, &[], id, data),
            Item::Remove(slot) => put_value(room, at, Item::REMOVE, &[slot]),
            Item::Show(slot) => put_value(room, at, Item::SHOW, &[slot]),
            Item::Timed(time, id) => {
                put_frame(room, at, Item::TIMED, &time.to_le_bytes(), id, data)
            }
            Item::SetHeat(s) => put_value(
                room,
                at,
                Item::SET_HEAT,
                &s.bytes()[..Item::SET_HEAT_SIZE],
            ),
            Item::SetTies(s) => put_value(room, at, Item::SET_TIES, &s.bytes()),
            Item::Unknown => put_value(room, at, 0, &[]),
        }
    }
}

impl Setting {
    // The question in an item's value.
    #[tactic(auto, using(crate::proofs::Signs::cast_kept))]
    pub fn read(value: &[u8]) -> Setting
        ensures { result ≡ setting_in value.now }
    {
        Setting {
            slot: wire::byte(value, 0),
            k: wire::byte(value, 1),
            loss: wire::read16(value, 2).cast_signed(),
            shake: wire::read16(value, 4).cast_signed(),
            heat: wire::read16(value, 6).cast_signed(),
            ties: wire::byte(value, 8),
        }
    }

    // The longest value that says the question; a tag without a tie rule or a weight for heat has fewer of these bytes.
    #[tactic(auto, using(crate::proofs::Signs::uncast_is), unfolding(crate::specs::Items::setting_bytes, crate::specs::Items::heat_bytes, crate::specs::Items::ties_bytes, wire::specs::Bytes::bytes))]
    fn bytes(self) -> [u8; Item::SET_TIES_SIZE]
        ensures { result ≡ ties_bytes self }
    {
        let [loss_low, loss_high] = self.loss.to_le_bytes();
        let [shake_low, shake_high] = self.shake.to_le_bytes();
        let [heat_low, heat_high] = self.heat.to_le_bytes();
        [
            self.slot, self.k, loss_low, loss_high, shake_low, shake_high, heat_low, heat_high,
            self.ties,
        ]
    }
}

// The eight bytes at a place, or those that there are.
fn eight_at(value: &[u8], at: usize) -> &[u8]
    ensures { result.now ≡ part at 8 value.now }
{
    let rest = &value[at.min(value.len())..];
    wire::front(rest, Item::FRAME_SIZE - Item::DATA)
}

// The signed number that two bytes stand for, by the number that they stand for without a sign.
#[tactic(auto, using(crate::proofs::Signs::cast_is))]
pub fn signed16(n: u16) -> i16
    ensures { result ≡ signed16 n }
{
    n.cast_signed()
}

// Stores an item, and answers how many bytes it takes.
#[tactic(auto, using(crate::proofs::Writing::field_long))]
fn put_value(room: &mut [u8], at: usize, tag: u8, value: &[u8]) -> usize
    ensures value { result ≡ length (field tag value.now) }
    ensures room_after { room.new ≡ sets room.old at (field tag value.now) }
{
    wire::put_field(room, at, tag, value);
    Field::HEAD + value.len()
}

// Stores an item that is a frame, with `first` before its identifier, the bytes of its time or none, and answers how many bytes it takes.
#[tactic(auto, using(crate::proofs::Writing::row_long, crate::proofs::Writing::frame_stored, wire::proofs::Stores::sets_past))]
fn put_frame(room: &mut [u8], at: usize, tag: u8, first: &[u8], id: u32, data: &[u8]) -> usize
    requires { length first.now ≤ 4 }
    ensures value { result ≡ length (field tag (first.now ++ (bytes 4 id ++ «data».now))) }
    ensures room_after { room.new ≡ sets room.old at (field tag (first.now ++ (bytes 4 id ++ «data».now))) }
{
    let size = first.len() + Item::DATA + data.len();
    if at < room.len() {
        let start = at + Field::HEAD;
        wire::put(room, at, tag);
        wire::put16(room, at + 1, (size % 65536) as u16);
        wire::put_all(room, start, first);
        wire::put32(room, start + first.len(), id);
        wire::put_all(room, start + first.len() + Item::DATA, data);
    }
    Field::HEAD + size
}
