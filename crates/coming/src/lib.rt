// What comes next in a log's bytes: whether it is a whole item that can be done where the log stands, and whether there is room for what it prints.
#![tactic(auto)]

ghost use Rattle.std.specs.Prelude.{◌≡◌, ◌&&◌, ◌≤◌, length};
ghost use Rattle.coming.specs.Coming.{item_comes, frame_comes, slot_comes, comes, has_room, is_frame};
ghost use Rattle.coming.specs.Inner.{slot_size};

use board::Board;
use items::Item;
use window::Window;
use wire::Field;

// Where the lines of items are stored.
#[derive(Clone, Copy)]
pub struct Room {}

impl Room {
    // The most that one item prints: a line for the search of each slot.
    pub const MOST: usize = 1056;
}

// Whether an item that is done in place comes at a place, and a room of that length has space for what it prints.
pub fn goes_on(rows: u16, bytes: &[u8], i: usize, room: usize, at: usize) -> bool
    ensures { result ≡ (comes rows bytes.now i && has_room room at) }
{
    has_room(room, at) && comes(rows, bytes, i)
}

// Whether a room has space for what one item prints, from `at` on.
#[tactic(auto, unfolding(crate::specs::Coming::has_room))]
pub fn has_room(room: usize, at: usize) -> bool
    ensures { result ≡ has_room room at }
{
    Room::MOST <= room && at <= room - Room::MOST
}

// Whether a tag is a frame's.
#[tactic(auto, unfolding(crate::specs::Coming::is_frame))]
pub fn is_frame(tag: u8) -> bool
    ensures { result ≡ is_frame tag }
{
    tag == Item::FRAME || tag == Item::TIMED
}

// Whether there is a window, of that many rows, and a frame or an item for a slot comes at a place: such an item is done in place.
#[tactic(auto, using(crate::proofs::Coming::none_past), unfolding(crate::specs::Coming::comes))]
pub fn comes(rows: u16, bytes: &[u8], i: usize) -> bool
    ensures { result ≡ comes rows bytes.now i }
{
    if bytes.len() < i || rows < Window::SMALLEST || Window::LARGEST < rows {
        return false;
    }
    frame_comes(bytes, i) || slot_comes(bytes, i)
}

// Whether a frame comes at a place, without a time or with one.
#[tactic(auto, unfolding(crate::specs::Coming::frame_comes))]
fn frame_comes(bytes: &[u8], i: usize) -> bool
    requires { i ≤ length bytes.now }
    ensures { result ≡ frame_comes bytes.now i }
{
    item_comes(bytes, i, Item::FRAME, Item::FRAME_SIZE)
        || item_comes(bytes, i, Item::TIMED, Item::TIMED_SIZE)
}

// Whether a whole item of that tag and length stands at a place.
#[tactic(auto, unfolding(crate::specs::Coming::item_comes))]
fn item_comes(bytes: &[u8], i: usize, tag: u8, size: usize) -> bool
    requires { (i ≤ length bytes.now) × (size ≤ 16) }
    ensures { result ≡ item_comes bytes.now i tag size }
{
    Field::HEAD + size <= bytes.len() - i
        && wire::byte(bytes, i) == tag
        && wire::read16(bytes, i + 1) as usize == size
}

// Whether an item for a slot that there is comes at a place.
fn slot_comes(bytes: &[u8], i: usize) -> bool
    requires { i ≤ length bytes.now }
    ensures { result ≡ slot_comes bytes.now i }
{
    let tag = wire::byte(bytes, i);
    let size = slot_size(tag);
    if size == 0 {
        return false;
    }
    wire::byte(bytes, i + Field::HEAD) < Board::SLOTS && item_comes(bytes, i, tag, size)
}

// The length of an item of that tag, if it is for a slot; 0, where it isn't.
#[tactic(auto, unfolding(crate::specs::Inner::slot_size))]
fn slot_size(tag: u8) -> usize
    ensures { result ≡ slot_size tag }
{
    match tag {
        Item::SHOW => Item::SHOW_SIZE,
        Item::REMOVE => Item::REMOVE_SIZE,
        Item::SET => Item::SET_SIZE,
        Item::SET_HEAT => Item::SET_HEAT_SIZE,
        Item::SET_TIES => Item::SET_TIES_SIZE,
        _ => 0,
    }
}
