// The sessions of all senders in bytes that a caller lends: a frame changes its sender's 92 bytes where they stand.
#![tactic(auto)]

ghost use Rattle.std.specs.Prelude.{◌≡◌, true, [], ◌∷◌, ◌++◌, ◌+◌, ◌≤◌, length, take, drop, set, replicate};
ghost use Rattle.std.proofs.lemmas.List.Edits.{sets};
ghost use Rattle.report.specs.Payload.{largest_payload};
ghost use Rattle.joining.specs.Frame.{frame_refusal};
ghost use Rattle.joining.specs.Joining.{fit, closed, opened, finishes, announce, packet, take_frame};
ghost use Rattle.joining.specs.Run.{fresh_sessions, session_of, sessions_after, answer_to};
ghost use Rattle.bus.specs.Room.{place_bytes, room_bytes, session_in, session_bytes, sessions_in, room_of};

use joining::{Answer, Frame, Session};
use refusal::Refusal;
use report::Payload;

// A session for each sender from 0 to 253, in their order.
#[derive(Clone, Copy)]
pub struct Bus {
    pub sessions: [Session; Bus::SENDERS],
}

impl Bus {
    pub const SENDERS: usize = 254;

    // The bytes of all sessions, and of one: its payload's, then its size, count and next packet.
    pub const ROOM: usize = 23368;

    pub const PLACE: usize = 92;
    // Where these three stand in a place.
    pub const SIZE: usize = 89;

    pub const COUNT: usize = 90;

    pub const NEXT: usize = 91;

    // A fresh session for each sender.
    pub fn fresh() -> Bus
        ensures { result.sessions ≡ fresh_sessions }
    {
        let session = Session::fresh();
        let sessions = [session; Bus::SENDERS];
        Bus { sessions }
    }

    // Takes a frame, as its sender's session does, and advances that session where it stands. Other bytes are not touched.
    pub fn take(room: &mut [u8; Bus::ROOM], id: u32, data: &[u8]) -> Answer
        ensures value { result ≡ answer_to (sessions_in room.old) (record { identifier = id; data_bytes = «data».now }) }
        ensures room_after { room.new ≡ room_of (sessions_after (sessions_in room.old) (record { identifier = id; data_bytes = «data».now })) }
    {
        take_in(room, id, data)
    }

    // Stores the sessions' bytes, one session after the other, so that they stand there.
    pub fn fill(room: &mut [u8; Bus::ROOM], sessions: [Session; Bus::SENDERS])
        ensures room_after { room.new ≡ room_of sessions }
        ensures room_after_2 { (sessions_in room.new ≡ sessions) × (length room.new ≡ room_bytes) }
    {
        fill_in(room, sessions);
    }

    // The sessions that stand in the bytes.
    pub fn read(room: &[u8; Bus::ROOM]) -> [Session; Bus::SENDERS]
        ensures { result ≡ sessions_in room.now }
    {
        let mut sessions = [Session::fresh(); Bus::SENDERS];
        for (k, session) in sessions.iter_mut().enumerate() {
            *session = session_in(room, Bus::PLACE * k);
        }
        sessions
    }
}

impl Bus {
    // Whether a sender's session is fit, without a frame. Senders 254 and 255 have none that could be unfit.
    pub fn fit(room: &[u8; Bus::ROOM], sender: u8) -> bool
        ensures { result ≡ fit (session_of sender (sessions_in room.now)) }
    {
        let k = sender as usize;
        if Bus::SENDERS <= k {
            return true;
        }
        fit_in(room, Bus::PLACE * k)
    }

    // Closes a sender's session where it stands; its payload bytes stay. Other bytes are not touched.
    pub fn close(room: &mut [u8; Bus::ROOM], sender: u8)
        ensures { room.new ≡ room_of (set (sessions_in room.old) sender (closed (session_of sender (sessions_in room.old)))) }
    {
        close_in(room, sender);
    }
}

// Whether the session in the 92 bytes from `at` on is fit.
fn fit_in(room: &[u8], at: usize) -> bool
    requires { (length room.now ≡ room_bytes) × (at + place_bytes ≤ room_bytes) }
    ensures { result ≡ fit (session_in (drop at room.now)) }
{
    joining::numbers_fit(
        room[at + Bus::SIZE],
        room[at + Bus::COUNT],
        room[at + Bus::NEXT],
    )
}

// `Bus::close` on the array as a slice.
fn close_in(room: &mut [u8], sender: u8)
    requires { length room.old ≡ room_bytes }
    ensures { room.new ≡ room_of (set (sessions_in room.old) sender (closed (session_of sender (sessions_in room.old)))) }
{
    let k = sender as usize;
    if k < Bus::SENDERS {
        let at = Bus::PLACE * k;
        let end = at + Bus::PLACE;
        close_at(&mut room[at..end]);
    }
}

// `Bus::take` on the array as a slice.
fn take_in(room: &mut [u8], id: u32, data: &[u8]) -> Answer
    requires { length room.old ≡ room_bytes }
    ensures value { result ≡ answer_to (sessions_in room.old) (record { identifier = id; data_bytes = «data».now }) }
    ensures room_after { room.new ≡ room_of (sessions_after (sessions_in room.old) (record { identifier = id; data_bytes = «data».now })) }
{
    joining::frame_refusal(id, data)?;
    advance_in(room, Bus::PLACE * ((id % 256) as usize), id, data)
}

// `Bus::fill` on the array as a slice.
fn fill_in(room: &mut [u8], sessions: [Session; Bus::SENDERS])
    requires { length room.old ≡ room_bytes }
    ensures room_after { room.new ≡ room_of sessions }
    ensures room_after_2 { (sessions_in room.new ≡ sessions) × (length room.new ≡ room_bytes) }
{
    for (k, session) in sessions.iter().enumerate() {
        put_session(room, Bus::PLACE * k, *session);
    }
}

// Takes a frame of the sender whose session stands in the 92 bytes from `at` on.
fn advance_in(room: &mut [u8], at: usize, id: u32, data: &[u8]) -> Answer
    requires room_len { (length room.old ≡ room_bytes) × (at + place_bytes ≤ room_bytes) }
    requires data_value { frame_refusal id «data».now ≡ 0 }
    ensures value { result ≡ (take_frame (session_in (drop at room.old)) id «data».now).answer }
    ensures room_after { room.new ≡ (take at room.old ++ session_bytes (take_frame (session_in (drop at room.old)) id «data».now).session) ++ drop (at + place_bytes) room.old }
{
    let end = at + Bus::PLACE;
    advance_at(&mut room[at..end], id, data)
}

// Stores a session from `at` on.
fn put_session(room: &mut [u8], at: usize, s: Session)
    requires { (length room.old ≡ room_bytes) × (at + place_bytes ≤ room_bytes) }
    ensures { (room.new ≡ sets room.old at (session_bytes s)) × (length s.bytes ≡ largest_payload) }
{
    let bytes = s.bytes;
    wire::put_all(room, at, &bytes);
    room[at + Bus::SIZE] = s.size;
    room[at + Bus::COUNT] = s.count;
    room[at + Bus::NEXT] = s.next;
}

// The session that stands in the 92 bytes from `at` on.
fn session_in(room: &[u8], at: usize) -> Session
    requires { (length room.now ≡ room_bytes) × (at + place_bytes ≤ room_bytes) }
    ensures { result ≡ session_in (drop at room.now) }
{
    let mut bytes = [255u8; Payload::LARGEST];
    let end = at + Bus::SIZE;
    wire::put_all(&mut bytes, 0, &room[at..end]);
    Session {
        bytes,
        size: room[at + Bus::SIZE],
        count: room[at + Bus::COUNT],
        next: room[at + Bus::NEXT],
    }
}

// Takes a frame of the sender whose session stands in `place`.
fn advance_at(place: &mut [u8], id: u32, data: &[u8]) -> Answer
    requires place_len { length place.old ≡ place_bytes }
    requires data_value { frame_refusal id «data».now ≡ 0 }
    ensures value { result ≡ (take_frame (session_in place.old) id «data».now).answer }
    ensures place_after { place.new ≡ session_bytes (take_frame (session_in place.old) id «data».now).session }
{
    if !joining::numbers_fit(place[Bus::SIZE], place[Bus::COUNT], place[Bus::NEXT]) {
        return Err(Refusal::Unfit);
    }
    if id / 65536 % 256 == Frame::ANNOUNCEMENT {
        announced_at(place, data)
    } else {
        packet_at(place, data)
    }
}

// Stores a session's three numbers.
fn put_numbers(place: &mut [u8], size: u8, count: u8, next: u8)
    requires { length place.old ≡ place_bytes }
    ensures { place.new ≡ take largest_payload place.old ++ (size ∷ count ∷ next ∷ []) }
{
    place[Bus::SIZE] = size;
    place[Bus::COUNT] = count;
    place[Bus::NEXT] = next;
}

// Closes the session; its payload bytes stay.
fn close_at(place: &mut [u8])
    requires { length place.old ≡ place_bytes }
    ensures { place.new ≡ session_bytes (closed (session_in place.old)) }
{
    put_numbers(place, 0, 0, 0);
}

// An announcement of the session's sender.
fn announced_at(place: &mut [u8], data: &[u8]) -> Answer
    requires { length place.old ≡ place_bytes }
    ensures value { result ≡ (announce (session_in place.old) «data».now).answer }
    ensures place_after { place.new ≡ session_bytes (announce (session_in place.old) «data».now).session }
{
    if let Err(refusal) = joining::announcement_refusal(data) {
        if refusal != Refusal::NotAnAnnouncement {
            close_at(place);
        }
        return Err(refusal);
    }
    open_at(place, wire::read16(data, 1));
    Ok(None)
}

// Opens the session for a payload of this size, replacing what was under way.
fn open_at(place: &mut [u8], size: u16)
    requires place_len { length place.old ≡ place_bytes }
    requires size_le_largest_payload { size ≤ largest_payload }
    ensures { place.new ≡ session_bytes (opened size) }
{
    clear(place);
    put_numbers(place, size as u8, joining::packets(size) as u8, 1);
}

// Sets the payload bytes to 255.
fn clear(place: &mut [u8])
    requires { length place.old ≡ place_bytes }
    ensures { take largest_payload place.new ≡ replicate largest_payload 255 }
{
    place[..Bus::SIZE].fill(255);
}

// A data packet of the session's sender.
fn packet_at(place: &mut [u8], data: &[u8]) -> Answer
    requires place_len { length place.old ≡ place_bytes }
    requires place_value { fit (session_in place.old) ≡ true }
    ensures value { result ≡ (packet (session_in place.old) «data».now).answer }
    ensures place_after { place.new ≡ session_bytes (packet (session_in place.old) «data».now).session }
{
    let size = place[Bus::SIZE];
    let count = place[Bus::COUNT];
    let next = place[Bus::NEXT];
    if size == 0 {
        return Err(Refusal::NotOpen);
    }
    if wire::byte(data, 0) != next {
        close_at(place);
        return Err(Refusal::OutOfSequence);
    }
    joining::store(place, size, next - 1, data);
    if next < count {
        put_numbers(place, size, count, next + 1);
        return Ok(None);
    }
    finish_at(place, size)
}

// What the last packet answers; it closes the session.
fn finish_at(place: &mut [u8], size: u8) -> Answer
    requires place_len { length place.old ≡ place_bytes }
    requires size_le_largest_payload { size ≤ largest_payload }
    ensures value { result ≡ (finishes (take largest_payload place.old) size).answer }
    ensures place_after { place.new ≡ session_bytes (finishes (take largest_payload place.old) size).session }
{
    let end = size as usize;
    let answer = joining::answered(&place[..end]);
    close_at(place);
    answer
}
