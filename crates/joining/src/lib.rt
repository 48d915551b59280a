// Frames of the bus joined into reports: a session for each sender, by the broadcast rules of SAE J1939-21.
#![tactic(auto)]

ghost use Rattle.std.specs.Prelude.{◌≡◌, true, [], Err, ◌-◌, ◌*◌, take, drop};
ghost use Rattle.std.proofs.lemmas.List.Edits.{sets};
ghost use Rattle.report.specs.Payload.{read_payload};
ghost use Rattle.joining.specs.Frame.{foreign, frame_checked, sender_in};
ghost use Rattle.joining.specs.Joining.{packets, carries, fresh_session, fit, yields, sound, announcement_checked, announce, packet, take_frame, size_held, payload_held};
ghost use Rattle.joining.specs.Inner.{session_with, beside};

mod lent;

use refusal::Refusal;
use report::{Note, Payload, Report};

// What a frame is answered: its refusal; no report yet, as it was kept: it opened a session or was its next packet; or the report
// that its last packet completed.
pub type Answer = Result<Option<Report>, Refusal>;

// What one sender has sent of a report: the payload's bytes so far, its size and packet count, and the packet that is due.
// All three numbers are 0 where no report is under way.
#[derive(Clone, Copy)]
pub struct Session {
    pub bytes: [u8; Payload::LARGEST],
    pub size: u8,
    pub count: u8,
    pub next: u8,
}

// A frame's answer and the session that it leaves.
#[derive(Clone, Copy)]
pub struct Taken {
    pub answer: Answer,
    pub session: Session,
}

// A frame's answer and the numbers of the session that it leaves, whose bytes are changed where they stand.
#[derive(Clone, Copy)]
struct Step {
    answer: Answer,
    size: u8,
    count: u8,
    next: u8,
}

// An identifier and the data bytes, as they come from the bus.
#[derive(Clone, Copy)]
pub struct Frame {}

impl Frame {
    pub const IDENTIFIERS: u32 = 536870912;

    pub const DATA: usize = 8;

    pub const ANNOUNCEMENT: u32 = 236;

    pub const PACKET: u32 = 235;

    pub const EVERYONE: u32 = 255;

    pub const LARGEST_SENDER: u32 = 253;

    // Whose session the frame is for, 0 to 253. Refusals 1 to 3 are for none.
    #[tactic(auto, unfolding(crate::specs::Frame::sender_in))]
    pub fn sender(id: u32, data: &[u8]) -> Result<u8, Refusal>
        ensures { result ≡ sender_in id «data».now }
    {
        frame_refusal(id, data)?;
        Ok((id % 256) as u8)
    }
}

// What a frame is refused for before any session is looked at.
#[tactic(auto, unfolding(crate::specs::Frame::frame_checked, crate::specs::Frame::malformed))]
pub fn frame_refusal(id: u32, data: &[u8]) -> Result<(), Refusal>
    ensures { result ≡ frame_checked id «data».now }
{
    if Frame::IDENTIFIERS <= id || data.len() != Frame::DATA {
        return Err(Refusal::MalformedFrame);
    }
    if foreign(id) {
        return Err(Refusal::ForeignFrame);
    }
    if Frame::LARGEST_SENDER < id % 256 {
        return Err(Refusal::NoSuchSender);
    }
    Ok(())
}

// Whether the identifier is of another kind than a broadcast announcement or data packet.
#[tactic(auto, unfolding(crate::specs::Frame::foreign))]
fn foreign(id: u32) -> bool
    ensures { result ≡ foreign id }
{
    let format = id / 65536 % 256;
    id / 16777216 % 4 != 0
        || !(format == Frame::ANNOUNCEMENT || format == Frame::PACKET)
        || id / 256 % 256 != Frame::EVERYONE
}

impl Session {
    // The first byte of an announcement, the sizes that one can name, and the group of our reports.
    pub const BROADCAST: u8 = 32;

    pub const SMALLEST: u16 = 9;

    pub const LARGEST: u16 = 1785;

    pub const GROUP: u32 = 65300;
    // The payload bytes of a packet.
    pub const PART: usize = 7;

    // A session with no report under way and every byte 255.
    pub fn fresh() -> Session
        ensures { result ≡ fresh_session }
    {
        let bytes = [255u8; Payload::LARGEST];
        Session {
            bytes,
            size: 0,
            count: 0,
            next: 0,
        }
    }

    // Whether the three numbers are those of a session that is closed, or open with its next packet within its count.
    pub fn fit(self) -> bool
        ensures { result ≡ fit self }
    {
        numbers_fit(self.size, self.count, self.next)
    }

    // Takes a frame of this session's sender. The order of refusals is that of rule 9.4: 1, 2, 3, 24, then those of its format.
    pub fn frame(self, id: u32, data: &[u8]) -> Taken
        ensures { result ≡ take_frame self id «data».now }
    {
        let mut left = self;
        let step = stepped(&mut left.bytes, self.size, self.count, self.next, id, data);
        left.size = step.size;
        left.count = step.count;
        left.next = step.next;
        let answer = step.answer;
        Taken {
            answer,
            session: left,
        }
    }

    // The payload of a finished report as a part of its session's bytes; `report::Payload` has its note.
    pub fn payload(bytes: &[u8]) -> &[u8]
        ensures { result.now ≡ payload_held bytes.now }
    {
        wire::front(bytes, size_held(bytes))
    }
}

// Whether a session's size, count and next packet are fit.
pub fn numbers_fit(size: u8, count: u8, next: u8) -> bool
    ensures { result ≡ fit (record { bytes = []; size = size; count = count; next = next }) }
{
    if size == 0 {
        return count == 0 && next == 0;
    }
    if !carries(size as u16) {
        return false;
    }
    if count as u16 != packets(size as u16) {
        return false;
    }
    0 < next && next <= count
}

// How many packets carry a payload of this size.
pub fn packets(size: u16) -> u16
    ensures { result ≡ packets size }
{
    (((size as u32) + 6) / 7) as u16
}

// Whether a payload of ours can have this size.
#[tactic(auto, unfolding(crate::specs::Joining::carries))]
fn carries(size: u16) -> bool
    ensures { result ≡ carries size }
{
    let n = size as usize;
    n == Payload::PLAIN || Payload::NOTED <= n && n <= Payload::LARGEST
}

// Whether an announcement's size is one that a broadcast can have, with the count that belongs to it.
#[tactic(auto, unfolding(crate::specs::Joining::sound))]
fn sound(data: &[u8]) -> bool
    ensures { result ≡ sound «data».now }
{
    let size = wire::read16(data, 1);
    Session::SMALLEST <= size
        && size <= Session::LARGEST
        && wire::byte(data, 3) as u16 == packets(size)
}

// Why an announcement opens no session.
#[tactic(auto, unfolding(crate::specs::Joining::announcement_checked))]
pub fn announcement_refusal(data: &[u8]) -> Result<(), Refusal>
    ensures { result ≡ announcement_checked «data».now }
{
    if wire::byte(data, 0) != Session::BROADCAST {
        return Err(Refusal::NotAnAnnouncement);
    }
    if !sound(data) {
        return Err(Refusal::BadSize);
    }
    if wire::read24(data, 5) != Session::GROUP {
        return Err(Refusal::OtherGroup);
    }
    if !carries(wire::read16(data, 1)) {
        return Err(Refusal::OtherSize);
    }
    Ok(())
}

// A frame of the session's sender, on the session's bytes where they stand.
fn stepped(
    bytes: &mut [u8; Payload::LARGEST],
    size: u8,
    count: u8,
    next: u8,
    id: u32,
    data: &[u8],
) -> Step
    ensures value { result ≡ beside (take_frame (session_with bytes.old size count next) id «data».now) }
    ensures bytes_after { bytes.new ≡ (take_frame (session_with bytes.old size count next) id «data».now).session.bytes }
{
    if let Err(refusal) = frame_refusal(id, data) {
        return refused(refusal, size, count, next);
    }
    if !numbers_fit(size, count, next) {
        return refused(Refusal::Unfit, size, count, next);
    }
    if id / 65536 % 256 == Frame::ANNOUNCEMENT {
        announced(bytes, size, count, next, data)
    } else {
        packet(bytes, size, count, next, data)
    }
}

// A refusal, and the numbers that it leaves.
fn refused(refusal: Refusal, size: u8, count: u8, next: u8) -> Step
    ensures { result ≡ record { answer = Err refusal; size = size; count = count; next = next } }
{
    Step {
        answer: Err(refusal),
        size,
        count,
        next,
    }
}

// An announcement of the session's sender. One that isn't refused replaces what was under way.
fn announced(bytes: &mut [u8; Payload::LARGEST], size: u8, count: u8, next: u8, data: &[u8]) -> Step
    ensures value { result ≡ beside (announce (session_with bytes.old size count next) «data».now) }
    ensures bytes_after { bytes.new ≡ (announce (session_with bytes.old size count next) «data».now).session.bytes }
{
    match announcement_refusal(data) {
        Ok(()) => {
            let whole = wire::read16(data, 1);
            *bytes = [255u8; Payload::LARGEST];
            Step {
                answer: Ok(None),
                size: whole as u8,
                count: packets(whole) as u8,
                next: 1,
            }
        }
        Err(refusal) if refusal == Refusal::NotAnAnnouncement => refused(
            refusal, size, count, next,
        ),
        Err(refusal) => refused(refusal, 0, 0, 0),
    }
}

// A data packet of the session's sender. The last one's payload is read where it stands in the session's bytes.
fn packet(bytes: &mut [u8; Payload::LARGEST], size: u8, count: u8, next: u8, data: &[u8]) -> Step
    requires { fit (session_with bytes.old size count next) ≡ true }
    ensures value { result ≡ beside (packet (session_with bytes.old size count next) «data».now) }
    ensures bytes_after { bytes.new ≡ (packet (session_with bytes.old size count next) «data».now).session.bytes }
{
    if size == 0 {
        return refused(Refusal::NotOpen, size, count, next);
    }
    if wire::byte(data, 0) != next {
        return refused(Refusal::OutOfSequence, 0, 0, 0);
    }
    store(bytes, size, next - 1, data);
    if next < count {
        return Step {
            answer: Ok(None),
            size,
            count,
            next: next + 1,
        };
    }
    Step {
        answer: answered(wire::front(bytes, size as usize)),
        size: 0,
        count: 0,
        next: 0,
    }
}

// Stores a packet's bytes behind those of the `sent` packets before it, those past the size left out.
pub fn store(bytes: &mut [u8], size: u8, sent: u8, data: &[u8])
    ensures { bytes.new ≡ sets bytes.old (7 * sent) (take (size - 7 * sent) (drop 1 «data».now)) }
{
    let at = Session::PART * (sent as usize);
    let end = size as usize;
    if data.len() == 0 {
        return;
    }
    if end <= at {
        return;
    }
    wire::put_all(bytes, at, wire::front(&data[1..], end - at));
}

// What a whole payload is answered: its report, or the reader's refusal. The values go over as one, so that a caller reads in one what was
// stored in one (docs/SPEED.md).
pub fn answered(payload: &[u8]) -> Answer
    ensures { result ≡ yields (read_payload payload.now) }
{
    let report = Payload::read(payload)?;
    let values = report.values;
    Ok(Some(Report {
        values,
        own: report.own,
    }))
}

// The size of the payload that a finished session's bytes hold.
fn size_held(bytes: &[u8]) -> usize
    ensures { result ≡ size_held bytes.now }
{
    let plain = Payload::plain_in(bytes);
    if wire::byte(bytes, plain) == Note::TAG {
        plain + 3 + (wire::read16(bytes, plain + 1) as usize)
    } else {
        plain
    }
}
