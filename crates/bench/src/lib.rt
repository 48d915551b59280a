// The bench sender: a report written as the frames that carry it.
#![tactic(auto)]

ghost use Rattle.std.specs.Prelude.{◌≡◌, ◌++◌, ◌+◌, ◌-◌, ◌*◌, ◌≤◌, length};
ghost use Rattle.std.proofs.lemmas.List.Edits.{sets};
ghost use Rattle.wire.specs.Bytes.{bytes};
ghost use Rattle.report.specs.Payload.{largest_payload};
ghost use Rattle.std.specs.Option.{option_copied};
ghost use Rattle.joining.specs.Joining.{packets};
ghost use Rattle.bench.specs.Bench.{identifier, announcement, packet_data, packets_from, frames, frame_bytes, send_answer, sent};

use joining::{Frame, Session};
use refusal::Refusal;
use report::{Payload, Report};

// Writes the frames that a controller would send.
#[derive(Clone, Copy)]
pub struct Bench {}

impl Bench {
    // A frame's bytes: its identifier and its data.
    pub const FRAME: usize = 12;

    pub const IDENTIFIER: usize = 4;

    // Room for the frames of any report: an announcement and 13 packets.
    pub const LARGEST: usize = 168;

    pub const PRIORITY: u32 = 7;

    // What stands where nothing is to be read.
    pub const UNREAD: u8 = 255;

    // Writes a report, with its note if there is one, to the front of `room` as its announcement and its packets, 12 bytes
    // each, and answers how many bytes it filled. Bytes behind them stay as found; a refusal changes none. The order of
    // refusals is 3, 12, 19, 20.
    pub fn send(
        room: &mut [u8],
        sender: u8,
        report: Report,
        note: Option<&[u8]>,
    ) -> Result<usize, Refusal>
        ensures value { result ≡ send_answer (length room.old) sender report (option_copied note.entry) }
        ensures room_after { room.new ≡ sent room.old sender report (option_copied note.entry) }
    {
        if Frame::LARGEST_SENDER < (sender as u32) {
            return Err(Refusal::NoSuchSender);
        }
        let mut payload = [Bench::UNREAD; Payload::LARGEST];
        let size = Payload::write(&mut payload, report, note)?;
        let needed = Bench::FRAME * (1 + (joining::packets(size as u16) as usize));
        if room.len() < needed {
            return Err(Refusal::NoRoom);
        }
        fill(room, sender, &payload[..size]);
        Ok(needed)
    }
}

// Stores a payload's frames from the front on.
fn fill(room: &mut [u8], sender: u8, p: &[u8])
    requires { length p.now ≤ largest_payload }
    ensures { room.new ≡ sets room.old 0 (frame_bytes (frames sender p.now)) }
{
    let opening = announcement(p.len() as u16);
    put_frame(room, 0, identifier(Frame::ANNOUNCEMENT, sender), &opening);
    put_packets(room, sender, p, joining::packets(p.len() as u16) as u8);
}

// Stores the packets 1 to `count` behind the announcement.
fn put_packets(room: &mut [u8], sender: u8, p: &[u8], count: u8)
    requires { (count ≤ 13) × (7 * count ≤ length p.now + 6) }
    ensures { room.new ≡ sets room.old 12 (frame_bytes (packets_from sender p.now 1 count)) }
{
    for sent in 0..count {
        put_packet(room, sender, p, sent + 1);
    }
}

// Stores packet i in its place among the frames.
fn put_packet(room: &mut [u8], sender: u8, p: &[u8], i: u8)
    requires le_i { (1 ≤ i) × (i ≤ 13) }
    requires i_in_bounds { 7 * (i - 1) ≤ length p.now }
    ensures { room.new ≡ sets room.old (12 * i) (bytes 4 (identifier 235 sender) ++ packet_data p.now i) }
{
    let carried = packet_data(p, i);
    put_frame(
        room,
        Bench::FRAME * (i as usize),
        identifier(Frame::PACKET, sender),
        &carried,
    );
}

// An announcement's data.
fn announcement(size: u16) -> [u8; 8]
    requires { size ≤ largest_payload }
    ensures { result ≡ announcement size }
{
    let group = Session::GROUP;
    [
        Session::BROADCAST,
        (size % 256) as u8,
        (size / 256) as u8,
        joining::packets(size) as u8,
        Bench::UNREAD,
        (group % 256) as u8,
        (group / 256 % 256) as u8,
        (group / 65536) as u8,
    ]
}

// A packet's data: its sequence number and its part of the payload, with 255 past the payload's end.
fn packet_data(p: &[u8], i: u8) -> [u8; 8]
    requires { (1 ≤ i) × (7 * (i - 1) ≤ length p.now) }
    ensures { result ≡ packet_data p.now i }
{
    let at = Session::PART * ((i - 1) as usize);
    let mut carried = [Bench::UNREAD; 8];
    wire::put(&mut carried, 0, i);
    wire::put_all(&mut carried, 1, &p[at..]);
    carried
}

// The identifier of a sender's frames of this format: priority 7, to everyone.
fn identifier(format: u32, sender: u8) -> u32
    requires { format ≤ 255 }
    ensures { result ≡ identifier format sender }
{
    67108864 * Bench::PRIORITY + 65536 * format + 256 * Frame::EVERYONE + (sender as u32)
}

// Stores a frame from `at` on.
fn put_frame(room: &mut [u8], at: usize, id: u32, carried: &[u8; 8])
    requires { at ≤ 156 }
    ensures { room.new ≡ sets room.old at (bytes 4 id ++ carried.now) }
{
    wire::put32(room, at, id);
    wire::put_all(room, at + Bench::IDENTIFIER, carried);
}
