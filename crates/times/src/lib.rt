// Frames with times: each sender's last kept time beside its session, and packets that come too late.
#![tactic(auto)]

ghost use Rattle.std.specs.Prelude.{◌≡◌, true, cond, ◌<◌, length, set, eqb};
ghost use Rattle.refusal.specs.Numbers.{number_of};
ghost use Rattle.refusal.specs.Answers.{answered};
ghost use Rattle.joining.specs.Frame.{sender_of, frame_refusal};
ghost use Rattle.joining.specs.Joining.{fit, closed, take_frame};
ghost use Rattle.joining.specs.Run.{senders, session_of, sessions_after, answer_to};
ghost use Rattle.bus.specs.Room.{room_bytes, sessions_in, room_of};
ghost use Rattle.times.specs.Timed.{is_kept, last_after, turned, kept_at, timed_frame, shut_by, stops, meets, last_of, with_last, put_last, fresh_times};
ghost use Rattle.times.specs.Run.{stations_in, timed_at, Takes, Meets};
ghost use Rattle.times.specs.Inner.{came_at, station_in};

use bus::Bus;
use joining::{Answer, Session};
use refusal::Refusal;

// A sender's last kept time, in milliseconds: whether there is one, and which, 0 where there is none.
// Stays: an Option lacks the state that is unfit, no time and yet not 0, which `came_at` (specs/Inner.antt) refuses with 24.
#[derive(Clone, Copy)]
pub struct Last {
    pub known: bool,
    pub at: u32,
}

// One sender's session and last kept time.
#[derive(Clone, Copy)]
pub struct Station {
    pub session: Session,
    pub last: Last,
}

// A frame's answer, and what it leaves.
#[derive(Clone, Copy)]
pub struct Heard {
    pub answer: Answer,
    pub station: Station,
}

// The last kept time of each sender from 0 to 253, in their order: whether there is one, and it, 0 where there is none.
#[derive(Clone, Copy)]
pub struct Times {
    pub known: [bool; Bus::SENDERS],
    pub at: [u32; Bus::SENDERS],
}

impl Times {
    // The longest time between two kept frames of a report, in milliseconds.
    pub const LONGEST: u32 = 750;

    // No time for any sender.
    pub fn fresh() -> Times
        ensures { result ≡ fresh_times }
    {
        let known = [false; Bus::SENDERS];
        let at = [0u32; Bus::SENDERS];
        Times { known, at }
    }

    // Takes a frame that came at a time, in milliseconds: as its sender's session does, which is closed first where more than
    // 750 ms lie between; a frame that isn't refused sets that sender's time. Nothing of other senders is touched.
    pub fn take(&mut self, room: &mut [u8; Bus::ROOM], time: u32, id: u32, data: &[u8]) -> Answer
        ensures { Takes (stations_in room.old self.old) (timed_at time id «data».now) result room.new self.new }
    {
        whole(room);
        self.timed(room, time, id, data)
    }
}

// `take` in its parts, for a caller that has one place where a frame is taken, with a time or without: `meet`, and where that refuses
// nothing `Bus::take`, and `put` of the last time that `meet` found, where the frame is refused.
impl Times {
    // What a time settles before its frame is taken. It refuses a frame that is before the last time, or at one that is unfit, by its
    // first refusal; else it closes the session where more than 750 ms lie between, sets the time, and tells what the last one was.
    pub fn meet(
        &mut self,
        room: &mut [u8; Bus::ROOM],
        time: u32,
        id: u32,
        data: &[u8],
    ) -> Result<Last, Refusal>
        ensures { Meets (stations_in room.old self.old) time id «data».now result room.new self.new }
    {
        whole(room);
        self.meet_in(room, time, id, data)
    }

    // Stores another last time of that sender; senders 254 and 255 have none.
    pub fn put(&mut self, sender: u8, last: Last)
        ensures { self.new ≡ put_last self.old sender last }
    {
        let k = sender as usize;
        if k < Bus::SENDERS {
            self.known[k] = last.known;
            self.at[k] = last.at;
        }
    }
}

impl Times {
    // A sender's last time; senders 254 and 255 have none.
    pub fn of(&self, sender: u8) -> Last
        ensures { result ≡ last_of sender self.now }
    {
        let k = sender as usize;
        if Bus::SENDERS <= k {
            return Last {
                known: false,
                at: 0,
            };
        }
        Last {
            known: self.known[k],
            at: self.at[k],
        }
    }

    // The times with another of that sender; the same where it has none.
    pub fn with(self, sender: u8, last: Last) -> Times
        ensures { result ≡ with_last self sender last }
    {
        let k = sender as usize;
        let mut known = self.known;
        let mut at = self.at;
        if k < Bus::SENDERS {
            known[k] = last.known;
            at[k] = last.at;
        }
        Times { known, at }
    }
}

impl Station {
    // Takes a frame of this station's sender that came at a time. Nothing is changed by refusals 1, 2, 3, 24 and 26, in this order;
    // then the session is closed where more than 750 ms lie between, and takes the frame.
    pub fn frame(self, time: u32, id: u32, data: &[u8]) -> Heard
        ensures { result ≡ timed_frame self time id «data».now }
    {
        if let Err(refusal) = joining::frame_refusal(id, data) {
            return self.turned(refusal);
        }
        let session = self.session;
        if session.fit() {
            return self.timed(time, id, data);
        }
        self.turned(Refusal::Unfit)
    }

    // `frame` where no refusal comes before those of the last time.
    fn timed(self, time: u32, id: u32, data: &[u8]) -> Heard
        requires { (frame_refusal id «data».now ≡ 0) × (fit self.session ≡ true) }
        ensures { result ≡ timed_frame self time id «data».now }
    {
        let session = self.session;
        let last = self.last;
        let came = compared(last.known, last.at, time);
        match came {
            Came::InTime => last.settled(session, time, id, data),
            Came::Late => last.settled(closed(session), time, id, data),
            Came::Before => self.turned(Refusal::BeforeLastTime),
            Came::Unfit => self.turned(Refusal::Unfit),
        }
    }

    fn turned(self, refusal: Refusal) -> Heard
        ensures { result ≡ turned (number_of refusal) self }
    {
        Heard {
            answer: Err(refusal),
            station: self,
        }
    }
}

impl Last {
    // What this session makes of the frame, and the last time that this one becomes.
    fn settled(self, session: Session, time: u32, id: u32, data: &[u8]) -> Heard
        ensures { result ≡ kept_at time self (take_frame session id «data».now) }
    {
        let taken = session.lend(id, data);
        let answer = taken.answer;
        let left = taken.session;
        let last = self.after(answer, time);
        Heard {
            answer,
            station: Station {
                session: left,
                last,
            },
        }
    }

    // The last time behind a frame at that time with this answer.
    fn after(self, answer: Answer, time: u32) -> Last
        ensures { result ≡ last_after answer time self }
    {
        if answer.is_ok() {
            return Last {
                known: true,
                at: time,
            };
        }
        self
    }
}

// The session closed; its bytes stay.
fn closed(session: Session) -> Session
    ensures { result ≡ closed session }
{
    let mut left = session;
    left.size = 0;
    left.count = 0;
    left.next = 0;
    left
}

// Says that the array has its length, and does nothing.
fn whole(room: &mut [u8])
    requires { length room.old ≡ room_bytes }
    ensures { (length room.old ≡ room_bytes) × (room.new ≡ room.old) }
{}

impl Times {
    // `take` on bytes that are known to be a room.
    fn timed(&mut self, room: &mut [u8; Bus::ROOM], time: u32, id: u32, data: &[u8]) -> Answer
        requires { length room.old ≡ room_bytes }
        ensures { Takes (stations_in room.old self.old) (timed_at time id «data».now) result room.new self.new }
    {
        let last = self.meet(room, time, id, data)?;
        let answer = Bus::take(room, id, data);
        if answer.is_ok() {
            return answer;
        }
        self.put((id % 256) as u8, last);
        answer
    }

    // `meet` on bytes that are known to be a room.
    fn meet_in(
        &mut self,
        room: &mut [u8; Bus::ROOM],
        time: u32,
        id: u32,
        data: &[u8],
    ) -> Result<Last, Refusal>
        requires { length room.old ≡ room_bytes }
        ensures { Meets (stations_in room.old self.old) time id «data».now result room.new self.new }
    {
        let k = (id % 256) as usize;
        if Bus::SENDERS <= k {
            return Ok(Last {
                known: false,
                at: 0,
            });
        }
        let last = Last {
            known: self.known[k],
            at: self.at[k],
        };
        stopped(room, last, time, id, data)?;
        self.known[k] = true;
        self.at[k] = time;
        Ok(last)
    }
}

// The refusal of a frame that came at a time, where this is its sender's last one; where it refuses none, the session is closed if the frame
// comes too late.
fn stopped(
    room: &mut [u8; Bus::ROOM],
    last: Last,
    time: u32,
    id: u32,
    data: &[u8],
) -> Result<(), Refusal>
    requires { (length room.old ≡ room_bytes) × (sender_of id < senders) }
    ensures value { result ≡ answered (stops (station_in room.old last id) time id «data».now) tt }
    ensures room_after { room.new ≡ room_of (set (sessions_in room.old) (sender_of id) (meets (station_in room.old last id) time id «data».now).session) }
{
    let came = compared(last.known, last.at, time);
    match came {
        Came::InTime => Ok(()),
        Came::Late => {
            shut(room, id, data);
            Ok(())
        }
        Came::Before => turned(room, id, data, Refusal::BeforeLastTime),
        Came::Unfit => turned(room, id, data, Refusal::Unfit),
    }
}

// How a time stands to a sender's last kept one: in time, more than 750 ms after it, before it; or what is stored is none and yet not 0.
#[derive(Clone, Copy)]
enum Came {
    InTime,
    Late,
    Before,
    Unfit,
}

fn compared(known: bool, last: u32, time: u32) -> Came
    ensures { result ≡ came_at (record { known = known; at = last }) time }
{
    if known {
        if time < last {
            return Came::Before;
        }
        if Times::LONGEST < time - last {
            return Came::Late;
        }
        return Came::InTime;
    }
    if last != 0 {
        return Came::Unfit;
    }
    Came::InTime
}

// Closes the session of a frame that came too late, unless 1 to 3 or 24 refuse it: they stand before, and no time does.
fn shut(room: &mut [u8; Bus::ROOM], id: u32, data: &[u8])
    requires { length room.old ≡ room_bytes }
    ensures { room.new ≡ room_of (set (sessions_in room.old) (sender_of id) (shut_by (session_of (sender_of id) (sessions_in room.old)) id «data».now)) }
{
    if joining::frame_refusal(id, data).is_err() {
        return;
    }
    let sender = (id % 256) as u8;
    if Bus::fit(room, sender) {
        Bus::close(room, sender);
    }
}

// The refusal of a frame that the last time refuses so: those that come first are 1 to 3, and 24 for an unfit session.
fn turned(room: &[u8; Bus::ROOM], id: u32, data: &[u8], last: Refusal) -> Result<(), Refusal>
    ensures { result ≡ answered (cond (eqb (frame_refusal id «data».now) 0) (cond (fit (session_of (sender_of id) (sessions_in room.now))) (number_of last) 24) (frame_refusal id «data».now)) tt }
{
    // Stays: with `?` the answers didn't close (tried `search`, and `frame_let` on what the branch says).
    if let Err(refusal) = joining::frame_refusal(id, data) {
        return Err(refusal);
    }
    if Bus::fit(room, (id % 256) as u8) {
        return Err(last);
    }
    Err(Refusal::Unfit)
}
