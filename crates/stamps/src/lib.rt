// The times that can-utils' `candump` prints before its frames, and the time from the first of them to another as a log holds it.
#![tactic(auto)]

ghost use Rattle.std.specs.Prelude.{◌≡◌, ◌+◌, ◌*◌, ◌≤◌, drop, get_or, IfSome};
ghost use Rattle.stamps.specs.Stamps.{fraction_in, stamp_at, bare, seconds_of, seconds_in, two_at, month_starts, leap_day, day_of, is_date, day_in, is_clock, clock_in, dated_in, earliest, since_of};

use lines::Run;

// A time in nanoseconds.
#[derive(Clone, Copy)]
pub struct Stamp {
    pub nanos: u64,
}

// A frame's time in a log: none, milliseconds, or more of them than a log can hold.
// Stays: three answers, each with a meaning of its own (no time, a time, one past a log's last), which an Option of a Result would only nest.
#[derive(Clone, Copy)]
pub enum Since {
    Unknown,
    At(u32),
    Beyond,
}

impl Stamp {
    pub const SECOND: u64 = 1000000000;

    pub const MILLISECOND: u64 = 1000000;

    // The digits of a fraction, and the largest number that they stand for.
    pub const DIGITS: usize = 9;

    pub const MOST: u32 = 999999999;

    // The largest time of a log in milliseconds, and the largest of a capture in seconds.
    pub const LAST: u32 = 4294967295;

    // The time in a word of seconds and a fraction, in brackets: `(1436509052.249713)`.
    #[tactic(auto, unfolding(crate::specs::Stamps::seconds_in))]
    pub fn seconds(word: &[u8]) -> Option<Stamp>
        ensures { result ≡ seconds_in word.now }
    {
        seconds_of(bare(word))
    }

    // The time in a date and a time of day, two words in brackets: `(2015-07-10 06:17:32.249713)`. The years are 2000 to 2099.
    #[tactic(auto, unfolding(crate::specs::Stamps::dated_in, crate::specs::Stamps::stamp_of, crate::specs::Stamps::seconds_from))]
    pub fn dated(date: &[u8], clock: &[u8]) -> Option<Stamp>
        ensures { result ≡ dated_in date.now clock.now }
    {
        let day = day_in(date)?;
        let time = clock_in(clock)?;
        let part = fraction(bare(behind(clock, 8)))?;
        Some(Stamp::at(day * 86400 + time, part))
    }

    // Where times count from once this one has come: the first one that there is.
    #[tactic(auto, unfolding(crate::specs::Stamps::earliest))]
    pub fn earliest(start: Option<Stamp>, stamp: Option<Stamp>) -> Option<Stamp>
        ensures { result ≡ earliest start stamp }
    {
        start.or(stamp)
    }

    // The time in a log of a frame that came at `stamp`, in milliseconds from the start, rounded down.
    #[tactic(auto, unfolding(crate::specs::Stamps::since_of, crate::specs::Stamps::between))]
    pub fn since(start: Option<Stamp>, stamp: Option<Stamp>) -> Since
        ensures { result ≡ since_of start stamp }
    {
        let Some(stamp) = stamp else {
            return Since::Unknown;
        };
        let from = start.map_or(0, |s| s.nanos);
        let ms = stamp.nanos.saturating_sub(from) / Stamp::MILLISECOND;
        match u32::try_from(ms) {
            Ok(ms) => Since::At(ms),
            Err(_) => Since::Beyond,
        }
    }

    // Whole seconds and a fraction in nanoseconds.
    fn at(whole: u32, part: u32) -> Stamp
        ensures { result ≡ stamp_at whole part }
    {
        Stamp {
            nanos: u64::from(whole) * Stamp::SECOND + u64::from(part),
        }
    }
}

#[tactic(auto, unfolding(crate::specs::Stamps::seconds_of, crate::specs::Stamps::stamp_of, crate::specs::Stamps::point_at))]
fn seconds_of(text: &[u8]) -> Option<Stamp>
    ensures { result ≡ seconds_of text.now }
{
    let at = Run::Until(b'.').length(text);
    let whole = lines::number(wire::front(text, at), 10, Stamp::LAST)?;
    let part = fraction(behind(behind(text, at), 1))?;
    Some(Stamp::at(whole, part))
}

// What a fraction's digits stand for: those that aren't there are 0.
#[tactic(auto, unfolding(crate::specs::Stamps::fraction_in))]
fn fraction(text: &[u8]) -> Option<u32>
    ensures { result ≡ fraction_in text.now }
{
    if Stamp::DIGITS < text.len() {
        return None;
    }
    let mut digits = [b'0'; Stamp::DIGITS];
    wire::put_all(&mut digits, 0, text);
    lines::number(&digits, 10, Stamp::MOST)
}

// A text without its first n bytes.
fn behind(text: &[u8], n: usize) -> &[u8]
    ensures { result.now ≡ drop n text.now }
{
    &text[n.min(text.len())..]
}

// A word without its first byte and its last.
#[tactic(auto, unfolding(crate::specs::Stamps::bare))]
fn bare(word: &[u8]) -> &[u8]
    ensures { result.now ≡ bare word.now }
{
    match word {
        [_, inner @ .., _] => inner,
        _ => &[],
    }
}

// Two digits at a place, at most so much.
#[tactic(auto, using(lines::proofs::Numbers::number_most))]
fn two(text: &[u8], at: usize, most: u32) -> Option<u32>
    ensures value { result ≡ two_at at most text.now }
    ensures within { IfSome result (λ n. n ≤ most) }
{
    lines::number(wire::front(behind(text, at), 2), 10, most)
}

// Whether a word has the form of a date.
#[tactic(auto, unfolding(crate::specs::Stamps::is_date))]
fn is_date(word: &[u8]) -> bool
    ensures { result ≡ is_date word.now }
{
    matches!(word, [b'(', b'2', b'0', _, _, b'-', _, _, b'-', _, _])
}

// The day of a date.
#[tactic(auto, unfolding(crate::specs::Stamps::day_in))]
fn day_in(word: &[u8]) -> Option<u32>
    ensures value { result ≡ day_in word.now }
    ensures within { IfSome result (λ n. n ≤ 36600) }
{
    if !is_date(word) {
        return None;
    }
    let year = two(word, 3, 99)?;
    let month = two(word, 6, 12)?;
    let day = two(word, 9, 31)?;
    if month == 0 || day == 0 {
        return None;
    }
    Some(day_of(year, month, day))
}

#[tactic(auto, unfolding(crate::specs::Stamps::day_of))]
fn day_of(year: u32, month: u32, day: u32) -> u32
    requires { (year ≤ 99) × (month ≤ 12) × (day ≤ 31) }
    ensures { (result ≡ day_of year month day) × (result ≤ 36600) }
{
    365 * year + (year + 3) / 4 + month_start(month) + leap_day(year, month) + day
}

fn month_start(month: u32) -> u32
    requires { month ≤ 12 }
    ensures { (result ≡ get_or month_starts month 0) × (result ≤ 334) }
{
    let starts = [0u32, 0, 31, 59, 90, 120, 151, 181, 212, 243, 273, 304, 334];
    starts[month as usize]
}

#[tactic(auto, unfolding(crate::specs::Stamps::leap_day))]
fn leap_day(year: u32, month: u32) -> u32
    ensures { (result ≡ leap_day year month) × (result ≤ 1) }
{
    u32::from(2 < month && year % 4 == 0)
}

// Whether a word has the form of a time of day.
#[tactic(auto, unfolding(crate::specs::Stamps::is_clock))]
fn is_clock(word: &[u8]) -> bool
    ensures { result ≡ is_clock word.now }
{
    matches!(word, [_, _, b':', _, _, b':', _, _, b'.', ..])
}

// The seconds of a time of day.
#[tactic(auto, unfolding(crate::specs::Stamps::clock_in))]
fn clock_in(word: &[u8]) -> Option<u32>
    ensures value { result ≡ clock_in word.now }
    ensures within { IfSome result (λ n. n ≤ 86400) }
{
    if !is_clock(word) {
        return None;
    }
    let hour = two(word, 0, 23)?;
    let minute = two(word, 3, 59)?;
    let second = two(word, 6, 60)?;
    Some((hour * 60 + minute) * 60 + second)
}
