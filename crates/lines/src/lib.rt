// Words and numbers in a line of text.
// Words stand between blanks; a blank is the space or any byte below it, so tabs and carriage returns are blanks too.
#![tactic(auto)]

ghost use Rattle.std.specs.Prelude.{◌≡◌, drop};
ghost use Rattle.wire.specs.Bytes.{same};
ghost use Rattle.lines.specs.Words.{is_of_kind, run_length, tail_at, word_at};
ghost use Rattle.lines.specs.Numbers.{digit_of, with_digit, number_in, short_in};

// Which bytes in a row are counted.
#[derive(Clone, Copy)]
pub enum Run {
    Blanks,
    Letters,
    Until(u8),
}

impl Run {
    pub const LAST_BLANK: u8 = 32;

    // How many bytes at the front are of this kind.
    #[tactic(auto, unfolding(crate::specs::Words::run_length))]
    pub fn length(self, s: &[u8]) -> usize
        ensures { result ≡ run_length self s.now }
    {
        s.iter().take_while(|b| self.is_of_kind(**b)).count()
    }

    // What stands behind the bytes of this kind at the front.
    #[tactic(auto, using(crate::proofs::Words::run_within))]
    fn passed(self, s: &[u8]) -> &[u8]
        ensures { result.now ≡ drop (run_length self s.now) s.now }
    {
        &s[self.length(s)..]
    }

    // Whether a byte is of this kind.
    fn is_of_kind(self, b: u8) -> bool
        ensures { result ≡ is_of_kind self b }
    {
        match self {
            Run::Blanks => b <= Run::LAST_BLANK,
            Run::Letters => Run::LAST_BLANK < b,
            Run::Until(end) => b != end,
        }
    }
}

// What is left of a line behind its first n words, without blanks before it.
#[tactic(auto, unfolding(crate::specs::Words::tail_at, crate::specs::Words::trimmed, crate::specs::Words::behind_word))]
pub fn tail(s: &[u8], n: u8) -> &[u8]
    ensures { result.now ≡ tail_at n s.now }
{
    let mut rest = Run::Blanks.passed(s);
    for i in 0..n {
        rest = Run::Blanks.passed(Run::Letters.passed(rest));
    }
    rest
}

// The word n of a line, counted from 0; no bytes where there is none.
#[tactic(auto, unfolding(crate::specs::Words::word_at))]
pub fn word(s: &[u8], n: u8) -> &[u8]
    ensures { result.now ≡ word_at n s.now }
{
    let rest = tail(s, n);
    &rest[..Run::Letters.length(rest)]
}

// Whether two texts are the same.
pub fn same(s: &[u8], t: &[u8]) -> bool
    ensures { result ≡ same s.now t.now }
{
    s == t
}

// The number that the digits of a text stand for; none where there are no digits, or a byte is no digit of the base,
// or the number is over `most`.
#[tactic(auto, using(crate::proofs::Numbers::number_more), unfolding(crate::specs::Numbers::number_in, crate::specs::Numbers::number_on))]
pub fn number(s: &[u8], base: u8, most: u32) -> Option<u32>
    ensures { result ≡ number_in base most s.now }
{
    if s.is_empty() {
        return None;
    }
    let mut n = 0;
    for b in s {
        n = with_digit(n, *b, base, most)?;
    }
    Some(n)
}

// The number with one digit more.
#[tactic(auto, unfolding(crate::specs::Numbers::with_digit))]
fn with_digit(n: u32, b: u8, base: u8, most: u32) -> Option<u32>
    ensures { result ≡ with_digit base most n b }
{
    let d = digit(b)?;
    if base <= d {
        return None;
    }
    let next = n.checked_mul(u32::from(base))?.checked_add(u32::from(d))?;
    if most < next { None } else { Some(next) }
}

// What a byte stands for as a digit: 0 to 9, A to F or a to f.
#[tactic(auto, unfolding(crate::specs::Numbers::digit_of))]
fn digit(b: u8) -> Option<u8>
    ensures { result ≡ digit_of b }
{
    match b {
        b'0'..=b'9' => Some(b - b'0'),
        b'A'..=b'F' => Some(b - b'A' + 10),
        b'a'..=b'f' => Some(b - b'a' + 10),
        _ => None,
    }
}

// A number from -32,768 to 32,767, decimal with a minus before a negative one.
#[tactic(auto, using(crate::proofs::Numbers::number_most), unfolding(crate::specs::Numbers::short_in))]
pub fn short(s: &[u8]) -> Option<i16>
    ensures { result ≡ short_in s.now }
{
    if let [b'-', digits @ ..] = s {
        let n = number(digits, 10, 32768)?;
        return Some(-i64::from(n) as i16);
    }
    let n = number(s, 10, 32767)?;
    Some(n as i16)
}
