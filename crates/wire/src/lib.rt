// Little-endian numbers and tagged fields (tag, two-byte length, value) in bytes that a caller lends.
// Every function takes any place: what lies past the end reads as 0 and is not stored.
#![tactic(auto)]

ghost use Rattle.std.specs.Prelude.{◌≡◌, ℕ, ◌+◌, ◌<◌, drop, get_or, set, take};
ghost use Rattle.std.proofs.lemmas.List.Edits.{sets};
ghost use Rattle.wire.specs.Bytes.{number, bytes, part, field, head, field_at, is_field};

// A whole field: its value is the `size` bytes from `start`.
#[derive(Clone, Copy)]
pub struct Field {
    pub tag: u8,
    pub start: usize,
    pub size: usize,
}

impl Field {
    // The bytes before the value: the tag and the length.
    pub const HEAD: usize = 3;

    // The field that starts at `at`; none where the bytes end inside it.
    #[tactic(auto, using(crate::proofs::Fields::cut_short, crate::proofs::Fields::cut_over, crate::proofs::Fields::whole))]
    pub fn at(s: &[u8], at: usize) -> Option<Field>
        ensures { result ≡ field_at s.now at }
    {
        let room = s.len().checked_sub(at)?.checked_sub(Field::HEAD)?;
        let size = read16(s, at + 1) as usize;
        if size <= room {
            Some(Field {
                tag: byte(s, at),
                start: at + Field::HEAD,
                size,
            })
        } else {
            None
        }
    }

    // Whether a whole field of this tag and this length starts at `at`.
    pub fn stands(s: &[u8], at: usize, tag: u8, size: usize) -> bool
        ensures { result ≡ is_field (field_at s.now at) tag size }
    {
        Field::at(s, at).is_some_and(|f| f.tag == tag && f.size == size)
    }
}

// The byte at `at`.
pub fn byte(s: &[u8], at: usize) -> u8
    ensures { result ≡ get_or s.now at 0 }
{
    s.get(at).copied().unwrap_or(0)
}

// The two-byte number at `at`.
#[tactic(auto, using(crate::proofs::Numbers::from_two))]
pub fn read16(s: &[u8], at: usize) -> u16
    ensures { result ≡ number (part at 2 s.now) }
{
    u16::from_le_bytes(bytes_at(s, at))
}

// The three-byte number at `at`.
#[tactic(auto, using(crate::proofs::Numbers::from_three))]
pub fn read24(s: &[u8], at: usize) -> u32
    ensures { result ≡ number (part at 3 s.now) }
{
    let [low, middle, high] = bytes_at::<3>(s, at);
    u32::from_le_bytes([low, middle, high, 0])
}

// The four-byte number at `at`.
#[tactic(auto, using(crate::proofs::Numbers::from_four))]
pub fn read32(s: &[u8], at: usize) -> u32
    ensures { result ≡ number (part at 4 s.now) }
{
    u32::from_le_bytes(bytes_at(s, at))
}

// The `N` bytes from `at` on, with 0 for each past the end.
fn bytes_at<const N: usize>(s: &[u8], at: usize) -> [u8; N]
    ensures { (i : ℕ) → i < N → get_or result i 0 ≡ get_or (drop at s.now) i 0 }
{
    let rest = &s[at.min(s.len())..];
    let mut bytes = [0; N];
    for (i, b) in bytes.iter_mut().enumerate() {
        *b = byte(rest, i);
    }
    bytes
}

// The first `n` bytes, or all of them where there are fewer.
pub fn front(s: &[u8], n: usize) -> &[u8]
    ensures { result.now ≡ take n s.now }
{
    &s[..n.min(s.len())]
}

// Stores a byte at `at`.
pub fn put(buf: &mut [u8], at: usize, b: u8)
    ensures { buf.new ≡ set buf.old at b }
{
    if at < buf.len() {
        buf[at] = b;
    }
}

// Stores a two-byte number from `at` on.
#[tactic(auto, using(crate::proofs::Numbers::to_two))]
pub fn put16(buf: &mut [u8], at: usize, x: u16)
    ensures { buf.new ≡ sets buf.old at (bytes 2 x) }
{
    put_all(buf, at, &u16::to_le_bytes(x));
}

// Stores a four-byte number from `at` on.
#[tactic(auto, using(crate::proofs::Numbers::to_four))]
pub fn put32(buf: &mut [u8], at: usize, x: u32)
    ensures { buf.new ≡ sets buf.old at (bytes 4 x) }
{
    put_all(buf, at, &u32::to_le_bytes(x));
}

// Stores all of `value` from `at` on.
#[tactic(auto, using(crate::proofs::Stores::sets_past, crate::proofs::Stores::part_copied))]
pub fn put_all(buf: &mut [u8], at: usize, value: &[u8])
    ensures { buf.new ≡ sets buf.old at value.now }
{
    if at < buf.len() {
        let size = value.len().min(buf.len() - at);
        buf[at..at + size].copy_from_slice(&value[..size]);
    }
}

// Stores a field from `at` on: the tag, the length and the value.
#[tactic(auto, using(crate::proofs::Stores::in_a_row), unfolding(crate::specs::Bytes::field))]
pub fn put_field(buf: &mut [u8], at: usize, tag: u8, value: &[u8])
    ensures { buf.new ≡ sets buf.old at (field tag value.now) }
{
    if at < buf.len() {
        put_head(buf, at, tag, (value.len() % 65536) as u16);
        put_all(buf, at + Field::HEAD, value);
    }
}

// Stores a field whose value is a two-byte number.
#[tactic(auto, using(crate::proofs::Numbers::to_two))]
pub fn put_field16(buf: &mut [u8], at: usize, tag: u8, x: u16)
    ensures { buf.new ≡ sets buf.old at (field tag (bytes 2 x)) }
{
    put_field(buf, at, tag, &u16::to_le_bytes(x));
}

// Stores a field whose value is a four-byte number.
#[tactic(auto, using(crate::proofs::Numbers::to_four))]
pub fn put_field32(buf: &mut [u8], at: usize, tag: u8, x: u32)
    ensures { buf.new ≡ sets buf.old at (field tag (bytes 4 x)) }
{
    put_field(buf, at, tag, &u32::to_le_bytes(x));
}

// Stores a field's tag and length.
#[tactic(auto, unfolding(crate::specs::Bytes::head, crate::specs::Bytes::bytes))]
fn put_head(buf: &mut [u8], at: usize, tag: u8, size: u16)
    ensures { buf.new ≡ sets buf.old at (head tag size) }
{
    let [low, high] = size.to_le_bytes();
    put_all(buf, at, &[tag, low, high]);
}
