// What the test programs print with: words, numbers and bytes on standard output. A write that fails is passed over.
#![tactic(auto)]

pub fn text(rt: &impl Print, s: &[u8]) {
    let _ = rt.write_all(s);
}

// The end of a line.
pub fn end(rt: &impl Print) {
    text(rt, b"\n");
}

// A space and a number.
pub fn number(rt: &impl Print, n: u64) {
    text(rt, b" ");
    let _ = rt.print(n);
}

// A space and a number in at least `width` hexadecimal digits, of which it has no more than 16.
pub fn hex(rt: &impl Print, n: u64, width: usize) {
    text(rt, b" ");
    let digits = width.min(16);
    let _ = print!(rt; "{n:0digits$x}");
}

// Each byte as a space and two hexadecimal digits.
pub fn bytes(rt: &impl Print, s: &[u8]) {
    for b in s {
        hex(rt, u64::from(*b), 2);
    }
}

// " refused" and the number.
pub fn refused(rt: &impl Print, n: u8) {
    text(rt, b" refused");
    number(rt, u64::from(n));
}

// What a call answers: the refusal's number, or 0.
pub fn answers(rt: &impl Print, refusal: u8) {
    text(rt, b" answers");
    number(rt, u64::from(refusal));
}
