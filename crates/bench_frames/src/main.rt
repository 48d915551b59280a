// Writes the frames of the reports that standard input asks for, for an outside reader to compare. A request has 77 bytes:
// sender, loss in 2, shake in 2, number in 4, 1 where there is a note, its length, 64 of which the first are the note, and
// one more than the heat in 2, 0 where there is none.
#![tactic(auto)]

use bench::Bench;
use report::Report;
use values::{Edition, Values};

// The bytes of a request.
const REQUEST: usize = 77;

// Answers request after request, until the input ends.
fn main(rt: HostRuntime) {
    let mut reader = rt.stdin();
    let mut request = [0u8; REQUEST];
    for _ in 0..u64::MAX {
        if input::read_full(&mut reader, &mut request) < REQUEST {
            break;
        }
        write(&rt, &request);
    }
}

// Writes a request's frames; a refused one has none.
fn write(rt: &impl Print, request: &[u8; REQUEST]) {
    let mut space = [0u8; Bench::LARGEST];
    let report = Report {
        values: Values {
            loss: wire::read16(request, 1),
            shake: wire::read16(request, 3),
            edition: Edition::of(wire::read16(request, 75)),
        },
        own: wire::read32(request, 5),
    };
    let length = usize::from(wire::byte(request, 10));
    let note = wire::front(&request[11..], length);
    let note = (wire::byte(request, 9) != 0).then_some(note);
    if let Ok(n) = Bench::send(&mut space, wire::byte(request, 0), report, note) {
        let _ = rt.write_all(wire::front(&space, n));
    }
}
