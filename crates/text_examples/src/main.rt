// The log program's lines tried at the edges of their numbers and of the room. The file `stdout` has the lines that
// the rules (docs/RULES.md) ask for.
#![tactic(auto)]

use text::Text;

fn main(rt: HostRuntime) {
    numbers(&rt);
    scores(&rt);
    searches(&rt);
    refusals(&rt);
    lists(&rt);
    rooms(&rt);
}

// Writes what `store` answers that it stored in `room`.
fn show<Store: FnOnce(&mut [u8]) -> usize>(rt: &impl Print, room: &mut [u8], store: Store)
    requires { Store.IsAlwaysCallable store }
{
    let behind = store(room);
    let _ = rt.write_all(wire::front(room, behind));
}

fn end(rt: &impl Print) {
    let _ = rt.write_all(b"\n");
}

// Each number on a line of its own.
fn numbers(rt: &impl Print) {
    for n in [
        0,
        9,
        10,
        99,
        100,
        1000001,
        4294967295,
        4294967296,
        9999999999999999999,
        10000000000000000000,
        18446744073709551615,
    ] {
        show(
            rt,
            &mut [0; Text::NUMBER],
            |room| text::put_decimal(room, 0, n),
        );
        end(rt);
    }
}

fn scores(rt: &impl Print) {
    for z in [
        0,
        1,
        -1,
        -9,
        -10,
        12285000,
        -12285000,
        2147483647,
        -2147483648,
    ] {
        show(
            rt,
            &mut [0; Text::SCORE],
            |room| text::put_signed(room, 0, z),
        );
        end(rt);
    }
}

// The worked example's line, the shortest and the longest.
fn searches(rt: &impl Print) {
    for (item, slot, steps) in [(2, 0, 256), (1, 0, 0), (u64::MAX, u8::MAX, u16::MAX)] {
        show(
            rt,
            &mut [0; Text::S_LONGEST],
            |room| text::put_s(room, 0, item, slot, steps),
        );
    }
}

// The worked example's line, the shortest and the longest.
fn refusals(rt: &impl Print) {
    for (item, code) in [(12, 17), (1, 1), (u64::MAX, u8::MAX)] {
        show(
            rt,
            &mut [0; Text::R_LONGEST],
            |room| text::put_r(room, 0, item, code),
        );
    }
}

// The worked example's line, none of its entries, one and all of sixteen, and the longest line.
fn lists(rt: &impl Print) {
    let mut numbers = [0u32; Text::ENTRIES];
    let mut scores = [0i32; Text::ENTRIES];
    numbers[0] = 2;
    numbers[1] = 1;
    scores[0] = 500;
    scores[1] = 500;
    list(rt, 0, numbers, scores, 2);
    list(rt, 0, numbers, scores, 0);
    list(rt, 31, numbers, scores, 1);
    list(rt, 31, numbers, scores, 16);
    list(rt, 31, numbers, scores, 17);
    list(rt, 31, numbers, scores, 18446744073709551615);
    list(
        rt,
        7,
        [1000000u32; Text::ENTRIES],
        [-12285000i32; Text::ENTRIES],
        16,
    );
    list(
        rt,
        255,
        [4294967295u32; Text::ENTRIES],
        [-2147483648i32; Text::ENTRIES],
        16,
    );
}

fn list(
    rt: &impl Print,
    slot: u8,
    numbers: [u32; Text::ENTRIES],
    scores: [i32; Text::ENTRIES],
    n: usize,
) {
    show(
        rt,
        &mut [0; Text::Q_LONGEST],
        |room| text::put_q(room, 0, slot, numbers, scores, n),
    );
}

// A line in eight dots from several places on, with the place behind it.
fn rooms(rt: &impl Print) {
    for at in [
        0,
        1,
        2,
        5,
        7,
        8,
        9,
        18446744073709551608,
        18446744073709551609,
        18446744073709551615,
    ] {
        let mut room = [b'.'; 8];
        let behind = text::put_r(&mut room, at, 12, 17);
        let _ = rt.print(at as u64);
        let _ = rt.write_all(b" ");
        let _ = rt.print(behind as u64);
        let _ = rt.write_all(b" ");
        let _ = rt.write_all(&room);
        end(rt);
    }
}
