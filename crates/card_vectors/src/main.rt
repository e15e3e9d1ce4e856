// Runs the reader and the writer on the paper's vectors and on both sides of every limit, and prints what they answer.
#![tactic(auto)]

mod show;
mod words;

use show::{reading, writing};

// P2 of the paper: loadc 7, exit.
const SAMPLE: [u8; 17] = [0, 0, 0, 13, 1, 0, 1, 0, 2, 1, 0, 0, 7, 28, 0, 0, 0];

// An image's first n bytes.
fn prefix(rt: &impl Print, label: &[u8], image: &[u8], n: usize) {
    if n <= image.len() {
        reading(rt, label, &image[0..n]);
    }
}

fn put(image: &mut [u8], at: usize, byte: u8) {
    if at < image.len() {
        image[at] = byte;
    }
}

// The sample with one byte changed.
fn changed(rt: &impl Print, label: &[u8], at: usize, byte: u8) {
    let mut image = SAMPLE;
    put(&mut image, at, byte);
    prefix(rt, label, &image, 17);
}

// The sample with other numbers of cells and of instructions in its header, each given by its two bytes.
fn sized(
    rt: &impl Print,
    label: &[u8],
    cells_high: u8,
    cells_low: u8,
    count_high: u8,
    count_low: u8,
) {
    let mut image = SAMPLE;
    image[5] = cells_high;
    image[6] = cells_low;
    image[7] = count_high;
    image[8] = count_low;
    reading(rt, label, &image);
}

fn prefixes(rt: &impl Print) {
    let image = SAMPLE;
    prefix(rt, b"P1 0 bytes", &image, 0);
    prefix(rt, b"1 byte", &image, 1);
    prefix(rt, b"2 bytes", &image, 2);
    prefix(rt, b"3 bytes", &image, 3);
    prefix(rt, b"4 bytes", &image, 4);
    prefix(rt, b"5 bytes", &image, 5);
    prefix(rt, b"6 bytes", &image, 6);
    prefix(rt, b"7 bytes", &image, 7);
    prefix(rt, b"8 bytes", &image, 8);
    prefix(rt, b"9 bytes", &image, 9);
    prefix(rt, b"16 bytes", &image, 16);
    prefix(rt, b"P2 17 bytes", &image, 17);
}

// Images whose L is right for their length, and nothing else.
fn headers(rt: &impl Print) {
    reading(rt, b"L 0 of 4 bytes", b"\x00\x00\x00\x00");
    reading(rt, b"L 4 of 8 bytes", b"\x00\x00\x00\x04\x01\x00\x01\x00");
    reading(
        rt,
        b"L 5 of 9 bytes, version 2",
        b"\x00\x00\x00\x05\x02\x00\x01\x00\x01",
    );
    reading(
        rt,
        b"L 5 of 9 bytes, n 0",
        b"\x00\x00\x00\x05\x01\x00\x01\x00\x00",
    );
    reading(
        rt,
        b"L 5 of 9 bytes, n 1",
        b"\x00\x00\x00\x05\x01\x00\x01\x00\x01",
    );
    reading(
        rt,
        b"L 10 of 14 bytes, n 1",
        b"\x00\x00\x00\x0a\x01\x00\x01\x00\x01\x00\x00\x00\x00\x00",
    );
}

fn damage(rt: &impl Print) {
    changed(rt, b"L one too small", 3, 12);
    changed(rt, b"L one too large", 3, 14);
    changed(rt, b"L far too large", 0, 255);
    changed(rt, b"version 0", 4, 0);
    changed(rt, b"P3 version 2", 4, 2);
}

fn sizes(rt: &impl Print) {
    sized(rt, b"g 0", 0, 0, 0, 2);
    sized(rt, b"g 1", 0, 1, 0, 2);
    sized(rt, b"g 4096", 16, 0, 0, 2);
    sized(rt, b"g 4097", 16, 1, 0, 2);
    sized(rt, b"g 65535", 255, 255, 0, 2);
    sized(rt, b"n 0", 0, 1, 0, 0);
    sized(rt, b"n 1 of 2", 0, 1, 0, 1);
    sized(rt, b"n 3 of 2", 0, 1, 0, 3);
    sized(rt, b"n 4097 of 2", 0, 1, 16, 1);
}

// The writer's own tests, and their order.
fn lists(rt: &impl Print) {
    let mut out = [170u8; 24];
    let mut list = [0u32; 3];
    list[0] = 0x0100_0007;
    list[1] = 0x1c00_0000;
    list[2] = 0x2900_0000;
    writing(rt, b"list of none", 1, &list[..0], &mut out);
    writing(rt, b"list of one", 1, &list[..1], &mut out);
    writing(rt, b"P2 written", 1, &list[..2], &mut out);
    writing(rt, b"opcode 41 third", 1, &list, &mut out);
    writing(rt, b"g 0 before the list", 0, &list, &mut out);
    writing(rt, b"g 4097 before the list", 4097, &list, &mut out);
    writing(rt, b"g 4096", 4096, &list[..2], &mut out);
    writing(rt, b"g past 16 bits", 65537, &list[..2], &mut out);
    let mut short = [170u8; 16];
    writing(rt, b"the list before the room", 1, &list, &mut short);
    writing(rt, b"16 bytes for 17", 1, &list[..2], &mut short);
    let mut exact = [170u8; 17];
    writing(rt, b"17 bytes for 17", 1, &list[..2], &mut exact);
}

// Writes the first n instructions of a list.
fn some(rt: &impl Print, label: &[u8], cells: usize, list: &[u32], n: usize, out: &mut [u8]) {
    if n <= list.len() {
        writing(rt, label, cells, &list[0..n], out);
    }
}

fn set(list: &mut [u32], at: usize, w: u32) {
    if at < list.len() {
        list[at] = w;
    }
}

// The longest card, and one instruction more.
fn longest(rt: &impl Print) {
    let mut list = [0u32; 4097];
    let mut out = [170u8; 16400];
    some(rt, b"4096 instructions", 4096, &list, 4096, &mut out);
    prefix(rt, b"the longest image", &out, 16393);
    prefix(rt, b"one byte more", &out, 16394);
    some(rt, b"4097 instructions", 4096, &list, 4097, &mut out);
    set(&mut list, 4095, 0x1400_0fff);
    some(rt, b"jump 4095 last", 1, &list, 4096, &mut out);
    prefix(rt, b"jump 4095 last", &out, 16393);
    set(&mut list, 4095, 0x1400_1000);
    some(rt, b"jump 4096 last", 1, &list, 4096, &mut out);
    put(&mut out, 16391, 16);
    put(&mut out, 16392, 0);
    prefix(rt, b"jump 4096 last", &out, 16393);
    put(&mut out, 16389, 41);
    prefix(rt, b"opcode 41 last", &out, 16393);
}

fn main(rt: HostRuntime) {
    prefixes(&rt);
    headers(&rt);
    damage(&rt);
    sizes(&rt);
    words::operands(&rt);
    lists(&rt);
    longest(&rt);
}
