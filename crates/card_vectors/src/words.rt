// Each opcode's operands on both sides of its rule, as the second of two instructions, read and written.
use crate::show::{reading, writing};

fn second(rt: &impl Print, label: &[u8], w: u32) {
    let list = [0u32, w];
    let mut out = [0u8; 17];
    writing(rt, label, 1, &list, &mut out);
    let mut image = [0, 0, 0, 13, 1, 0, 1, 0, 2, 0, 0, 0, 0, 0, 0, 0, 0];
    image[13] = (w / 16777216) as u8;
    image[14] = (w / 65536 % 256) as u8;
    image[15] = (w / 256 % 256) as u8;
    image[16] = (w % 256) as u8;
    reading(rt, label, &image);
}

fn plain(rt: &impl Print) {
    second(rt, b"halt 0", 0x0000_0000);
    second(rt, b"halt 1", 0x0000_0001);
    second(rt, b"halt -1", 0x00ff_ffff);
    second(rt, b"pop 1", 0x0700_0001);
    second(rt, b"mark 1", 0x1600_0001);
    second(rt, b"loadc 8388607", 0x017f_ffff);
    second(rt, b"loadc -8388608", 0x0180_0000);
}

fn offsets(rt: &impl Print) {
    second(rt, b"loadr 127", 0x0400_007f);
    second(rt, b"loadr 128", 0x0400_0080);
    second(rt, b"loadr -128", 0x04ff_ff80);
    second(rt, b"loadr -129", 0x04ff_ff7f);
    second(rt, b"storer 127", 0x0500_007f);
    second(rt, b"storer 128", 0x0500_0080);
    second(rt, b"storer -128", 0x05ff_ff80);
    second(rt, b"storer -129", 0x05ff_ff7f);
}

fn counts(rt: &impl Print) {
    second(rt, b"alloc 127", 0x0600_007f);
    second(rt, b"alloc 128", 0x0600_0080);
    second(rt, b"alloc 0", 0x0600_0000);
    second(rt, b"alloc -1", 0x06ff_ffff);
}

fn targets(rt: &impl Print) {
    second(rt, b"jump 1", 0x1400_0001);
    second(rt, b"P4 jump 2", 0x1400_0002);
    second(rt, b"jump -1", 0x14ff_ffff);
    second(rt, b"jumpz 1", 0x1500_0001);
    second(rt, b"jumpz 2", 0x1500_0002);
}

fn opcodes(rt: &impl Print) {
    second(rt, b"broadcast 0", 0x2500_0000);
    second(rt, b"broadcast 1", 0x2500_0001);
    second(rt, b"down 0", 0x2800_0000);
    second(rt, b"down 1", 0x2800_0001);
    second(rt, b"opcode 41, operand 0", 0x2900_0000);
    second(rt, b"opcode 41, operand 1", 0x2900_0001);
    second(rt, b"opcode 255", 0xff00_0000);
}

pub fn operands(rt: &impl Print) {
    plain(rt);
    offsets(rt);
    counts(rt);
    targets(rt);
    opcodes(rt);
}
