// P1 to P5 of the paper, as images: the writer gives none of those that are refused.
use crate::show::image_line;

const P2: [u8; 17] = [0, 0, 0, 13, 1, 0, 1, 0, 2, 1, 0, 0, 7, 28, 0, 0, 0];

const P3: [u8; 17] = [0, 0, 0, 13, 2, 0, 1, 0, 2, 1, 0, 0, 7, 28, 0, 0, 0];

const P4: [u8; 17] = [0, 0, 0, 13, 1, 0, 1, 0, 2, 1, 0, 0, 7, 20, 0, 0, 2];

const P5: [u8; 17] = [0, 0, 0, 13, 1, 0, 1, 0, 2, 41, 0, 0, 7, 28, 0, 0, 0];

pub fn refusals(rt: &impl Print) {
    image_line(rt, "P1 no bytes: ", b"");
    image_line(rt, "P2 loadc 7, exit: ", &P2);
    image_line(rt, "P3 version 2: ", &P3);
    image_line(rt, "P4 jump 2 as second of two: ", &P4);
    image_line(rt, "P5 opcode 41 first: ", &P5);
}
