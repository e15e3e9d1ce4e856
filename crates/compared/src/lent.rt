// The memory of a box of 32 threads, as it is lent to the machine.
use crate::layout::{STORE, TABLES, VALUES};
use cma::Outcome;
use machine::Registers;

#[derive(Drop)]
pub struct Lent {
    pub store: [i32; STORE],
    pub tables: [usize; TABLES],
    pub values: [i32; VALUES],
}

impl Lent {
    pub fn new() -> Self {
        Lent {
            store: [0; STORE],
            tables: [0; TABLES],
            values: [0; VALUES],
        }
    }

    pub fn set_up(&mut self, image: &[u8]) -> Outcome {
        cma::set_up(image, &mut self.store, &mut self.tables, &mut self.values)
    }

    pub fn step(&mut self, image: &[u8], r: Registers) -> Outcome {
        cma::step(
            image,
            &mut self.store,
            &mut self.tables,
            &mut self.values,
            r,
        )
    }
}
