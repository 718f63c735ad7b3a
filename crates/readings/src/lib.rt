// Pond readings, for the extended payload: what one is, in numbers too, and the balance of the litres.
#![tactic(auto)]

mod depth;
mod litres;
mod numbers;

pub use depth::{bits_of, depth_of_bits, is_allowed};
pub use litres::{balance, magnitude};
pub use numbers::{depth_reading, kind_of, measure_allowed, measure_of, reading_of};

// A depth in metres, or the number of a fault.
#[derive(Clone, Copy, Debug, PartialEq)]
pub enum Measured {
    Depth(f32),
    Fault(u16),
}

// What a pond's gauge has measured, and the litres that went in and out beside it.
#[derive(Clone, Copy, Debug, PartialEq)]
pub struct Reading {
    pub measured: Measured,
    pub inflow: u32,
    pub outflow: u32,
}
