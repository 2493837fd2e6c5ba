// Answers that name the law by which they were given.
use crate::laws::Law;
use quantity::{Celsius, Ratio};

// A step, and the law by which it was read.
#[derive(Clone, Copy)]
pub struct Reading {
    pub law: Law,
    pub step: Celsius,
}

// A ratio, and the law by which it is that of a step.
#[derive(Clone, Copy)]
pub struct ForwardRatio {
    pub law: Law,
    pub ratio: Ratio,
}
