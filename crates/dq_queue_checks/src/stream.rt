mod clocks;
mod memory;
mod rows;
mod steps;
mod streams;

use crate::same;
