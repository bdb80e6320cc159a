//! The word machine: instructions, programs, their images, and a thread's core.
#![tactic(auto)]

mod cores;
mod courses;
mod crossing;
mod image;
mod image_fault;
mod image_writing;
mod input_fault;
mod input_reading;
mod inputs;
mod laws;
mod local_instr;
mod program;
mod reading;

pub use crate::cores::{Core, RunReport};
pub use crate::image::{image_law, images_differ, read_image};
pub use crate::image_fault::{ImageFault, ImageKind};
pub use crate::image_writing::write_image;
pub use crate::input_fault::{InputFault, InputKind};
pub use crate::input_reading::{inputs_law, read_inputs};
pub use crate::inputs::{Inputs, MOST_INPUTS};
pub use crate::laws::{input_law, machine_law};
pub use crate::program::{Instr, Limits, OPS, Op, Program};
pub use crate::reading::numbers_of;
pub use replay_model::{Access, End, Want};
