// The figures that a settlement is made of: what a window of a day comes to, and the windows of several days together.

#![tactic(auto)]

mod figures;
mod windows;

pub use figures::{baseline, window_figure};
pub use windows::Window;
