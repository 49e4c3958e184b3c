// What comes from outside: image files and scenario files.
#![tactic(auto)]

mod image_error;
mod image_loading;
mod image_reading;
#[cfg(test)]
mod image_tests;
mod image_why;
mod image_writing;
pub mod laws;
mod line_meaning;
mod lines;
mod numbers;
mod opening;
mod scenario_error;
mod scenario_reading;
#[cfg(test)]
mod scenario_tests;
mod scenario_why;

pub use image_error::ImageError;
pub use image_loading::load_image;
pub use image_reading::read_image;
pub use image_why::ImageWhy;
pub use image_writing::write_image;
pub use numbers::number;
pub use scenario_error::ScenarioError;
pub use scenario_reading::{MAX_EVENTS, read_scenario};
pub use scenario_why::ScenarioWhy;
