//! What the program of cases and that of worked examples share: the page that they print, the words that they read, the boards that
//! these name, and whether two devices are the same.
//!
//! It promises nothing of a bus. What is put on a page is printed, or the program fails (`Page::print`).
#![tactic(auto)]

mod boards;
mod devices;
mod page;
mod words;

pub use boards::{board_in, board_of};
pub use devices::{same_answer, same_device, same_devices, same_registers};
pub use page::Page;
pub use words::{addr, byte, parted, put_said};
