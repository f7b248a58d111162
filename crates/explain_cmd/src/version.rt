//! What the program is. Made by share/version.sh.

/// What `zkc --version` prints behind the name: the version, and the kit that it is proved with.
pub const VERSION: &str = "1.1, proved with the logic dac8208d650f15bf";
