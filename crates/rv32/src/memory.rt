//! Memory: segments of bytes, each with its permissions. Little endian (unprivileged ISA manual, 2.6).

ghost use Rattle.std.specs.Prelude.{◌≡◌, ◌<◌, ◌≤◌, ◌+◌, ◌*◌, ◌-◌, ◌/◌, ◌%◌, ◌^◌, ℕ, length, true, false, vec_len, IfSome, IfNone, option_map};
ghost use Rattle.std.specs.List.{HoldsAt};

/// The bytes from the address `start` on, which end at 2^32 at most, and their permissions.
#[derive(Drop)]
pub struct Segment {
    pub start: u32,
    pub bytes: Vec<u8>,
    pub readable: bool,
    pub writable: bool,
    pub executable: bool,
    ghost fits: { start + vec_len bytes ≤ 2 ^ 32 },
}

mod layout;
mod map;

pub use layout::is_laid_out;
pub use map::Memory;
