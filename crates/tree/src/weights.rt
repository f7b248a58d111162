//! The stack that a call of a function may take, by its source alone.

ghost use Rattle.std.specs.Prelude.{◌≡◌};
ghost use Rattle.tree.specs.Counts.{weight_of};

/// The weight of a function whose definition has `nodes` nodes, and whose parameters and automatic objects take
/// `bytes` bytes, each of them rounded up to a multiple of 4: `16 * ceil((64 + bytes + 16 * nodes) / 16)`.
pub fn weight(nodes: u32, bytes: u32) -> u64
    ensures { result ≡ weight_of nodes bytes }
{
    let least = 64 + u64::from(bytes) + 16 * u64::from(nodes);
    (least + 15) / 16 * 16
}
