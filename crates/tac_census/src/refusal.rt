//! Why one more connection isn't taken.

/// Why a connection isn't taken, judged in this order.
#[derive(Clone, Copy, Debug, PartialEq, Eq)]
pub enum Refusal {
    /// There are as many as may be in all.
    Full,
    /// There are as many of its address as may be of that one, or more.
    AddressFull,
    /// Memory ran out.
    Memory,
}
