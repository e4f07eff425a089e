// Alone in its file, since what has a ghost field imports each `ghost use` at the top.
ghost use Rattle.std.specs.Prelude.{◌+◌, ◌^◌, ◌<◌, ◌≤◌};

/// What is held before a draw: positions from `oldest` on, up to `accepted`; those from `taken` on are untaken, and the newest stamp
/// is `newest`.
#[derive(Clone, Copy)]
pub(crate) struct Before {
    pub oldest: u64,
    pub accepted: u64,
    pub taken: u64,
    pub newest: u64,
    ghost begun: { oldest ≤ accepted },
    ghost near: { accepted + 1 < 2 ^ 64 },
}
