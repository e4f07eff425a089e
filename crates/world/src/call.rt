use rule::Rule;

/// A call on a watch. It has no `==`, since a rule has none.
#[derive(Clone, Copy, Debug)]
pub enum Call {
    /// Give the watch its rule.
    Arm(Rule),
    /// Accept the source's next sample.
    Draw,
    /// Ask for the ends at a position.
    Look(u64),
    /// Ask for the first untaken position that cannot pass.
    Alarm,
    /// Finish the oldest untaken position.
    Take,
    /// Hand over the oldest reading on the tray.
    Pull,
}
