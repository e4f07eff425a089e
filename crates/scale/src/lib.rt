//! Scales: the kinds of value that a rule can have, and the codes that are read on them.
#![tactic(auto)]

ghost use Rattle.std.specs.Prelude.{◌≡◌, ℕ};
ghost use Rattle.scale.specs.Laws.{Ops, Laws};

mod code;
mod margin;
mod pass_fail;

pub use code::Code;
pub use margin::Margin;
pub use pass_fail::PassFail;

/// A scale: a bounded distributive lattice with an involution (a De Morgan algebra), a passing test and a stored form.
pub trait Scale: Copy {
    // What the functions compute. None has a body here, as `or` by `max` could: the order of a scale need not be total.
    ghost ops: { Ops Self };

    /// The least value that is at least both: the join.
    fn or(self, other: Self) -> Self
        ensures { result ≡ ops.or self other };

    /// The greatest value that is at most both: the meet.
    fn and(self, other: Self) -> Self
        ensures { result ≡ ops.and self other };

    /// The opposite value: the involution, which swaps worst and best.
    fn turn_over(self) -> Self
        ensures { result ≡ ops.turned self };

    /// The value below every other.
    fn worst() -> Self
        ensures { result ≡ ops.worst };

    /// The value above every other.
    fn best() -> Self
        ensures { result ≡ ops.best };

    /// Whether two values are equal.
    fn same(self, other: Self) -> bool
        ensures { result ≡ ops.same self other };

    /// Whether the value passes. What is at least a passing value passes too.
    fn passes(self) -> bool
        ensures { result ≡ ops.passes self };

    /// The number by which the value is stored.
    fn kept(self) -> i64
        ensures { result ≡ ops.kept self };

    /// The value of a stored number. Any number gives some value.
    fn restored(number: i64) -> Self
        ensures { result ≡ ops.restored number };

    // What each scale proves of it.
    ghost lawful: { Laws ops };
}

/// A scale on which a code is read against a level.
pub trait TestScale: Scale {
    // What a code reads as against a level, by their numbers.
    ghost reading: { ℕ → ℕ → Self };

    /// What the code reads as against the level.
    fn read(code: Code, level: Code) -> Self
        ensures { result ≡ reading code.value level.value };
}
