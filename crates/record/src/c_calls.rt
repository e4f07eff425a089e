// The opening test over a byte slice: number and place of the refusal. The crate record_c hands both to programs in C.
ghost use Rattle.std.specs.Prelude.{◌≡◌, MatchOption};
ghost use Rattle.record.specs.Opening.{Broken, Opens, NumberTold, PlaceTold};

use crate::opening::open;
use refusal::Misfit;
use rule::Rule;

/// The refusal of these bytes; none if they open.
fn refused(bytes: &[u8]) -> Option<Misfit>
    ensures { MatchOption result (Opens bytes.now) (λ m. Broken bytes.now m) }
{
    open(bytes, &mut Rule::new()).err()
}

/// The number of the refusal of these bytes, 0 if they open. A number and not a `Result`, and a function of its own beside that of the place,
/// since C calls both.
pub fn comriep_record_number(bytes: &[u8]) -> u32
    ensures told { NumberTold bytes.now result }
    ensures opens { Opens bytes.now → result ≡ 0 }
    ensures only { result ≡ 0 → Opens bytes.now }
{
    refused(bytes).map_or(0, |misfit| misfit.refusal.number())
}

/// The place of the refusal of these bytes, 0 if they open.
pub fn comriep_record_place(bytes: &[u8]) -> u64
    ensures told { PlaceTold bytes.now result }
    ensures opens { Opens bytes.now → result ≡ 0 }
{
    refused(bytes).map_or(0, |misfit| misfit.place)
}
