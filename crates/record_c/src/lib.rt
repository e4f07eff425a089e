//! The opening test for programs in C: a byte array is a pointer and a length there. The header is include/comriep.h.
#![tactic(auto)]

ghost use Rattle.std.specs.Prelude.{◌≡◌};
ghost use Rattle.record.specs.Opening.{NumberTold, Opens, PlaceTold};

/// The number of the refusal of these bytes, 0 if they open. A number and no `Result`, and the place by a call of its own, since it is C that
/// calls.
#[unsafe(no_mangle)]
pub extern "C" fn comriep_record_number(bytes: &[u8]) -> u32
    ensures told { NumberTold bytes.now result }
    ensures opens { Opens bytes.now → result ≡ 0 }
    ensures only { result ≡ 0 → Opens bytes.now }
{
    record::comriep_record_number(bytes)
}

/// The place of the refusal of these bytes, 0 if they open.
#[unsafe(no_mangle)]
pub extern "C" fn comriep_record_place(bytes: &[u8]) -> u64
    ensures told { PlaceTold bytes.now result }
    ensures opens { Opens bytes.now → result ≡ 0 }
{
    record::comriep_record_place(bytes)
}

#[cfg(test)]
mod tests {
    use super::*;

    /// The rule of one node, true, and no sample; the same with a byte too many; half of it; and no byte at all.
    #[test]
    fn answers(rt: HostRuntime) {
        let record = [1, 0, 0, 0, 0, 0, 0, 0, 0, 0, 0, 0, 9];
        for (length, number, place) in [(12, 0, 0), (13, 2, 12), (6, 1, 1), (0, 1, 0)] {
            let bytes = &record[..length];
            assert_eq!(rt;
                comriep_record_number(bytes),
                number,
                "number of {length} bytes"
            );
            assert_eq!(rt;
                comriep_record_place(bytes),
                place,
                "place of {length} bytes"
            );
        }
    }
}
