// The parts of a record, read from their bytes.
ghost use Rattle.std.specs.Prelude.{◌≡◌, ◌<◌, length, MatchOption};
ghost use Rattle.record.specs.Format.{node_bytes, sample_bytes, samples_then};

use rule::NodeRow;
use sample::SampleRow;

/// The bytes of a node.
pub(crate) const NODE: usize = 7;

/// The bytes of a sample.
pub(crate) const SAMPLE: usize = 16;

pub(crate) fn read_node(bytes: &[u8; NODE]) -> NodeRow
    ensures { node_bytes result ≡ bytes.now }
{
    let [kind, first, second, a, b, c, d] = *bytes;
    NodeRow {
        kind,
        first,
        second,
        low: u16::from_le_bytes([a, b]),
        high: u16::from_le_bytes([c, d]),
    }
}

/// The count of samples, and the bytes after it; none if there are too few bytes for it.
pub(crate) fn split_count(bytes: &[u8]) -> Option<(u32, &[u8])>
    ensures { MatchOption result (length bytes.now < 4) (λ p. bytes.now ≡ samples_then p.0 p.1.now) }
{
    let (count, rest) = bytes.split_first_chunk()?;
    Some((u32::from_le_bytes(*count), rest))
}

pub(crate) fn read_sample(bytes: &[u8; SAMPLE]) -> SampleRow
    ensures spells { sample_bytes result ≡ bytes.now }
    ensures four { length result.codes ≡ 4 }
{
    let [a, b, c, d, e, f, g, h, i, j, k, l, m, n, o, p] = *bytes;
    SampleRow {
        stamp: u64::from_le_bytes([a, b, c, d, e, f, g, h]),
        codes: [
            u16::from_le_bytes([i, j]),
            u16::from_le_bytes([k, l]),
            u16::from_le_bytes([m, n]),
            u16::from_le_bytes([o, p]),
        ],
    }
}
