// The samples of a record, as a source.
ghost use Rattle.record.specs.Coming.{Comes};
ghost use Rattle.record.specs.Reading.{coming_of, fault, Seen};
ghost use Rattle.std.specs.Prelude.{◌≡◌};
ghost use Rattle.sample.specs.Coming.{Coming};

use crate::format::{SAMPLE, read_sample};
use refusal::{Fault, Refusal};
use sample::{Ending, Sample, Source};

/// The samples that stand in a record from a place on. It ends dry after the last byte, in a fault at a broken sample
/// (range) or at too few bytes for one (cut). It does not ask how many samples the record says it has.
#[derive(Drop)]
pub struct RecordSource<'a> {
    // The whole record with a place beside, and not the bytes that are left: the place of a fault counts from the first byte.
    bytes: &'a [u8],
    at: usize,
}

impl<'a> RecordSource<'a> {
    /// The source of a record's bytes from a start place on: none and dry where that is past the end.
    pub fn new(bytes: &'a [u8], start: usize) -> RecordSource<'a>
        ensures comes { Comes bytes.now start (coming_of result) }
        ensures only { (coming : Coming) → Comes bytes.now start coming → coming_of result ≡ coming }
    {
        let at = start.min(bytes.len());
        RecordSource { bytes, at }
    }
}

/// The ending with a refusal's number at a place; no `From`, since it takes both.
fn fault_at(why: Refusal, place: usize) -> Ending
    ensures { result ≡ fault why place }
{
    Ending::Fault(Fault {
        number: why.number(),
        place: place as u64,
    })
}

/// The sample at a place, or how the record ends there.
fn sample_at(bytes: &[u8], at: usize) -> Result<Sample, Ending>
    ensures { Seen bytes.now at result }
{
    if at >= bytes.len() {
        return Err(Ending::Dry);
    }
    let Some(first) = bytes[at..].first_chunk() else {
        return Err(fault_at(Refusal::Cut, at));
    };
    let row = read_sample(first);
    Sample::new(row.stamp, row.codes).map_err(|_| fault_at(Refusal::Range, at))
}

impl<'a> Source for RecordSource<'a> {
    ghost meaning = { coming_of };

    fn peek(&mut self) -> Result<Sample, Ending> {
        sample_at(self.bytes, self.at)
    }

    fn step(&mut self) {
        if sample_at(self.bytes, self.at).is_ok() {
            self.at += SAMPLE;
        }
    }
}
