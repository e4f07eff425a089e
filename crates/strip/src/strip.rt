// The struct's ghost fields import each `ghost use` at the top of this file; what else the calls cite is named in their blocks.
ghost use Rattle.std.specs.Prelude.{◌+◌, ◌<◌, ◌≤◌, length};
ghost use Rattle.sample.specs.Limits.{stamp_limit};

use crate::reading::ReadingRow;
use crate::stamped::Stamped;

mod records;

/// A ring buffer of records in lent memory. It has ever taken `taken` records, the last with the stamp `last` (0 before the first), and still
/// keeps the newest `kept` of them. Record n, counted from 0, lies at place n modulo the number of places. Stamps rise and stay below
/// their limit, so that no count can overflow.
#[derive(Drop)]
pub struct Strip<'a, R> {
    rows: &'a mut [R],
    taken: u64,
    kept: usize,
    last: u64,
    ghost fits: { kept ≤ length rows.now },
    ghost some: { kept ≤ taken },
    ghost climbs: { taken ≤ last + 1 },
    ghost early: { last < stamp_limit },
}

/// A ring buffer of finished readings, until they are pulled.
pub type Tray<'a> = Strip<'a, ReadingRow>;

impl<'a, R: Stamped> Strip<'a, R> {
    ghost use Rattle.std.specs.Prelude.{◌≡◌};
    ghost use Rattle.strip.specs.Ring.{ring_of, unused};

    /// A strip over the memory that has taken nothing yet. What lies in the memory does not matter.
    pub fn new(rows: &'a mut [R]) -> Strip<'a, R>
        ensures same { result.rows.ghost_name ≡ rows.entry.ghost_name }
        ensures made { ring_of result ≡ unused rows.old }
    {
        Strip {
            rows,
            taken: 0,
            kept: 0,
            last: 0,
        }
    }

    /// How many records the memory has places for.
    pub fn places(&self) -> usize
        ensures { result ≡ length self.now.rows.now }
    {
        self.rows.len()
    }

    /// How many records the strip ever took.
    pub fn taken(&self) -> u64
        ensures { result ≡ self.now.taken }
    {
        self.taken
    }

    /// How many records the strip still keeps.
    pub fn kept(&self) -> usize
        ensures { result ≡ self.now.kept }
    {
        self.kept
    }

    /// The stamp of the last record that the strip ever took, and 0 before the first.
    pub fn last(&self) -> u64
        ensures { result ≡ self.now.last }
    {
        self.last
    }

    /// The whole memory, place by place.
    pub fn rows(&self) -> &[R]
        ensures { result.now ≡ self.now.rows.now }
    {
        &*self.rows
    }
}
