// What has a ghost field imports each `ghost use` at the top of its file; so those of the calls stand in the impl.
ghost use Rattle.std.specs.Prelude.{◌<◌, ◌≤◌, length};

use crate::memory::Cell;
use crate::ring::Ring;
use sample::{Sample, SampleRow};
use scale::Code;

/// The samples of a window: so many positions, which lie in a ring of places from one place on.
#[derive(Clone, Copy)]
pub(crate) struct View<'a> {
    rows: &'a [SampleRow],
    /// The place of position 0.
    start: usize,
    /// How many positions there are.
    pub count: usize,
    ghost begun: { start < length rows.now },
    ghost held: { count ≤ length rows.now },
}

impl<'a> View<'a> {
    ghost use Rattle.std.specs.Prelude.{◌≡◌, ℕ, ◌+◌, ◌*◌, ◌%◌};
    ghost use Rattle.rule.specs.Limits.{largest_channel};
    ghost use Rattle.evaluation.specs.Memory.{cell_at};
    ghost use Rattle.evaluation.specs.Views.{trace_in, gap_in, cell_in};

    // Each call asks for a position of the window, as a read of a slice asks for an index.

    /// The positions from `first` on, in a ring where each lies in the place of its remainder.
    pub(crate) fn new(rows: &'a [SampleRow], first: u64, count: usize) -> View<'a>
        requires some { 0 < length rows.now }
        requires held { count ≤ length rows.now }
        ensures rows { result.rows.now ≡ rows.now }
        ensures start { result.start ≡ first % length rows.now }
        ensures count { result.count ≡ count }
    {
        let start = (first % rows.len() as u64) as usize;
        View { rows, start, count }
    }

    /// How many places the ring has.
    pub(crate) fn size(&self) -> usize
        ensures { result ≡ length self.now.rows.now }
    {
        self.rows.len()
    }

    /// The place of a position: no division, since searches ask for it.
    pub(crate) fn place(&self, k: usize) -> usize
        requires { k < self.now.count }
        ensures is { result ≡ (self.now.start + k) % length self.now.rows.now }
        ensures within { result < length self.now.rows.now }
    {
        let to_end = self.rows.len() - self.start;
        if k < to_end {
            self.start + k
        } else {
            k - to_end
        }
    }

    /// The stamp at a position; one above the limit counts as the limit.
    pub(crate) fn stamp(&self, k: usize) -> u64
        requires { k < self.now.count }
        ensures { result ≡ (trace_in self.now).stamp k }
    {
        let row = self.rows[self.place(k)];
        Sample::nearest_stamp(row.stamp)
    }

    /// How many ticks two positions are apart.
    pub(crate) fn gap(&self, j: usize, k: usize) -> u64
        requires j { j < self.now.count }
        requires k { k < self.now.count }
        ensures { result ≡ gap_in self.now j k }
    {
        self.stamp(j).abs_diff(self.stamp(k))
    }

    /// The code of a channel at a position; one above the largest counts as the largest.
    pub(crate) fn code(&self, k: usize, channel: usize) -> Code
        requires k { k < self.now.count }
        requires channel { channel ≤ largest_channel }
        ensures { result.value ≡ (trace_in self.now).code k channel }
    {
        let row = self.rows[self.place(k)];
        Code::nearest(row.codes[channel])
    }

    /// The ring of a node's cells.
    pub(crate) fn ring<'c>(&self, cells: &'c [Cell], node: u8) -> Ring<'c>
    where
        'a: 'c,
        requires { (node + 1) * length self.now.rows.now ≤ length cells.now }
        ensures view { result.view ≡ self.now }
        ensures cells { (k : ℕ) → cell_in result k ≡ cell_at cells.now (length self.now.rows.now) node (self.now.start + k) }
    {
        let size = self.rows.len();
        Ring {
            view: *self,
            cells: &cells[node as usize * size..][..size],
        }
    }
}
