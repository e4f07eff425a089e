// The records of a strip: reading, taking in and letting go. Each call that changes a strip says (`same`) that its memory is still that
// which was lent: a struct that holds a `&mut` can say so in no other way.
ghost use Rattle.std.specs.Prelude.{◌≡◌, ◌-◌, ◌<◌, [], ◌∷◌, ◌++◌, length, drop, Some, None, Ok, MatchResult, slice_index_or};
ghost use Rattle.refusal.specs.declared.Refusal.TheVariants.{TrayEmpty};
ghost use Rattle.strip.specs.Ring.{Keeps, contents, oldest, place_of, pushed, pushing, ring_of, with_newest, without_oldest};

use crate::stamped::Stamped;
use crate::strip::Strip;
use refusal::Refusal;

impl<'a, R: Stamped> Strip<'a, R> {
    /// The record of a number, counted from 0, if the strip still keeps it.
    pub fn get(&self, number: u64) -> Option<R>
        ensures { elim result [ Some row ↦ Keeps (ring_of self.now) number × (row ≡ slice_index_or self.now.rows.now (place_of (ring_of self.now) number) row) | None ↦ (Keeps (ring_of self.now) number → ⊥) ] }
    {
        if !(self.oldest()..self.taken).contains(&number) {
            return None;
        }
        let place = self.place(number);
        let rows: &[R] = self.rows;
        Some(rows[place])
    }

    /// Takes a record in. Refused, and nothing changes, if there is no free place or else if the stamp is not later than the last one taken.
    pub fn push(&mut self, row: R) -> Result<(), Refusal>
        ensures same { self.new.rows.ghost_name ≡ self.old.rows.ghost_name }
        ensures answer { result ≡ pushing (ring_of self.old) (R.stamped row) }
        ensures moved { ring_of self.new ≡ pushed (ring_of self.old) (R.stamped row) row }
        ensures listed { result ≡ Ok tt → contents (ring_of self.new) ≡ contents (ring_of self.old) ++ row ∷ [] }
    {
        let stamp = row.stamp();
        if self.kept == self.rows.len() {
            return Err(Refusal::TrayFull);
        }
        if self.taken > 0 && stamp <= self.last {
            return Err(Refusal::Backward);
        }
        let next = self.taken;
        let place = self.place(next);
        self.rows[place] = row;
        self.taken += 1;
        self.kept += 1;
        self.last = stamp;
        Ok(())
    }

    /// Lets the oldest record go and answers it. Refused, and nothing changes, if there is none.
    pub fn remove(&mut self) -> Result<R, Refusal>
        ensures same { self.new.rows.ghost_name ≡ self.old.rows.ghost_name }
        ensures answer { MatchResult result (λ row. (0 < self.old.kept) × (row ≡ slice_index_or self.old.rows.now (place_of (ring_of self.old) (oldest (ring_of self.old))) row)) (λ why. (why ≡ TrayEmpty) × (self.old.kept ≡ 0)) }
        ensures moved { MatchResult result (λ row. ring_of self.new ≡ without_oldest (ring_of self.old)) (λ why. ring_of self.new ≡ ring_of self.old) }
        ensures listed { MatchResult result (λ row. contents (ring_of self.old) ≡ row ∷ contents (ring_of self.new)) (λ why. contents (ring_of self.old) ≡ []) }
    {
        let oldest = self.oldest();
        let row = self.get(oldest).ok_or(Refusal::TrayEmpty)?;
        self.kept -= 1;
        Ok(row)
    }

    /// Lets the oldest records go until at most `count` are kept.
    pub fn keep_newest(&mut self, count: usize)
        ensures same { self.new.rows.ghost_name ≡ self.old.rows.ghost_name }
        ensures moved { ring_of self.new ≡ with_newest (ring_of self.old) count }
        ensures listed { contents (ring_of self.new) ≡ drop (self.old.kept - count) (contents (ring_of self.old)) }
    {
        self.kept = self.kept.min(count);
    }

    /// The number of the oldest record that the strip keeps; where it keeps none, of the next that it takes.
    fn oldest(&self) -> u64
        ensures { result ≡ oldest (ring_of self.now) }
    {
        self.taken - self.kept as u64
    }

    /// The place of the record of a number.
    fn place(&self, number: u64) -> usize
        requires { 0 < length self.now.rows.now }
        ensures { result ≡ place_of (ring_of self.now) number }
    {
        (number % self.rows.len() as u64) as usize
    }
}
