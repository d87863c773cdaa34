// The traits of what tells ranges, and of what takes entries too.
ghost use Rattle.std.specs.Prelude.{◌≡◌, ℕ, List, length};
ghost use Rattle.reading.specs.Ends.{Ends, ends};
ghost use Rattle.store.specs.Stored.{at, stored, Entered};

use reading::Range;
use refusal::Refusal;

// Tells the range of each cell, and alters nothing.
pub trait Readings {
    ghost ranges: { Self → List Ends };

    fn cells(&self) -> usize
        ensures { result ≡ length (ranges self.now) };

    // The widest range beyond the cells.
    fn range(&self, cell: usize) -> Range
        ensures { ends result ≡ at (ranges self.now) cell };
}

// Takes entries, up to its capacity of cells that are not widest.
pub trait Store: Readings {
    ghost most: { Self → ℕ };

    fn capacity(&self) -> usize
        ensures { result ≡ most self.now };

    fn enter(&mut self, cell: usize, range: Range) -> Result<(), Refusal>
        ensures { Entered (stored (most self.old) (Self.Readings.ranges self.old)) cell (ends range) result (stored (most self.new) (Self.Readings.ranges self.new)) };
}
