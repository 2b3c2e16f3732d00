// The answer of a walk: rows, slots or records of one size, one behind the other.
ghost use Rattle.std.specs.Prelude.{◌≡◌, ◌*◌, ◌≤◌, cond, length, ltb};
ghost use Rattle.buffer.specs.Splice.{splice};

use buffer::moves::copy_from;

// All rows are counted, and the first `room` of them written.
#[derive(Drop)]
pub struct Output<'a> {
    pub bytes: &'a mut [u8],
    pub room: usize,
    pub rows: usize,
}

impl Output<'_> {
    ghost use Rattle.gather.specs.Outputs.{CanPut, RowPut};

    // Writes a row behind the others of its length, if there is room.
    pub fn write(&mut self, row: &[u8])
        requires { self.old.room * length row.now ≤ length self.old.bytes.now }
        ensures bytes { self.new.bytes.now ≡ cond (ltb self.old.rows self.old.room) (splice self.old.bytes.now (self.old.rows * length row.now) row.now) self.old.bytes.now }
        ensures same_reference { self.new.bytes.ghost_name ≡ self.old.bytes.ghost_name }
        ensures counts { (self.new.room ≡ self.old.room) × (self.new.rows ≡ self.old.rows) }
    {
        if self.rows < self.room {
            copy_from(self.bytes, self.rows * row.len(), row);
        }
    }

    // Puts a row behind the others of its length: writes it if there is room, and counts it.
    pub fn put(&mut self, row: &[u8])
        requires { CanPut (length row.now) self.old }
        ensures { RowPut (length row.now) row.now self.old self.new }
    {
        self.write(row);
        self.rows += 1;
    }
}
