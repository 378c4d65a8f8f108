// The view of the delay lines (lines.rs, `Lines`): the lent delay list, each slot's ring length, the cursor and the slot. A view whose
// length is no power of two from 1,024 to 65,536, or whose slot ends past the list, reads 0 and writes nothing (specs/View.antt).
#![tactic(auto)]

ghost use Rattle.std.specs.Prelude.{◌≡◌};
ghost use Rattle.lines.specs.Lines.{write_of};
ghost use Rattle.view.specs.View.{ReadLeaves};

#[derive(Drop)]
pub struct Lines<'a> {
    // Every slot's ring, `len` values each.
    pub buf: &'a mut [f32],
    // Each slot's ring length.
    pub len: usize,
    // Where this frame's sample is written; delays count back from it.
    pub cursor: usize,
    pub slot: usize,
}

impl<'a> Lines<'a> {
    // The slot's ring, read `delay` samples before the cursor. The list is as it was.
    pub fn read(self, delay: f32) -> f32
        ensures { ReadLeaves self.entry.buf.now self.entry.len self.entry.cursor self.entry.slot delay result self.exit.0.now }
    {
        let Lines {
            buf,
            len,
            cursor,
            slot,
        } = self;
        lines::read_at(buf, len, cursor, slot, delay)
    }

    // Writes this frame's `value` to the cursor's cell of the slot's ring.
    pub fn write(self, value: f32)
        ensures { self.exit.0.now ≡ write_of self.entry.buf.now self.entry.len self.entry.cursor self.entry.slot value }
    {
        let Lines {
            buf,
            len,
            cursor,
            slot,
        } = self;
        lines::write_at(buf, len, cursor, slot, value);
    }
}

// A read through a view, on plain parameters: the borrow checker covers whoever calls this.
pub fn read_through(buf: &mut [f32], len: usize, cursor: usize, slot: usize, delay: f32) -> f32
    ensures { ReadLeaves buf.old len cursor slot delay result buf.new }
{
    Lines {
        buf,
        len,
        cursor,
        slot,
    }
    .read(delay)
}

// A write through a view, likewise.
pub fn write_through(buf: &mut [f32], len: usize, cursor: usize, slot: usize, value: f32)
    ensures { buf.new ≡ write_of buf.old len cursor slot value }
{
    Lines {
        buf,
        len,
        cursor,
        slot,
    }
    .write(value)
}
