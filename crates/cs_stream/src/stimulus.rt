// Rows of bits.
ghost use Rattle.std.specs.Prelude.{◌≡◌, ◌*◌, ◌<◌, [], length, slice_index_or};

use cs_base::Sequence;

/// `count` rows of `width` bits each, row by row.
#[derive(Debug, Drop)]
pub struct Stimulus {
    pub width: usize,
    pub count: usize,
    pub bits: Sequence<bool>,
    pub ghost whole: { length bits ≡ count * width },
}

impl Stimulus {
    ghost use Rattle.cs_stream.specs.Rows.{rows_of};

    /// The row at this place, counted from 0.
    pub fn row(&self, place: usize) -> &[bool]
        requires { place < self.now.count }
        ensures { result.now ≡ slice_index_or (rows_of self.now) place [] }
    {
        let bits = self.bits.as_slice();
        let start = place * self.width;
        &bits[start..start + self.width]
    }
}
