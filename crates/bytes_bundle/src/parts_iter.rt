// The parts of a bundle in their order, each lent as it stands there.
ghost use Rattle.std.specs.Prelude.{◌≡◌, true, ◌*◌, ◌≤◌, length};
ghost use Rattle.bytes_bundle.specs.Contents.{lengths as sizes, fills};

#[derive(Clone, Copy)]
pub struct Parts<'a> {
    // the lengths of the parts that are left, w bytes each, and the parts
    pub(crate) lengths: &'a [u8],
    pub(crate) bytes: &'a [u8],
    pub(crate) left: usize,
    pub(crate) w: usize,
    ghost narrow: { w ≤ 4 },
    ghost listed: { left * w ≤ length lengths.now },
    ghost filled: { fills (sizes w left lengths.now) (length bytes.now) ≡ true },
}

impl<'a> Iterator for Parts<'a> {
    ghost use Rattle.std.specs.Iterator.{YieldsFirstRef, item_count};
    ghost use Rattle.bytes_bundle.specs.Left.{parts_left};

    type Item = &'a [u8];

    ghost next_gives = { YieldsFirstRef parts_left };

    ghost remaining = { item_count parts_left };

    fn next(&mut self) -> Option<&'a [u8]> {
        if self.left == 0 {
            return None;
        }
        let k = bytes_wire::get(self.lengths, 0, self.w) as usize;
        let (_, lengths) = self.lengths.split_at(self.w);
        let (part, bytes) = self.bytes.split_at(k);
        self.lengths = lengths;
        self.bytes = bytes;
        self.left -= 1;
        Some(part)
    }
}
