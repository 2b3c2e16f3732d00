// An entry whose path is no longer than it may be. `twenty` says the array's length where an entry is only passed on.
ghost use Rattle.std.specs.Prelude.{◌≡◌, ◌≤◌, length};
ghost use Rattle.matcher.specs.Bytes.{path_limit};
ghost use Rattle.rows.specs.Sizes.{reference_size};

use rows::sizes::REFERENCE_SIZE;

#[derive(Clone, Copy)]
pub struct Entry<'a> {
    pub path: &'a [u8],
    pub value: u64,
    pub reference: &'a [u8; REFERENCE_SIZE],
    pub ghost short: { length path.now ≤ path_limit },
    pub ghost twenty: { length reference.now ≡ reference_size },
}
