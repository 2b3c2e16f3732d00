// The key of an entry in a trie, or what is left of one below nodes.
ghost use Rattle.std.specs.Prelude.{◌≡◌, ◌+◌, ◌≤◌, ◌<◌, length, drop};
ghost use Rattle.buffer.specs.Sizes.{reference_size};

use buffer::sizes::REFERENCE_SIZE;

// Bytes of its value, bytes of its path with the end byte, and its reference. `twenty` says the array's length where a key is only passed on.
#[derive(Clone, Copy)]
pub struct Key<'a> {
    pub value: &'a [u8],
    pub path: &'a [u8],
    pub reference: &'a [u8; REFERENCE_SIZE],
    pub ghost value_fits: { length value.now < 256 },
    pub ghost path_fits: { length path.now < 256 },
    pub ghost twenty: { length reference.now ≡ reference_size },
}

impl<'a> Key<'a> {
    // The bytes of both strings.
    pub fn size(&self) -> usize
        ensures { result ≡ length self.now.value.now + length self.now.path.now }
    {
        self.value.len() + self.path.len()
    }

    // What is left below a node that takes so many bytes of the value and of the path.
    pub fn rest(&self, value: usize, path: usize) -> Key<'a>
        requires { (value ≤ length self.now.value.now) × (path ≤ length self.now.path.now) }
        ensures { (result.value.now ≡ drop value self.now.value.now) × (result.path.now ≡ drop path self.now.path.now) × (result.reference.now ≡ self.now.reference.now) }
    {
        Key {
            value: &self.value[value..],
            path: &self.path[path..],
            reference: self.reference,
        }
    }
}
