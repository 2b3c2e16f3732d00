// A suffix of a leaf where it is read.
ghost use Rattle.std.specs.Prelude.{◌≡◌, length};
ghost use Rattle.buffer.specs.Sizes.{reference_size};
ghost use Rattle.trie_theory.specs.Lookup.{same_key};
ghost use Rattle.trie_read.specs.Shape.{key_of};

// What is left of its key, and the bytes of the later suffixes.
#[derive(Clone, Copy, Debug)]
pub struct Suffix<'a> {
    pub value: &'a [u8],
    pub path: &'a [u8],
    pub reference: &'a [u8],
    pub rest: &'a [u8],
    pub ghost twenty: { length reference.now ≡ reference_size },
}

impl Suffix<'_> {
    // Is it this key?
    #[tactic(auto, using(crate::proofs::Among::is_all, crate::proofs::Among::is_path, crate::proofs::Among::is_value))]
    pub(crate) fn is(&self, value: &[u8], path: &[u8], reference: &[u8]) -> bool
        ensures { result ≡ same_key (key_of value.now path.now reference.now) (key_of self.now.value.now self.now.path.now self.now.reference.now) }
    {
        value == self.value && path == self.path && reference == self.reference
    }
}
