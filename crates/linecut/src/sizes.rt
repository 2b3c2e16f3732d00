// The sizes of specs/Sizes.antt, under the same names.
pub const LINE_LIMIT: usize = 512;
