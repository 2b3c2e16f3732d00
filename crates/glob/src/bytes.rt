// The bytes with a meaning of their own: `/` begins a label, `*` and `**` are wild.
pub const SLASH: u8 = 0x2F;

pub const STAR: u8 = 0x2A;
