// What a line of `fieldlog` asks for. `Add` has no struct of its own: `nivruska::add`, a row and a Key take its fields one by one.
use rows::sizes::REFERENCE_SIZE;

#[derive(Clone, Copy, PartialEq, Eq, Debug)]
pub enum Command<'a> {
    Setup {
        m: u64,
        l: u64,
        tau: u64,
    },
    Add {
        value: u64,
        reference: [u8; REFERENCE_SIZE],
        path: &'a [u8],
    },
    Search {
        low: u64,
        high: u64,
        pattern: &'a [u8],
    },
}
