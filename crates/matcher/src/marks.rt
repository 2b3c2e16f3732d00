// The table of 256 marks: true for each byte of a label, 20 to 7E and 80 to FF hex without `/` and `*`.
pub const LABEL_BYTES: [bool; 256] = [
    // 00 to 0F
    false, false, false, false, false, false, false, false, false, false, false, false, false,
    false, false, false,
    // 10 to 1F
    false, false, false, false, false, false, false, false, false, false, false, false, false,
    false, false, false,
    // 20 to 2F
    true, true, true, true, true, true, true, true, true, true, false, true, true, true, true,
    false,
    // 30 to 3F
    true, true, true, true, true, true, true, true, true, true, true, true, true, true, true, true,
    // 40 to 4F
    true, true, true, true, true, true, true, true, true, true, true, true, true, true, true, true,
    // 50 to 5F
    true, true, true, true, true, true, true, true, true, true, true, true, true, true, true, true,
    // 60 to 6F
    true, true, true, true, true, true, true, true, true, true, true, true, true, true, true, true,
    // 70 to 7F
    true, true, true, true, true, true, true, true, true, true, true, true, true, true, true,
    false,
    // 80 to 8F
    true, true, true, true, true, true, true, true, true, true, true, true, true, true, true, true,
    // 90 to 9F
    true, true, true, true, true, true, true, true, true, true, true, true, true, true, true, true,
    // A0 to AF
    true, true, true, true, true, true, true, true, true, true, true, true, true, true, true, true,
    // B0 to BF
    true, true, true, true, true, true, true, true, true, true, true, true, true, true, true, true,
    // C0 to CF
    true, true, true, true, true, true, true, true, true, true, true, true, true, true, true, true,
    // D0 to DF
    true, true, true, true, true, true, true, true, true, true, true, true, true, true, true, true,
    // E0 to EF
    true, true, true, true, true, true, true, true, true, true, true, true, true, true, true, true,
    // F0 to FF
    true, true, true, true, true, true, true, true, true, true, true, true, true, true, true, true,
];
