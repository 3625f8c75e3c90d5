// The job that is run where none is given.

// Both codes at work: words encoded, one and two places struck, and what each verdict is.
pub(crate) const DEFAULT_JOB: &[u8] =
    b"# The Am2960 code: one struck place is mended, two are found.
code am2960
checks 0              # the checks of 0 are C1 and C2, 4 + 8
checks 512            # 12 joined with the column of bit 9, 37
judge 512 41          # the word 512 with its checks
judge 0 41            # bit 9 struck: the syndrome is its column, and the word comes back
judge 512 40          # check bit CX struck: the data are as stored
judge 515 41          # bits 0 and 1 struck: found, and not mended
judge 0 0             # a cell of all zeros is no word

# Byte parity: one struck place is found, none is mended.
code parity
checks 512            # one bit for each byte, which makes its ones odd
judge 512 1           # the word 512 with its checks
judge 513 1           # bit 0 struck
judge 512 3           # the check bit of the high byte struck
judge 515 1           # bits 0 and 1 struck: two in one byte are not found
";
