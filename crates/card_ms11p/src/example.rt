// The job that is run where none is given.

// A page of text keyed in by words and bytes, struck, and read back.
pub(crate) const DEFAULT_JOB: &[u8] =
    b"# A page of text on a card of 8,192 words at address 0: keyed in by words and bytes, struck, and read back.
code am2960
store flat 8192
place 8192 0 0
dato 0o17772100 1     # control word 0: enable the parity mark

# KYRIE ELEISON, two letters to a word, the first in the low byte
dato 1000 22859       # KY
dato 1002 18770       # RI
datob 1004 69         # E, and a space after it
datob 1005 32
dato 1006 19525       # EL
dato 1008 18757       # EI
dato 1010 20307       # SO
datob 1012 78         # N

strike 500 256        # one bit of KY
strike 503 65536      # one check bit of EL
dati 1000             # the word comes back, and its cell stays struck
dati 1006
dati 0o17772100       # bit 4: a single error, and address bits 11 to 17 of its block, here 0

strike 505 3          # two bits of SO
datob 1011 65         # a letter keyed over it: the word is bad, and the letter is lost
dati 1010             # it still says so, and the parity mark warns the processor
dati 0o17772100       # bit 15: an uncorrectable error
dato 1010 20307       # SO keyed in again as a whole word
dati 1010

dati 0o17772102       # another card's control word
dati 16384            # past the last word
datob 0o17772100 1    # the control word takes no bytes
";
