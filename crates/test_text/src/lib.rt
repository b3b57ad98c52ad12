// What the test programs read and write. Text goes to standard output at once, with no buffer to be lent: a call then
// lends one slice at most, and the proofs of the test programs, whose cost grows with every loan, stay small.
#![tactic(auto)]

// The words of an area, read by their places.
pub mod area_words;

// The file descriptors of standard input and standard output.
const STDIN_FILENO: i32 = 0;

const STDOUT_FILENO: i32 = 1;

// The bytes of a word.
pub fn word(text: &[u8]) {
    io::write_all(STDOUT_FILENO, text);
}

// A number in decimal.
pub fn number(n: u64) {
    io::print_decimal(STDOUT_FILENO, n);
}

// A word and a number.
pub fn field(text: &[u8], n: u64) {
    word(text);
    number(n);
}

// The first bytes of a buffer; nothing where it has fewer.
pub fn flush(out: &[u8], at: usize) {
    if at <= out.len() {
        word(&out[..at]);
    }
}

// Reads so many bytes of standard input to the start of a buffer; whether they were there.
pub fn read(bytes: &mut [u8], n: usize) -> bool {
    if n <= bytes.len() {
        let got = io::read_full(STDIN_FILENO, &mut bytes[..n]);
        return got >= n;
    }
    false
}

// A byte, and two of them as a number, the low one first; 0 past the buffer.
pub fn byte_at(bytes: &[u8], i: usize) -> u8 {
    bytes.get(i).copied().unwrap_or(0)
}

pub fn pair_at(bytes: &[u8], i: usize) -> usize {
    if i < 65536 {
        let low_first = [byte_at(bytes, i), byte_at(bytes, i + 1)];
        return usize::from(u16::from_le_bytes(low_first));
    }
    0
}

// The sum, or 0 where 64 bits do not hold it.
pub fn plus(a: u64, b: u64) -> u64 {
    a.checked_add(b).unwrap_or(0)
}
