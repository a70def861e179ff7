// Reads a plan file from standard input, and writes its listing. One byte more than the longest file is read, so that a longer
// one is refused by its length, however long it is.
#![tactic(auto)]

fn main() {
    let mut input = [0u8; 16385];
    let n = io::read_full(0, &mut input);
    let mut out = [0u8; 32768];
    let k = listing::list(&input[..n], &mut out);
    io::write_all(1, &out[..k]);
}
