// What a program needs to read its input in pieces: the bytes of a piece that are not used up go to the front of the buffer, and the next
// piece is read behind them.
#![tactic(auto)]

ghost use Rattle.input_buffer.specs.Pieces.{Within, Kept};

// Moves the bytes `from` to `to` to the front, and answers how many they are.
pub fn keep(buf: &mut [u8], from: usize, to: usize) -> usize
    requires { Within buf.old from to }
    ensures { Kept buf.old buf.new from to result }
{
    buf.copy_within(from..to, 0);
    to - from
}
