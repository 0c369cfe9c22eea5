// The parts of a text that a mark ends.
#![tactic(auto)]

ghost use Rattle.std.specs.Prelude.{◌≡◌, ◌+◌, ◌==◌, not, drop, length, take_while};
ghost use Rattle.text_parts.specs.Parts.{part_length};

// How many bytes stand before the first mark, or before the end.
fn part_length(bytes: &[u8], mark: u8) -> usize
    ensures { result ≡ length (take_while (λ b. not (b == mark)) bytes.now) }
{
    bytes.iter().take_while(|b| **b != mark).count()
}

// Where the part that begins at `at` ends: at the next mark, or at the end. The bytes from `at` on are lent: a `skip` would walk over all before them.
pub fn part_end(bytes: &[u8], at: usize, mark: u8) -> usize
    ensures { result ≡ at + part_length mark (drop at bytes.now) }
{
    if at >= bytes.len() {
        return at;
    }
    at + part_length(&bytes[at..], mark)
}
