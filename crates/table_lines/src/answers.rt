// What is printed for an input.
ghost use Rattle.std.specs.Prelude.{◌≡◌, length};
ghost use Rattle.std.proofs.lemmas.List.Edits.{sets};
ghost use Rattle.table_lines.specs.Answers.{numbers_in, answer_to};

use crate::lines::{OUTPUT, put_lines};
use decimal::{Numbers, numbers_from};
use frame::Record;
use printing::put_number;
use text_parts::part_end;

// The numbers of the input's only line, none where it has another. The newline at its end may be missing.
fn numbers_in(input: &[u8]) -> Option<Numbers>
    ensures { result ≡ numbers_in input.now }
{
    let end = part_end(input, 0, b'\n');
    if end + 1 < input.len() {
        return None;
    }
    numbers_from(&input[..end], 0)
}

// Writes at the output's front what is printed for an input, and answers how many bytes it takes: a line for each table, the number of a refused
// founding, or a question mark.
pub fn answer(input: &[u8], out: &mut [u8; OUTPUT]) -> usize
    ensures { (result ≡ length (answer_to input.now)) × (out.new ≡ sets out.old 0 (answer_to input.now)) }
{
    let numbers = match numbers_in(input) {
        Some(numbers) if numbers.count == 3 => numbers,
        _ => {
            out[0] = b'?';
            out[1] = b'\n';
            return 2;
        }
    };
    let founded = Record::found(3, 0, numbers.cells, &[0; 1024]);
    // a number and no `Result`: the answer is one that crosses to C, and there 0 is done
    if founded.number != 0 {
        let next = put_number(out, 0, founded.number as usize);
        out[next] = b'\n';
        return next + 1;
    }
    put_lines(out, founded.record)
}
