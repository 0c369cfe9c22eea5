// A number in decimal.
#![tactic(auto)]

ghost use Rattle.std.specs.Prelude.{◌≡◌, ◌+◌, ◌<◌, ◌≤◌, length};
ghost use Rattle.printing.specs.Printing.{glyph, decimal_in, printed_at, Puts};

// The most digits that a number of 64 bits has.
const PLACES: usize = 20;

// The digit's character.
fn glyph_of(digit: usize) -> u8
    requires { digit < 10 }
    ensures { result ≡ glyph digit }
{
    b'0' + digit as u8
}

// Written by hand into the lent output, place by place: `format!` makes a `String`, and there is no heap; `itoa` writes to a buffer of its own, from
// which the digits would be copied.
// Writes the number's digits, at most `places` of them, and answers the place behind them.
fn put_digits(out: &mut [u8], at: usize, n: usize, places: usize) -> usize
    requires { at + places ≤ length out.old }
    ensures { Puts out.old at (decimal_in places n) result out.new }
{
    if places == 0 {
        return at;
    }
    if n < 10 {
        out[at] = glyph_of(n);
        return at + 1;
    }
    let next = put_digits(out, at, n / 10, places - 1);
    out[next] = glyph_of(n % 10);
    next + 1
}

// Writes the number's digits from `at` on, and answers the place behind them. It wants room for 20, and without it writes nothing.
pub fn put_number(out: &mut [u8], at: usize, n: usize) -> usize
    ensures { Puts out.old at (printed_at out.old at n) result out.new }
{
    if at > out.len() {
        return at;
    }
    if out.len() - at < PLACES {
        return at;
    }
    put_digits(out, at, n, PLACES)
}
