// The limits of the numbers that founding is given, which a record and a message keep: the offices, which of them is the own, and the weights.
#![tactic(auto)]

ghost use Rattle.std.specs.Prelude.{◌≡◌, eqb, drop};
ghost use Rattle.lists.specs.Tests.{all_b};
ghost use Rattle.protocol.specs.Limits.{is_office, total, head_fine};

// The most offices.
// Where a contract above says that n is at most 8, n stays a number: C hands over a record, and bytes a message, with any n until it is tested.
pub const OFFICES: usize = 8;

// Whether n may be a number of offices, and k is one of them; then n is at least 1.
pub fn is_office(n: usize, k: usize) -> bool
    ensures { result ≡ is_office n k }
{
    n <= OFFICES && k < n
}

// Whether the weights from place n on are zero.
pub fn zero_from(weights: [u16; 8], n: usize) -> bool
    ensures { result ≡ all_b (eqb 0) (drop n weights) }
{
    weights.iter().skip(n).all(|weight| *weight == 0)
}

// The sum of the weights.
pub fn total(weights: [u16; 8]) -> u32
    ensures { result ≡ total weights }
{
    weights.iter().map(|weight| u32::from(*weight)).sum()
}

// Whether a record may have these offices and weights.
pub fn head_fine(n: usize, own: usize, weights: [u16; 8]) -> bool
    ensures { result ≡ head_fine n own weights }
{
    is_office(n, own) && zero_from(weights, n) && total(weights) >= 1
}
