// Whether eight ballots are within the limits: of a record and of a message.
#![tactic(auto)]

ghost use Rattle.std.specs.Prelude.{◌≡◌, ◌≤◌, eqb, true};
ghost use Rattle.std.specs.Int.Bits.{bit_and};
ghost use Rattle.lists.specs.Tests.{all_b};
ghost use Rattle.ballots.specs.Ballots.{empty_ballot, ballots_fine};
ghost use Rattle.eight_ballots.specs.Fours.{coding_cells, entry_cells, fair_tail, fits_at, mask_words, of_four, padded_entries, unused_zero};

use ballots::Ballot;

// Walks of fixed length over the cells need no copy of the array, as a walk over a part of it would. They go over four ballots at once: the
// compiler takes a walk over four into its caller, where the ballots need no copy; a walk over one it would call, with a copy for each. A walk over
// each ballot, lent, was tried: all eight took 106 ns in place of 57.

// Whether all the cells are zero.
fn zero_cells(cells: [u32; 32]) -> bool
    ensures { result ≡ all_b (eqb 0) cells }
{
    let mut good = true;
    for cell in &cells {
        good = good & (0 == *cell);
    }
    good
}

// No `==` with a ballot of no entries: like the other walks here, this one is of fixed length and has no branch.
// Whether the ballot is none: no entries, and every cell zero.
fn is_none(b: Ballot) -> bool
    ensures { result ≡ empty_ballot b }
{
    (0 == b.len) & zero_cells(b.cells)
}

// Whether every ballot is none, as after an election they often are.
fn no_ballots(all: [Ballot; 8]) -> bool
    ensures { result ≡ all_b empty_ballot all }
{
    let mut none = true;
    for b in &all {
        none = none & is_none(*b);
    }
    none
}

// Whether all the cells of a ballot are entries for n offices.
fn entry_cells(b: Ballot, n: usize) -> bool
    ensures { result ≡ entry_cells n b }
{
    let mut good = true;
    for cell in &b.cells {
        good = good & entries::is_entry(*cell, n);
    }
    good
}

// Four ballots are four parameters, as the walk is for speed.
// Whether all the cells of four ballots are entries for n offices that code lines.
fn four_coding(a: Ballot, b: Ballot, c: Ballot, d: Ballot, n: usize) -> bool
    ensures { result ≡ of_four (coding_cells n) a b c d }
{
    let w = a.cells;
    let x = b.cells;
    let y = c.cells;
    let z = d.cells;
    let mut p: u32 = 0;
    let mut q: u32 = 0;
    let mut r: u32 = 0;
    let mut s: u32 = 0;
    // Four arrays side by side: iterators zipped three times would be no plainer.
    for i in 0..32 {
        p = p | entries::raised(w[i], n);
        q = q | entries::raised(x[i], n);
        r = r | entries::raised(y[i], n);
        s = s | entries::raised(z[i], n);
    }
    entries::no_carry(p) & entries::no_carry(q) & entries::no_carry(r) & entries::no_carry(s)
}

// This walk and `eight_fair` are one but for the test: a closure would bring its own `pre` and `post` into the contract. n is a number of a record
// here and in three contracts below: a type that says it is 1 to 8 would be made for one call.
// Whether all the cells of eight ballots are entries for n offices. Slower, so only for ballots of which a cell codes no line.
fn eight_entries(all: [Ballot; 8], n: usize) -> bool
    ensures { result ≡ all_b (entry_cells n) all }
{
    let mut good = true;
    for b in &all {
        good = good & entry_cells(*b, n);
    }
    good
}

// Whether no office has more than its part of the ballot's tail.
fn fair_tail(b: Ballot, n: usize) -> bool
    requires { (1 ≤ n) × ((n ≤ 8) × (padded_entries n b ≡ true)) }
    ensures { result ≡ fair_tail n b }
{
    parts::fair(b.cells, b.len, n)
}

// The same of eight ballots.
fn eight_fair(all: [Ballot; 8], n: usize) -> bool
    requires { (1 ≤ n) × ((n ≤ 8) × (all_b (padded_entries n) all ≡ true)) }
    ensures { result ≡ all_b (fair_tail n) all }
{
    let mut good = true;
    for b in &all {
        good = good & fair_tail(*b, n);
    }
    good
}

// 32 words without bits and 32 with all: from place 32 - len on they are the masks of the unused cells of a ballot.
fn masks() -> [u32; 64]
    ensures { result ≡ mask_words }
{
    let mut words: [u32; 64] = [4294967295; 64];
    words[..32].fill(0);
    words
}

// A word under a mask: nothing of it under 0, all of it under a mask of all bits.
fn masked(word: u32, mask: u32) -> u32
    ensures { (result ≡ bit_and word mask) × (mask ≡ 4294967295 → result ≡ word) }
{
    word & mask
}

// Whether the unused cells of four ballots are zero. Full ones have none.
fn four_unused(a: Ballot, b: Ballot, c: Ballot, d: Ballot, masks: &[u32]) -> bool
    requires { (masks.now ≡ mask_words) × ((a.len ≤ 32) × ((b.len ≤ 32) × ((c.len ≤ 32) × (d.len ≤ 32)))) }
    ensures { result ≡ of_four unused_zero a b c d }
{
    let w = a.cells;
    let x = b.cells;
    let y = c.cells;
    let z = d.cells;
    let j = Ballot::CELLS - a.len;
    let k = Ballot::CELLS - b.len;
    let l = Ballot::CELLS - c.len;
    let m = Ballot::CELLS - d.len;
    if (j == 0) & (k == 0) & (l == 0) & (m == 0) {
        return true;
    }
    let mut p: u32 = 0;
    let mut q: u32 = 0;
    let mut r: u32 = 0;
    let mut s: u32 = 0;
    // Four arrays side by side, with the masks from four places: iterators zipped seven times would be no plainer.
    for i in 0..32 {
        p = p | masked(w[i], masks[j + i]);
        q = q | masked(x[i], masks[k + i]);
        r = r | masked(y[i], masks[l + i]);
        s = s | masked(z[i], masks[m + i]);
    }
    (p == 0) & (q == 0) & (r == 0) & (s == 0)
}

// Whether a ballot of this length may stand at this place: with the undropped log it makes no path past 1024, and from place n on it is none.
fn fits(len: usize, place: usize, n: usize, held: usize) -> bool
    ensures { result ≡ fits_at n held place len }
{
    if place >= n {
        return 0 == len;
    }
    if len > Ballot::CELLS {
        return false;
    }
    held <= Ballot::PATH - len
}

// Whether eight ballots are within the limits beside an undropped log of this length: at once where there are none, else their lengths first,
// then their cells, by the faster test where no cell is a move of weight, and each office's part. It serves a record and a message alike. Public
// only for the crates above, which prove what it requires.
pub fn fine(all: [Ballot; 8], n: usize, held: usize) -> bool
    requires { (1 ≤ n) × ((n ≤ 8) × (held ≤ 1024)) }
    ensures { result ≡ ballots_fine n held all }
{
    if no_ballots(all) {
        return true;
    }
    let mut fit = true;
    for (place, b) in all.iter().enumerate() {
        fit = fit & fits(b.len, place, n, held);
    }
    if !fit {
        return false;
    }
    let a = all[0];
    let b = all[1];
    let c = all[2];
    let d = all[3];
    let e = all[4];
    let f = all[5];
    let g = all[6];
    let h = all[7];
    if !(four_coding(a, b, c, d, n) & four_coding(e, f, g, h, n)) {
        if !eight_entries(all, n) {
            return false;
        }
    }
    let masks = masks();
    if !(four_unused(a, b, c, d, &masks) & four_unused(e, f, g, h, &masks)) {
        return false;
    }
    eight_fair(all, n)
}
