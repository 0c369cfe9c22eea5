// A vector read and compared with those of an office's versions. What is here is public only for the crate above, which proves what each function
// requires.
#![tactic(auto)]

ghost use Rattle.std.specs.Prelude.{◌≡◌, ◌++◌, ◌-◌, ◌*◌, ◌≤◌, nat_le, length, replicate, take};
ghost use Rattle.std.specs.List.{list_all, zip};
ghost use Rattle.vectors.specs.Vectors.{Countable, versions_in};
ghost use Rattle.versions.specs.Versions.{answers_to, compared_to, counts_in, is_vector, nine, number_in};

use numbers::read_run;
use std::cmp::Ordering;
use vectors::Versions;

// The answers as numbers: a version comes before the vector, equals it, comes after it or stands beside it. No `From`: both types are std's.
pub fn number(stands: Option<Ordering>) -> u32
    ensures { result ≡ number_in stands }
{
    match stands {
        Some(Ordering::Less) => 0,
        Some(Ordering::Equal) => 1,
        Some(Ordering::Greater) => 2,
        None => 3,
    }
}

// The counts in the bytes of a vector; zero from place n on.
fn counts_in(s: &[u8], n: usize) -> [u64; 8]
    requires { (n ≤ 8) × (length s.now ≡ 8 * n) }
    ensures { result ≡ counts_in n s.now ++ replicate (8 - n) 0 }
{
    let mut counts: [u64; 8] = [0; 8];
    read_run(&mut counts[..n], s, 0);
    counts
}

// Whether the bytes are a vector of n offices.
pub fn is_vector(s: &[u8], n: usize) -> bool
    requires { n ≤ 8 }
    ensures { result ≡ is_vector n s.now }
{
    s.len() == 8 * n
}

// Whether each count of one is at most the other's.
fn at_most(a: &[u64], b: &[u64]) -> bool
    ensures { result ≡ list_all (λ p. nat_le p.0 p.1) (zip a.now b.now) }
{
    a.iter().zip(b).all(|(x, y)| *x <= *y)
}

// How the counts of one stand to those of another.
fn compared(a: &[u64], b: &[u64]) -> Option<Ordering>
    requires { length a.now ≡ length b.now }
    ensures { number_in result ≡ compared_to a.now b.now }
{
    match (at_most(a, b), at_most(b, a)) {
        (true, true) => Some(Ordering::Equal),
        (true, false) => Some(Ordering::Less),
        (false, true) => Some(Ordering::Greater),
        (false, false) => None,
    }
}

// How the settled log, and then each path, stands to the vector in the bytes; beside in the answers behind them.
pub fn answers(of: &Versions, s: &[u8]) -> [u32; 9]
    requires { Countable of.now.n of.now.start of.now.log.now of.now.ballots.now × (length s.now ≡ 8 * of.now.n) }
    ensures { result ≡ nine (answers_to (take of.now.n of.now.start) (counts_in of.now.n s.now) (versions_in of.now.n of.now.log.now of.now.ballots.now)) }
{
    let n = of.n;
    let ballots = of.ballots;
    let given = counts_in(s, n);
    let base = counting::counts_after(of.start, of.log);
    let mut answers = [number(None); 9];
    answers[0] = number(compared(&base[..n], &given[..n]));
    for (o, b) in ballots[..n].iter().enumerate() {
        let counts = vectors::path_counts(base, b);
        answers[o + 1] = number(compared(&counts[..n], &given[..n]));
    }
    answers
}
