// What an office knows of the others' settled lengths: the least of them, and the longest heard of each.
#![tactic(auto)]

ghost use Rattle.std.specs.Prelude.{◌≡◌, ◌-◌, ◌<◌, ◌≤◌};
ghost use Rattle.protocol.specs.Folding.{least_known, note};

// The parameters are fields of a record, whose type stands above with its methods.
// The smallest of the own settled length and the lengths noted of the other offices.
fn least_known(own: usize, settled: u64, noted: [u64; 8], n: usize) -> u64
    requires { n ≤ 8 }
    ensures { result ≡ least_known own settled noted n }
{
    let mut least = settled;
    for (j, length) in noted[..n].iter().enumerate() {
        if j != own {
            least = least.min(*length);
        }
    }
    least
}

// How many entries past the dropped ones every office is known to have. Public only for the crate above, which proves that n is at most 8.
pub fn known(own: usize, settled: u64, noted: [u64; 8], n: usize, dropped: u64) -> u64
    requires { n ≤ 8 }
    ensures { result ≡ least_known own settled noted n - dropped }
{
    least_known(own, settled, noted, n).saturating_sub(dropped)
}

// The longest settled length noted for each office, after a message of this one with this settled length. Public only for the crate above, which
// proves that there is such an office.
pub fn noted(lengths: [u64; 8], sender: usize, length: u64) -> [u64; 8]
    requires { sender < 8 }
    ensures { result ≡ note sender length lengths }
{
    let mut next = lengths;
    next[sender] = next[sender].max(length);
    next
}
