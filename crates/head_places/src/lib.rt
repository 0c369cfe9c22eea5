// The places of the fields of a message's head that depend on n.
#![tactic(auto)]

ghost use Rattle.std.specs.Prelude.{◌≡◌, ◌≤◌};
ghost use Rattle.spelling.specs.Spelling.{length_place, dropped_place, head_size};

// Three places of one head, each by its name: one function of a number would not say which field it is. n is at most 8 in each.
// Where the settled length stands in the head of n offices. The three are public only for the crates above, which prove that n is at most 8.
pub fn length_place(n: usize) -> usize
    requires { n ≤ 8 }
    ensures { result ≡ length_place n }
{
    4 + 2 * n
}

// Where the dropped count stands there.
pub fn dropped_place(n: usize) -> usize
    requires { n ≤ 8 }
    ensures { result ≡ dropped_place n }
{
    12 + 2 * n
}

// How many bytes the head of n offices takes.
pub fn head_size(n: usize) -> usize
    requires { n ≤ 8 }
    ensures { result ≡ head_size n }
{
    20 + 2 * n
}
