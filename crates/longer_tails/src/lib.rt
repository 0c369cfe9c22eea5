// Whether a tail begins with words and is longer: by this test alone a ballot is kept beside a longer log, and an offer adopted.
#![tactic(auto)]

ghost use Rattle.std.specs.Prelude.{◌≡◌};
ghost use Rattle.protocol.specs.Beginning.{extends};

// Whether the tail begins with the words and is longer.
#[tactic(auto, using(crate::proofs::Walks::longer))]
pub fn extends(tail: &[u32], words: &[u32]) -> bool
    ensures { result ≡ extends tail.now words.now }
{
    tail.len() > words.len() && tail.starts_with(words)
}
