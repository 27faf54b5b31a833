//! The words of any text, by the bytes that stand between them.

ghost use Rattle.std.specs.Prelude.{◌≡◌, ℕ, ◌<◌, ◌≤◌, Bool, ◌∷◌, true, length, take, drop};
ghost use Rattle.tools.specs.Words.{begins_with_word, behind_gaps, words_between, gap_at};

/// The bytes that stand between the words of a text.
pub trait Gap {
    /// Which bytes they are.
    ghost gaps: { ℕ → Bool };

    /// The byte is one of them.
    fn is_gap(byte: u8) -> bool
        ensures { result ≡ gaps byte };
}

/// How many bytes stand before the first gap.
pub(crate) fn gap_at<G: Gap>(text: &[u8]) -> usize
    ensures value { result ≡ gap_at G.gaps text.now }
    ensures within { result ≤ length text.now }
{
    let mut len = 0;
    for byte in text {
        if G::is_gap(*byte) {
            return len;
        }
        len += 1;
    }
    len
}

/// The word with which a text begins, and what stands behind it.
#[tactic(auto, using(crate::proofs::WordLemmas::words_first, crate::proofs::WordLemmas::some_len))]
pub fn first_word<G: Gap>(text: &[u8]) -> (&[u8], &[u8])
    requires { begins_with_word G.gaps text.now ≡ true }
    ensures word { result.0.now ≡ take (gap_at G.gaps text.now) text.now }
    ensures behind { result.1.now ≡ drop (gap_at G.gaps text.now) text.now }
    ensures split { words_between G.gaps text.now ≡ result.0.now ∷ words_between G.gaps result.1.now }
    ensures shorter { length result.1.now < length text.now }
{
    let len = gap_at::<G>(text);
    text.split_at(len)
}

/// A text without the gaps with which it begins.
pub fn skip_gaps<G: Gap>(text: &[u8]) -> &[u8]
    ensures value { result.now ≡ behind_gaps G.gaps text.now }
    ensures words { words_between G.gaps result.now ≡ words_between G.gaps text.now }
    ensures begins { 0 < length result.now → begins_with_word G.gaps result.now ≡ true }
    ensures within { length result.now ≤ length text.now }
{
    let mut rest = text;
    while let Some((first, behind)) = rest.split_first() {
        if !G::is_gap(*first) {
            return rest;
        }
        rest = behind;
    }
    rest
}
