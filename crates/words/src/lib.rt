// Words in a text: the bytes between two separators. Inner: readers of texts call these functions.
#![tactic(auto)]

ghost use Rattle.std.specs.Prelude.{◌+◌, ◌≤◌, [], ◌∷◌, drop, length, ◌≡◌, IfSome, MatchOption};
ghost use Rattle.words.specs.Words.{split, up_to};

// The place of the next separator from `at` on, or the text's end where there is none.
pub fn find(text: &[u8], at: usize, sep: u8) -> usize
    requires { at ≤ length text.now }
    ensures value { result ≡ at + length (up_to sep (drop at text.now)) }
    ensures upper_bound { result ≤ length text.now }
{
    let found = text[at..].iter().position(|b| *b == sep);
    match found {
        Some(i) => at + i,
        None => text.len(),
    }
}

// The parts in front of the first separator and behind it, where there is one.
pub fn split_once(text: &[u8], sep: u8) -> Option<(&[u8], &[u8])>
    ensures parts { MatchOption result (split sep text.now ≡ text.now ∷ [])
        (λ p. split sep text.now ≡ p.0.now ∷ split sep p.1.now) }
    ensures size { IfSome result (λ p. length text.now ≡ length p.0.now + 1 + length p.1.now) }
{
    let end = find(text, 0, sep);
    if end == text.len() {
        return None;
    }
    Some((&text[..end], &text[end + 1..]))
}
