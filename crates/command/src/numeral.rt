ghost use Rattle.std.specs.Prelude.{◌≡◌, ℕ, drop, MatchOption};
ghost use Rattle.address.specs.Words.{run};
ghost use Rattle.command.specs.Numerals.{IsNumeral, kept};
ghost use Rattle.std.specs.Char.{is_ascii_digit};
ghost use Rattle.std.specs.List.{prefix_len};

// The digits that octets begin with, and what stands behind them.
pub(crate) fn cut_digits(s: &[u8]) -> (&[u8], &[u8])
    ensures digits { result.0.now ≡ run is_ascii_digit s.now }
    ensures rest { result.1.now ≡ drop (prefix_len is_ascii_digit s.now) s.now }
{
    s.split_at(s.iter().take_while(|x| x.is_ascii_digit()).count())
}

// The number that octets write in 1 to `most` digits, as it is kept.
pub(crate) fn numeral(s: &[u8], most: usize) -> Option<usize>
    ensures { MatchOption result ((n : ℕ) → IsNumeral most s.now n → ⊥) (λ k. (n : ℕ) × IsNumeral most s.now n × (k ≡ kept n)) }
{
    if s.is_empty() || s.len() > most || !s.iter().all(|x| x.is_ascii_digit()) {
        return None;
    }
    // What passes a usize is kept as the largest, where `parse` would refuse it.
    Some(
        s.iter().fold(
            0usize,
            |n, x| n.saturating_mul(10).saturating_add((*x - b'0') as usize),
        ),
    )
}
