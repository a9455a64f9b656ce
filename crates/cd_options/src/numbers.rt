//! Numbers in words.
#![tactic(auto)]

ghost use Rattle.std.specs.Prelude.{◌≡◌, ◌≤◌, ℕ, MatchOption};
ghost use Rattle.cd_options.specs.Numbers.{IsNumber, is_digit};

fn is_digit(b: u8) -> bool
    ensures { result ≡ is_digit b }
{
    b >= b'0' && b <= b'9'
}

/// The number in a range that 1 to 20 digits give, or `None` exactly where they give none.
pub fn number(text: &[u8], least: u64, most: u64) -> Option<u64>
    ensures { MatchOption result ((n : ℕ) → IsNumber text.now n → least ≤ n → n ≤ most → ⊥)
        (λ n. IsNumber text.now n × (least ≤ n) × (n ≤ most)) }
{
    if text.len() == 0 || text.len() > 20 {
        return None;
    }
    let mut n: u64 = 0;
    for b in text {
        if !is_digit(*b) {
            return None;
        }
        let d = (*b - 48) as u64;
        if n > (u64::MAX - d) / 10 {
            return None;
        }
        n = n * 10 + d;
    }
    if n < least || n > most { None } else { Some(n) }
}
