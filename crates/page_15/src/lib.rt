// The property page of Unicode 15.0.0, as one array: for callers that are lent none.
#![tactic(auto)]

mod numbers;

ghost use Rattle.std.specs.Prelude.{◌≡◌};
ghost use Rattle.page_15.specs.Numbers.{numbers};

// The page, which is accepted: `is_accepted` (proofs/Accepted.antt). Total. The array is copied: take it once, and lend it.
pub fn page() -> [u32; 1796]
    ensures { result ≡ numbers }
{
    numbers::PAGE
}
