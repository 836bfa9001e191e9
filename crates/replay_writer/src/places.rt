// The places that live with the writer: those lent to a write hold characters of earlier calls, and a copy of them, made before the
// call, shows what it left as it was.
ghost use Rattle.std.specs.Prelude.{◌≡◌, drop};
ghost use Rattle.replay_writer.specs.Places.{begins};

use replay_words::places::rest;

// Whether every place from k on is as it was before.
pub fn is_same(places: &[u32], before: &[u32], k: usize) -> bool
    ensures { result ≡ begins (drop k before.now) (drop k places.now) }
{
    rest(before, k).starts_with(rest(places, k))
}
