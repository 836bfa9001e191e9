// The front of a buffer: what is in use of it.
ghost use Rattle.std.specs.Prelude.{◌≡◌, take};

// The first n; all, where there are fewer.
pub fn up_to<T>(all: &[T], n: usize) -> &[T]
    ensures { result.now ≡ take n all.now }
{
    &all[..n.min(all.len())]
}
