// Whole tables, copied word by word: the library's `copy_from_slice` would call `memmove`, and the archive for C calls nothing outside
// itself but `memset`, as include/wormstrand.h says.
ghost use Rattle.std.specs.Prelude.{length, ◌≡◌};

// Every word of from goes to the same position of to.
pub fn copy(from: &[u32], to: &mut [u32])
    requires { length to.old ≡ length from.now }
    ensures { to.new ≡ from.now }
{
    for (i, word) in to.iter_mut().enumerate() {
        *word = from[i];
    }
}
