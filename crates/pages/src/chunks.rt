//! Chunks of one size, one after another in a run of bytes.

ghost use Rattle.std.specs.Prelude.{◌≡◌, ◌+◌, ◌-◌, ◌*◌, ◌≤◌, ◌<◌, length, insert, remove, slice_set};
ghost use Rattle.pages.specs.Chunks.{chunks};

/// Puts a chunk before chunk `i` of the first `count`.
pub fn insert(bytes: &mut [u8], size: usize, count: usize, i: usize, chunk: &[u8])
    requires room { (count + 1) * size ≤ length bytes.old }
    requires place { i ≤ count }
    requires size { length chunk.now ≡ size }
    ensures { chunks size (count + 1) bytes.new
        ≡ insert (chunks size count bytes.old) i chunk.now }
{
    let at = i * size;
    let end = count * size;
    bytes.copy_within(at..end, at + size);
    bytes[at..at + size].copy_from_slice(chunk);
}

/// Takes out chunk `i` of the first `count`.
pub fn remove(bytes: &mut [u8], size: usize, count: usize, i: usize)
    requires room { count * size ≤ length bytes.old }
    requires place { i < count }
    ensures { chunks size (count - 1) bytes.new
        ≡ remove (chunks size count bytes.old) i }
{
    let at = i * size;
    let end = count * size;
    bytes.copy_within(at + size..end, at);
}
