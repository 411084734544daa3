// Writes numbers into a box, the most significant byte first, at an offset from its start.
ghost use Rattle.std.specs.Prelude.{◌≡◌, ◌++◌};
ghost use Rattle.fields.specs.Put.{put_at, half_bytes, word_bytes};

// Writes all of the bytes where there is room for them, and else none.
pub fn put(out: &mut [u8], at: usize, bytes: &[u8])
    ensures { out.new ≡ put_at out.old at bytes.now }
{
    if at <= out.len() && bytes.len() <= out.len() - at {
        out[at..at + bytes.len()].copy_from_slice(bytes);
    }
}

// Beside `put_word`, one line each: a generic one would need a trait of numbers.
pub fn put_half(out: &mut [u8], at: usize, half: u16)
    ensures { out.new ≡ put_at out.old at (half_bytes half) }
{
    put(out, at, &half.to_be_bytes());
}

pub fn put_word(out: &mut [u8], at: usize, word: u32)
    ensures { out.new ≡ put_at out.old at (word_bytes word) }
{
    put(out, at, &word.to_be_bytes());
}

// The size of the whole box, of which the field holds the low 32 bits, and the type word.
pub fn put_header(out: &mut [u8], size: u64, word: u32)
    ensures { out.new ≡ put_at out.old 0 (word_bytes size ++ word_bytes word) }
{
    let [a, b, c, d] = ((size % 4_294_967_296) as u32).to_be_bytes();
    let [e, f, g, h] = word.to_be_bytes();
    put(out, 0, &[a, b, c, d, e, f, g, h]);
}
