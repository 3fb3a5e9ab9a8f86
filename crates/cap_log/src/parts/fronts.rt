//! Words at the front of some bytes.

ghost use Rattle.std.specs.Prelude.{◌≡◌, ◌∷◌, ◌++◌, ◌↔◌, IfNone, IfSome, true};
ghost use Rattle.cap_log.specs.Parts.{BeginsWithout};

/// What follows a text at the front of some bytes and the byte that ends it, or `None` where they
/// do not stand there.
#[inline(always)]
pub fn strip_word<'a, const N: usize>(bytes: &'a [u8], text: &[u8; N], end: u8) -> Option<&'a [u8]>
    ensures some { IfSome result (λ rest. bytes.now ≡ text.now ++ end ∷ rest.now) }
    ensures none { IfNone result (BeginsWithout (text.now) end bytes.now) }
{
    let (front, others) = bytes.split_first_chunk::<N>()?;
    if front != text {
        return None;
    }
    let (first, rest) = others.split_first()?;
    if *first == end { Some(rest) } else { None }
}

/// Whether four bytes are these, compared as one number.
#[inline(always)]
pub fn are_four(bytes: &[u8; 4], text: &[u8; 4]) -> bool
    ensures same { (result ≡ true) ↔ (bytes.now ≡ text.now) }
{
    u32::from_le_bytes(*bytes) == u32::from_le_bytes(*text)
}
