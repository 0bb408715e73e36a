//! Bytes in order: byte by byte, as keys of indexes are compared. As far as two are alike they are read eight bytes at
//! a time. `Bytes` has its comparisons from here; nothing else may be called.

ghost use Rattle.std.specs.Prelude.{◌≡◌, nat_eq, refl, Some};
ghost use Rattle.std.specs.Int.{w64, to_be_bytes};
ghost use Rattle.std.specs.Ordering.{nat_cmp};
ghost use Rattle.std.specs.Cmp.Lexicographic.{pointwise, slice_cmp, nat_list_eq_equiv, nat_list_cmp_total, texts_ties, texts_po};
ghost use Rattle.std.specs.Cmp.{partial_equiv_from_equiv};

use crate::listed::Listed;
use std::cmp::Ordering;

impl PartialEq for Listed<u8> {
    ghost eq = { pointwise nat_eq };

    ghost laws = { partial_equiv_from_equiv nat_list_eq_equiv };

    fn eq(&self, other: &Self) -> bool {
        self.as_slice() == other.as_slice()
    }
}

impl Eq for Listed<u8> {
    ghost laws = { nat_list_eq_equiv };
}

impl PartialOrd for Listed<u8> {
    ghost partial_cmp = { λ x y. Some (slice_cmp nat_cmp x y) };

    ghost laws = { texts_po };

    fn partial_cmp(&self, other: &Self) -> Option<Ordering> {
        Some(self.cmp(other))
    }
}

impl Ord for Listed<u8> {
    ghost cmp = { slice_cmp nat_cmp };

    ghost total = { nat_list_cmp_total };

    ghost matches_partial_cmp = { λ x y. refl };

    ghost matches_eq = { texts_ties };

    fn cmp(&self, other: &Self) -> Ordering {
        order(self.as_slice(), other.as_slice())
    }
}

fn order<'a>(bytes: &'a [u8], other: &'a [u8]) -> Ordering
    ensures { result ≡ slice_cmp nat_cmp bytes.now other.now }
{
    let (words, _) = bytes.as_chunks::<8>();
    let (other_words, _) = other.as_chunks::<8>();
    let both = words.len().min(other_words.len());
    for i in 0..both {
        let (word, other_word) = (number_of(&words[i]), number_of(&other_words[i]));
        if word != other_word {
            return word.cmp(&other_word);
        }
    }
    let (_, bytes) = bytes.split_at(8 * both);
    let (_, other) = other.split_at(8 * both);
    bytes.cmp(other)
}

/// Eight bytes as a number, the highest first.
fn number_of(bytes: &[u8; 8]) -> u64
    ensures { to_be_bytes w64 result ≡ bytes.now }
{
    u64::from_be_bytes(*bytes)
}
