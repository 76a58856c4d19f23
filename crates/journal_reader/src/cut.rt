//! Cuts texts into as many parts as they are to have.
ghost use Rattle.std.specs.Prelude.{[], ◌∷◌, MatchOption};
ghost use Rattle.journal_reader.specs.Parts.{IsCut, NoCut};

use base_words::cut_at;

/// Two parts: what stands before the first such octet, and what stands behind it.
pub(crate) fn cut_two(octet: u8, text: &[u8]) -> Option<(&[u8], &[u8])>
    ensures { MatchOption result (NoCut 2 octet text.now) (λ p. IsCut octet text.now (p.0.now ∷ p.1.now ∷ [])) }
{
    let (first, second) = cut_at(octet, text)?;
    Some((first, second))
}

/// Three parts.
pub(crate) fn cut_three(octet: u8, text: &[u8]) -> Option<(&[u8], &[u8], &[u8])>
    ensures { MatchOption result (NoCut 3 octet text.now)
        (λ p. IsCut octet text.now (p.0.now ∷ p.1.now ∷ p.2.now ∷ [])) }
{
    let (first, rest) = cut_at(octet, text)?;
    let (second, third) = cut_at(octet, rest)?;
    Some((first, second, third))
}

/// A text in six parts.
pub(crate) type Six<'a> = (&'a [u8], &'a [u8], &'a [u8], &'a [u8], &'a [u8], &'a [u8]);

/// Six parts.
pub(crate) fn cut_six(octet: u8, text: &[u8]) -> Option<Six<'_>>
    ensures { MatchOption result (NoCut 6 octet text.now)
        (λ p. IsCut octet text.now (p.0.now ∷ p.1.now ∷ p.2.now ∷ p.3.now ∷ p.4.now ∷ p.5.now ∷ [])) }
{
    let (first, second, rest) = cut_three(octet, text)?;
    let (third, fourth, rest) = cut_three(octet, rest)?;
    let (fifth, sixth) = cut_two(octet, rest)?;
    Some((first, second, third, fourth, fifth, sixth))
}

/// A text in seven parts.
pub(crate) type Seven<'a> = (
    &'a [u8],
    &'a [u8],
    &'a [u8],
    &'a [u8],
    &'a [u8],
    &'a [u8],
    &'a [u8],
);

/// Seven parts.
pub(crate) fn cut_seven(octet: u8, text: &[u8]) -> Option<Seven<'_>>
    ensures { MatchOption result (NoCut 7 octet text.now)
        (λ p. IsCut octet text.now (p.0.now ∷ p.1.now ∷ p.2.now ∷ p.3.now ∷ p.4.now ∷ p.5.now ∷ p.6.now ∷ [])) }
{
    let (first, second, rest) = cut_three(octet, text)?;
    let (third, fourth, rest) = cut_three(octet, rest)?;
    let (fifth, sixth, seventh) = cut_three(octet, rest)?;
    Some((first, second, third, fourth, fifth, sixth, seventh))
}
