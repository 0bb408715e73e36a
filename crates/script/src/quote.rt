//! What follows a quoted name or a text. The rules of quotes are those of `sql_grammar`; what stands between
//! quotes is passed over here, so nothing is kept of it.

ghost use Rattle.std.specs.Prelude.{◌≡◌, ◌≤◌, length, IfSome};
ghost use Rattle.std.specs.Option.{option_map};
ghost use Rattle.sql_grammar.specs.Tokens as tokens;
ghost use Rattle.script.specs.Parts as spelled;

/// What follows a name, behind its opening quote.
#[tactic(auto, using(crate::proofs::Fronts::fronts), unfolding(sql_grammar::specs::Tokens::quoted))]
pub(crate) fn after_quoted(quote: u8, bytes: &[u8]) -> Option<&[u8]>
    ensures value { option_map (λ r. r.now) result ≡ spelled.behind (tokens.quoted quote bytes.now) }
    ensures shorter { IfSome result (λ r. length r.now ≤ length bytes.now) }
{
    let mut rest = bytes;
    while let [b, after @ ..] = rest {
        if *b != quote {
            rest = after;
            continue;
        }
        match after {
            [c, after @ ..] if *c == quote => rest = after,
            _ => return Some(after),
        }
    }
    None
}

/// What follows a text, behind its opening quote.
#[tactic(auto, using(crate::proofs::Fronts::fronts), unfolding(sql_grammar::specs::Tokens::text_in))]
pub(crate) fn after_text(quote: u8, bytes: &[u8]) -> Option<&[u8]>
    ensures value { option_map (λ r. r.now) result ≡ spelled.behind (tokens.text_in quote bytes.now) }
    ensures shorter { IfSome result (λ r. length r.now ≤ length bytes.now) }
{
    let mut rest = bytes;
    loop {
        match rest {
            [] => return None,
            [b, c, after @ ..] if *b == quote && *c == quote => rest = after,
            [b, after @ ..] if *b == quote => return Some(after),
            [b'\\'] => return None,
            [b'\\', _, after @ ..] => rest = after,
            [_, after @ ..] => rest = after,
        }
    }
}
