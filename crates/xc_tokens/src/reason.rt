ghost use Rattle.std.specs.Prelude.{◌≡◌};
ghost use Rattle.xc_tokens.specs.Answers.{rank, earlier, seen, both as together};

use crate::why::Why;

impl Why {
    fn rank(&self) -> u8
        ensures { result ≡ rank self.now }
    {
        match self {
            Why::TooLong => 0,
            Why::BadByte => 1,
            Why::BadLiteral => 2,
            Why::UnknownLine => 3,
            Why::BadForm => 4,
            Why::BadNumber => 5,
            Why::BadName => 6,
            Why::Twice => 7,
            Why::TooMany => 8,
            Why::Unclosed => 9,
        }
    }
}

fn earlier_of(a: Why, b: Why) -> Why
    ensures { result ≡ earlier a b }
{
    if a.rank() <= b.rank() { a } else { b }
}

/// Two parts of a line. Where both are bad the earlier reason decides.
pub fn both<A: Drop, B: Drop>(a: Result<A, Why>, b: Result<B, Why>) -> Result<(A, B), Why>
    ensures { result ≡ together a b }
{
    match a {
        Ok(a) => match b {
            Ok(b) => Ok((a, b)),
            Err(why) => Err(why),
        },
        Err(first) => match b {
            Ok(_) => Err(first),
            Err(second) => Err(earlier_of(first, second)),
        },
    }
}

/// The first of two parts, where the second is only checked.
pub fn beside<A: Drop>(a: Result<A, Why>, b: Result<(), Why>) -> Result<A, Why>
    ensures { result ≡ seen (λ p. p.0) (together a b) }
{
    let (a, ()) = both(a, b)?;
    Ok(a)
}
