// What a search asks, with what is found out of it once.
ghost use Rattle.std.specs.Prelude.{◌≡◌, true};
ghost use Rattle.matcher.specs.Form.{pattern_form, is_fine};
ghost use Rattle.matcher.specs.Reach.{LiteralPrefix};

use matcher::reach::literal_prefix;
use value_range::value::Span;

// A formed pattern, of which every path that fits it begins with the first `literal` bytes, and the values asked for.
#[derive(Clone, Copy)]
pub struct Query<'a> {
    pub pattern: &'a [u8],
    pub literal: usize,
    pub range: Span,
    ghost formed: { is_fine (pattern_form pattern.now) ≡ true },
    ghost prefix: { LiteralPrefix pattern.now literal },
}

impl<'a> Query<'a> {
    pub fn new(pattern: &'a [u8], range: Span) -> Query<'a>
        requires { is_fine (pattern_form pattern.now) ≡ true }
        ensures pattern { result.pattern.now ≡ pattern.now }
        ensures range { result.range ≡ range }
    {
        Query {
            pattern,
            literal: literal_prefix(pattern),
            range,
        }
    }
}
