// Which bytes does every path that fits a pattern begin with? A search rules out most paths by them, without trying to fit them.
ghost use Rattle.std.specs.Prelude.{◌≡◌};
ghost use Rattle.glob_prefix.specs.Prefix.{LiteralPrefix, differs, Plain};

use glob::bytes::{SLASH, STAR};
use glob::labels::Labels;
use glob::split::{bytes_before, is_deep};

// So many bytes tell nearly all paths apart that more would; to find more takes longer than it spares.
const ENOUGH: usize = 16;

// How many bytes of a label of a pattern stand before its first `*`?
fn plain_length(l: &[u8]) -> usize
    ensures { Plain l.now result }
{
    bytes_before(l, STAR)
}

// How many bytes stand before the first `*`, at most some labels with ENOUGH? The `/` of a `**` is not among them, since that may take no
// label: `/a/**` fits `/a`. 0 where the pattern does not begin with `/`.
pub fn literal_prefix(pattern: &[u8]) -> usize
    ensures { LiteralPrefix pattern.now result }
{
    if pattern.first() != Some(&SLASH) {
        return 0;
    }
    let mut a = 0;
    for label in Labels::new(pattern) {
        if is_deep(label) {
            return a; // it may take no label
        }
        let n = plain_length(label);
        a += 1 + n;
        if n < label.len() || ENOUGH <= a {
            return a;
        }
    }
    a
}

// Do two stretches differ at a place that both have?
#[tactic(auto, using(crate::proofs::Leading::differs_cut))]
pub fn differs(a: &[u8], b: &[u8]) -> bool
    ensures { result ≡ differs a.now b.now }
{
    let n = a.len().min(b.len());
    a[..n] != b[..n]
}
